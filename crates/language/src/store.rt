// Storing a rule: the tables are emptied and filled entry by entry, and never take more room.
ghost use Rattle.std.specs.Prelude.{◌≡◌, ◌+◌, ◌<◌, [], ◌∷◌, ◌++◌, length, IfOk, OnOk, vec_len, vec_capacity};
ghost use Rattle.language.specs.Reading.{told, tables_of, no_tables, with_binder, with_type, with_node, with_input, with_word, counted};
ghost use Rattle.language.specs.Growth.{TypeFits, TermFits};

use crate::program::{Binder, Node, SimpleType};
use crate::tables::Program;
use std::alloc::{AllocError, Global};
use tokens::{Fault, Refusal};

// The most binders, and the most term and type words.
const MOST_BINDERS: usize = 520;

const MOST_WORDS: usize = 512;

// Puts one more entry into a table that has room for it, and answers its index.
pub fn push_entry<T>(table: &mut Vec<T>, entry: T) -> usize
    requires { vec_len table.old < vec_capacity table.old }
    ensures index { result ≡ vec_len table.old }
    ensures items { table.new.items ≡ table.old.items ++ (entry ∷ []) }
    ensures capacity { vec_capacity table.new ≡ vec_capacity table.old }
{
    let index = table.len();
    table.push_reserved(entry);
    index
}

impl Program {
    // An empty program with room for the largest rule.
    pub fn new(heap: Global) -> Result<Program, AllocError>
        ensures { IfOk result (λ p. tables_of p ≡ no_tables) }
    {
        let binders = Vec::with_capacity(heap, MOST_BINDERS)?;
        let types = Vec::with_capacity(heap, MOST_WORDS)?;
        let nodes = Vec::with_capacity(heap, MOST_WORDS)?;
        Ok(Program {
            binders,
            types,
            nodes,
            inputs: 0,
            grades: 0,
            words: 0,
        })
    }

    pub fn clear(&mut self)
        ensures { tables_of self.new ≡ no_tables }
    {
        self.nodes.clear();
        self.types.clear();
        self.binders.clear();
        self.inputs = 0;
        self.grades = 0;
        self.words = 0;
    }

    // Counts the word of a type or a term at which `depth` levels are left, and answers how many are left inside it.
    pub(crate) fn count_word(&mut self, depth: usize, place: usize) -> Result<usize, Fault>
        ensures counts { told result (tables_of self.new) ≡ counted depth place (tables_of self.old) }
        ensures falls { IfOk result (λ inner. inner + 1 ≡ depth) }
        ensures words { OnOk result (tables_of self.new ≡ with_word (tables_of self.old)) }
    {
        if depth == 0 || self.words >= MOST_WORDS {
            return Err(Refusal::Limit.at(place));
        }
        self.words += 1;
        Ok(depth - 1)
    }

    // The binder of a function, whose word is counted.
    pub(crate) fn add_binder(&mut self, binder: Binder) -> usize
        requires room { length (tables_of self.old).binders < (tables_of self.old).inputs + (tables_of self.old).words }
        requires fits { binder.grade < (tables_of self.old).grades }
        ensures index { result ≡ length (tables_of self.old).binders }
        ensures after { tables_of self.new ≡ with_binder (tables_of self.old) binder }
    {
        push_entry(&mut self.binders, binder)
    }

    // The binder of one more input.
    pub(crate) fn add_input(&mut self, binder: Binder)
        requires few { (tables_of self.old).inputs < 8 }
        requires fits { binder.grade < (tables_of self.old).grades }
        ensures { tables_of self.new ≡ with_input (tables_of self.old) binder }
    {
        self.binders.push_reserved(binder);
        self.inputs += 1;
    }

    pub(crate) fn add_type(&mut self, simple: SimpleType) -> usize
        requires room { length (tables_of self.old).nodes + length (tables_of self.old).types < (tables_of self.old).words }
        requires fits { TypeFits (tables_of self.old) simple }
        ensures index { result ≡ length (tables_of self.old).types }
        ensures after { tables_of self.new ≡ with_type (tables_of self.old) simple }
    {
        push_entry(&mut self.types, simple)
    }

    pub(crate) fn add_node(&mut self, node: Node) -> usize
        requires room { length (tables_of self.old).nodes + length (tables_of self.old).types < (tables_of self.old).words }
        requires fits { TermFits (tables_of self.old) node.term }
        ensures index { result ≡ length (tables_of self.old).nodes }
        ensures after { tables_of self.new ≡ with_node (tables_of self.old) node }
    {
        push_entry(&mut self.nodes, node)
    }
}
