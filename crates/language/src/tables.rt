// The tables of a program. Their room is taken once, and no entry refers past its table or to a later entry.
ghost use Rattle.std.specs.Prelude.{◌≡◌, ◌+◌, ◌≤◌, length, vec_capacity};
ghost use Rattle.language.specs.Tables.{BindersSound, TypesSound, NodesSound};

use crate::program::{Binder, Node, SimpleType};

// How many grades the grade list has room for.
pub const GRADES: usize = 256;

// A session takes no memory after it is made, so a rule lies in tables whose entries refer to each other by index, and
// not in a tree of boxes. Its fields are public, plain data that the judge, the grammar and tests read, so it has no
// `impl Model`. `inputs`, `grades` and `words` are no lengths of its tables: they count the binders that are inputs, the
// grades in the list that the caller lends, and the words of the text.
#[derive(Drop)]
pub struct Program {
    // the inputs in order, and then the functions' binders in the order of the text
    pub binders: Vec<Binder>,
    pub types: Vec<SimpleType>,
    // each term stands behind its parts, and the run term is the last
    pub nodes: Vec<Node>,
    pub inputs: usize,
    // how many grades, and how many term and type words, the rule has
    pub grades: usize,
    pub words: usize,
    // room for the largest rule
    ghost room_for_binders: { 520 ≤ vec_capacity binders },
    ghost room_for_types: { 512 ≤ vec_capacity types },
    ghost room_for_nodes: { 512 ≤ vec_capacity nodes },
    // each type and term stands for a word that was counted, and each binder for an input or a word
    ghost counted: { length nodes.items + length types.items ≤ words },
    ghost named: { length binders.items ≤ inputs + words },
    ghost declared: { inputs ≤ length binders.items },
    ghost few_inputs: { inputs ≤ 8 },
    ghost few_grades: { grades ≤ 256 },
    ghost few_words: { words ≤ 512 },
    // every stored index lies below its table's count, and types and terms refer to older ones only
    ghost binders_sound: { BindersSound grades binders.items },
    ghost types_sound: { TypesSound grades types.items },
    ghost nodes_sound: { NodesSound (length binders.items) (length types.items) nodes.items },
}
