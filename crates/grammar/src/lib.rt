// The grammar of rules, the theorem that reading accepts exactly its sentences, and programs that are closed.
#![tactic(auto)]

ghost use Rattle.grammar.specs.Sentences.{Exact};

pub mod closed;
pub mod reading;

pub use closed::ClosedProgram;
use grades::Written;

// For every written algebra: reading accepts exactly the sentences of the grammar within the limits, what it stores is
// their rule, and a text has at most one rule.
pub fn reading_is_exact<G: Written>()
    ensures { Exact G.reading G.Algebra.unit }
{}
