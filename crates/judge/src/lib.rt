// The judge: a recursion over the terms of a program, and its verdict on a rule.
#![tactic(auto)]

mod entries;
mod graded;
pub mod rule;
mod table;
mod terms;
mod types;
mod usage;
mod verdict;

pub use rule::judge_program;
pub use table::TypeTable;
pub use verdict::Verdict;
