// The language of rules: names, terms, program tables and the reader.
#![tactic(auto)]

pub mod heads;
pub mod program;
pub mod reader;
mod reading;
pub mod scope;
pub mod store;
pub mod tables;

pub use program::{Binder, Node, SimpleType, Term};
pub use reader::read_program;
pub use scope::Scope;
pub use store::push_entry;
pub use tables::{GRADES, Program};
