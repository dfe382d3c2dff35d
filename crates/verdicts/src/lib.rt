// What is printed of the verdict on a rule's text.
#![tactic(auto)]

pub mod listing;

pub use listing::{listed, refusal_printed, zeros};
