// Algebras of usage: how often a name may be read, with the laws that every algebra keeps.
#![tactic(auto)]

pub mod algebra;
pub mod consequences;
pub mod level;
pub mod pairing;
pub mod span;

pub use algebra::{Algebra, Written};
pub use consequences::{one_is_taken, zero_is_not_one};
pub use level::Level;
pub use pairing::Pair;
pub use span::Span;
