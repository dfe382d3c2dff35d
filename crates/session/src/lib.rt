// A session: the calls by which a rule is loaded and judged, and what the session then has.
#![tactic(auto)]

pub mod load;
pub mod phase;
pub mod state;
pub mod verdict;

pub use phase::Phase;
pub use state::Session;
