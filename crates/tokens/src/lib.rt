// The tokens of a rule's text, and why a text or a call is refused.
#![tactic(auto)]

pub mod keyword;
pub mod refusal;
pub mod token;

pub use keyword::{Keyword, keyword_of};
pub use refusal::{Fault, Refusal};
pub use token::{Placed, Token, token_at};
