// Texts as bytes: runs of a class of bytes, decimal numbers, and writing into a buffer.
#![tactic(auto)]

pub mod numeral;
pub mod put;
pub mod scan;

pub use numeral::{decimal, integer, signed_integer};
pub use put::{put_bytes, put_decimal, room_after, room_after_decimal};
pub use scan::{Class, run_end};
