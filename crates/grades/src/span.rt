// Spans: how often a name is read, from a lower to an upper end.
ghost use Rattle.std.specs.Prelude.{◌≤◌};

pub mod algebra;
pub mod written;

// The largest number that an end can be.
const MOST: u16 = 9999;

// As an upper end: no limit. It is a number, since sum and product add, multiply and round it as one: an enum or `Option`
// would need a match in both and in their definitions.
const NO_LIMIT: u16 = 10_000;

// From `lower` to `upper` reads.
#[derive(Clone, Copy, Debug, PartialEq, Eq)]
pub struct Span {
    lower: u16,
    upper: u16,
    ghost ordered: { lower ≤ upper },
    ghost low: { lower ≤ 9999 },
    ghost high: { upper ≤ 10000 },
}
