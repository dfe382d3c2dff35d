// What a judging comes to.

// The rule keeps to its grades, or it does not.
#[derive(Clone, Copy, Debug, PartialEq, Eq)]
pub enum Verdict {
    Accepted,
    Refused,
}
