// How far a session has come.

// A session is made empty, and has a rule once a load was not refused.
#[derive(Clone, Copy, PartialEq, Eq, Debug)]
pub enum Phase {
    Empty,
    Loaded,
}
