// What a session holds.
use crate::phase::Phase;
use grammar::ClosedProgram;
use judge::{TypeTable, Verdict};
use std::marker::Model;

// The tables of a rule, how far the session has come, the verdict, if the rule is judged, and the room for judging it.
// The grades of a rule stand in lists that its user brings; a session holds everything else.
// The verdict stands beside the phase, since `judge_program`, which knows no session, takes the `Option` alone: one enum of
// both would be taken apart for it and put together after.
#[derive(Drop)]
pub struct Session {
    pub(crate) rule: ClosedProgram,
    pub(crate) phase: Phase,
    pub(crate) verdict: Option<Verdict>,
    pub(crate) types: TypeTable,
}

// Contracts see how far a session has come, the tables of its rule and the verdict. The room for judging is left out.
impl Model for Session {
    ghost use Rattle.language.specs.Reading.{tables_of};
    ghost use Rattle.session.specs.Sessions.{Model, model};

    ghost Value = { Model };

    ghost view = { λ s. model s.phase (tables_of s.rule.program) s.verdict };
}
