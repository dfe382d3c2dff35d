// What a judging only reads.
ghost use Rattle.std.specs.Prelude.{◌<◌, ◌≤◌, length};

use grammar::ClosedProgram;

// A rule, with the list in which its grades stand.
#[derive(Drop)]
pub(crate) struct GradedRule<'a, G> {
    pub(crate) rule: &'a ClosedProgram,
    pub(crate) grades: &'a [G],
    // the run term is there
    ghost there: { 0 < length rule.now.program.nodes.items },
    // each grade of a rule has a place in the list
    ghost long: { 256 ≤ length grades.now },
}
