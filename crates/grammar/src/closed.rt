// A program whose run term is closed: each of its names is bound by an input or by a function around it.
ghost use Rattle.std.specs.Prelude.{◌≤◌};
ghost use Rattle.grammar.specs.Closing.{run_size};

use language::Program;

#[derive(Drop)]
pub struct ClosedProgram {
    pub program: Program,
    ghost closed: { (run_size (program.nodes.items)).binders ≤ program.inputs },
    // how deep its functions stand inside one another, and how many there are
    ghost levels: { (run_size (program.nodes.items)).levels ≤ 24 },
    ghost functions: { (run_size (program.nodes.items)).functions ≤ 512 },
}
