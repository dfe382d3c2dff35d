// Making a closed program, and reading a rule into it: what the reader accepts is closed.
ghost use Rattle.std.specs.Prelude.{◌≡◌, ◌<◌, length, IfOk, OnOk};
ghost use Rattle.language.specs.Reading.{tables_of, no_tables, program_read};

use crate::closed::ClosedProgram;
use grades::Written;
use language::{Program, read_program};
use std::alloc::{AllocError, Global};
use tokens::Fault;

impl ClosedProgram {
    // An empty program with room for the largest rule.
    pub fn new(heap: Global) -> Result<ClosedProgram, AllocError>
        ensures { IfOk result (λ c. tables_of c.program ≡ no_tables) }
    {
        let program = Program::new(heap)?;
        Ok(ClosedProgram { program })
    }

    // Reads the text of a rule, in place of any earlier one, and writes its grades into the grade list. Both are the caller's,
    // here as above: a struct of the two would be made for this one call.
    pub fn read<G: Written>(&mut self, text: &[u8], grades: &mut [G]) -> Result<(), Fault>
        ensures reads { (result, tables_of self.new.program, grades.new) ≡ program_read G.reading G.Algebra.unit G.Algebra.nil text.now (tables_of self.old.program) grades.old }
        ensures there { OnOk result (0 < length (tables_of self.new.program).nodes) }
    {
        read_program(text, &mut self.program, grades)
    }
}
