// Judging the rule of a session.
ghost use Rattle.std.specs.Prelude.{◌≡◌};
ghost use Rattle.session.specs.Sessions.{session_judged, Sound};
ghost use Rattle.session.specs.Meanings.{JudgesCorrectly};

use crate::state::Session;
use grades::Algebra;
use judge::judge_program;
use tokens::Fault;

impl Session {
    // Judges the rule by the grades of the grade list. If it is accepted, the work list gets the inputs' least usages and
    // zeros behind them; if it is refused, zeros. By its last clause, the rule is accepted exactly when some derivation
    // makes it acceptable, and these usages are the least of any derivation.
    pub fn judge<G: Algebra>(&mut self, grades: &[G], work: &mut [G]) -> Result<(), Fault>
        ensures judges { (result, self.new, work.new) ≡ session_judged G.Algebra grades.now self.old work.old }
        ensures keeps { (self.new.phase ≡ self.old.phase) × (self.new.rule ≡ self.old.rule) }
        ensures sound { Sound self.new }
        ensures correctly { JudgesCorrectly G.Algebra self.old grades.now work.old result work.new }
    {
        judge_program(&self.rule, &mut self.verdict, &mut self.types, grades, work)
    }
}
