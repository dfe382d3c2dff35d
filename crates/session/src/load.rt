// Making a session, loading a rule, and looking at its inputs.
ghost use Rattle.std.specs.Prelude.{◌≡◌, ◌<◌, length, IfOk, OnOk};
ghost use Rattle.grammar.specs.Sentences.{Exact};
ghost use Rattle.session.specs.Sessions.{no_rule, loaded, Sound, inputs_of, input_at};

use crate::phase::Phase;
use crate::state::Session;
use grades::Written;
use grammar::ClosedProgram;
use judge::TypeTable;
use language::Binder;
pub use language::GRADES;
use std::alloc::{AllocError, Global};
use tokens::{Fault, Refusal};

impl Session {
    // A session without a rule. All the room that its calls will ever need is taken here.
    pub fn new(heap: Global) -> Result<Session, AllocError>
        ensures made { IfOk result (λ s. s ≡ no_rule) }
        ensures sound { IfOk result Sound }
    {
        let rule = ClosedProgram::new(heap)?;
        let types = TypeTable::new(heap)?;
        Ok(Session {
            rule,
            phase: Phase::Empty,
            verdict: None,
            types,
        })
    }

    // Reads the text of a rule, in place of any earlier one, and writes its grades into the grade list.
    // By its second clause, what is read are exactly the sentences of the grammar within the limits. By its third, a
    // session that has read a rule has one. A verdict on an earlier rule is dropped.
    #[tactic(auto, using(grammar::proofs::Theorem::exact))]
    pub fn load<G: Written>(&mut self, text: &[u8], grades: &mut [G]) -> Result<(), Fault>
        ensures loads { (result, self.new, grades.new) ≡ loaded G.reading G.Algebra.unit G.Algebra.nil text.now self.old grades.old }
        ensures exact { Exact G.reading G.Algebra.unit }
        ensures there { OnOk result (0 < length self.new.rule.nodes) }
        ensures sound { Sound self.new }
    {
        // looked at, so that the proof knows what holds of it where the list is too short
        let _ = &self.rule;
        if grades.len() < GRADES {
            return Err(Refusal::ShortList.at(0));
        }
        self.verdict = None;
        self.phase = Phase::Empty;
        self.rule.read(text, grades)?;
        self.phase = Phase::Loaded;
        Ok(())
    }

    // The binders of the inputs, in order.
    pub fn inputs(&self) -> &[Binder]
        ensures binders { result.now ≡ inputs_of self.now }
        ensures all { length result.now ≡ self.now.rule.inputs }
        ensures sound { Sound self.now }
    {
        let program = &self.rule.program;
        &program.binders[..program.inputs]
    }

    // The binder of the input number `i`, counted from 0, if the rule has so many.
    pub fn input(&self, i: usize) -> Option<Binder>
        ensures binder { result ≡ input_at self.now i }
        ensures sound { Sound self.now }
    {
        self.inputs().get(i).copied()
    }
}
