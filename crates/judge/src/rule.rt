// Judging a rule: its run term, the answer's type, and the inputs in order.
ghost use Rattle.std.specs.Prelude.{◌≡◌, ◌+◌, ◌-◌, ◌≤◌, ◌++◌, length, replicate};
ghost use Rattle.language.specs.declared.program.SimpleType.TheVariants.{Num};
ghost use Rattle.language.specs.Reading.{tables_of};
ghost use Rattle.language.specs.Scopes.{scope_items};
ghost use Rattle.typing.specs.Judging.{inputs_covered, rule_judged};
ghost use Rattle.judge.specs.Meaning.{run_node};
ghost use Rattle.judge.specs.Progress.{Ready, judged_into, used_into, Judges};
ghost use Rattle.judge.specs.Programs.{graded_rule, usages_of, program_judged};

use crate::graded::GradedRule;
use crate::table::TypeTable;
use crate::usage::Usage;
use crate::verdict::Verdict;
use grades::Algebra;
use grammar::ClosedProgram;
pub use language::GRADES;
use language::{Scope, SimpleType};
use tokens::{Fault, Refusal};

// The work list needs at least so many places.
pub const WORK: usize = 2592;

impl<G: Algebra> GradedRule<'_, G> {
    // Each input's declared grade covers its usage, in the order of the inputs.
    fn cover_inputs(&self, usages: &[G]) -> Result<(), Fault>
        requires { length usages.now ≡ self.now.rule.now.program.inputs }
        ensures { result ≡ inputs_covered G.Algebra (graded_rule G.Algebra self.now) usages.now }
    {
        for (binder, usage) in self.rule.program.binders.iter().zip(usages) {
            if !self.grade(binder.grade).covers(*usage) {
                return Err(Refusal::NotCovered.at(binder.place));
            }
        }
        Ok(())
    }

    // The type of the run term, and its usage, with so many more inputs open around it, which are numbers.
    fn judge_run(
        &self,
        types: &mut TypeTable,
        context: &Scope<'_, SimpleType>,
        inputs: usize,
        usage: &mut Usage<G>,
    ) -> Result<SimpleType, Fault>
        requires { Ready self.now (replicate inputs Num ++ scope_items context.now) types.old (run_node G.Algebra.nil self.now) }
        ensures { Judges G.Algebra self.now (replicate inputs Num ++ scope_items context.now) (run_node G.Algebra.nil self.now) types.old types.new (judged_into result usage.new) }
    {
        if inputs == 0 {
            let count = context.len();
            return self.judge_term(
                types,
                context,
                count,
                self.rule.program.nodes.len() - 1,
                usage,
            );
        }
        let inner = Scope::Inside(SimpleType::Num, &*context);
        self.judge_run(types, &inner, inputs - 1, usage)
    }

    // The usage of the run term, where it is a number and each input covers its own.
    fn judge_rule(&self, types: &mut TypeTable, usage: &mut Usage<G>) -> Result<(), Fault>
        ensures { usages_of self.now.rule.now.program.inputs (used_into result usage.new) ≡ rule_judged G.Algebra (graded_rule G.Algebra self.now) }
    {
        let program = &self.rule.program;
        types.fill(program);
        let answer = self.judge_run(types, &Scope::Empty, program.inputs, usage)?;
        match answer {
            SimpleType::Num => self.cover_inputs(usage.first(program.inputs)),
            SimpleType::To { .. } => {
                Err(Refusal::AnswerNotNum.at(self.place(program.nodes.len() - 1)))
            }
        }
    }
}

// The usages, and zeros behind them.
fn report<G: Algebra>(work: &mut [G], usages: &[G])
    requires long { length work.old ≡ 2592 }
    requires few { length usages.now ≤ 2592 }
    ensures { work.new ≡ usages.now ++ replicate (2592 - length usages.now) G.Algebra.nil }
{
    let (front, behind) = work.split_at_mut(usages.len());
    front.copy_from_slice(usages);
    behind.fill_with(|| G::zero());
}

// Judges the rule, unless a list is too short, there is no rule, or it is judged already. The verdict is kept, and the
// work list gets the least usages of the inputs, if the rule is accepted, and zeros behind them.
pub fn judge_program<G: Algebra>(
    rule: &ClosedProgram,
    verdict: &mut Option<Verdict>,
    types: &mut TypeTable,
    grades: &[G],
    work: &mut [G],
) -> Result<(), Fault>
    ensures { (result, verdict.new, work.new) ≡ program_judged G.Algebra (tables_of rule.now.program) grades.now verdict.old work.old }
{
    if grades.len() < GRADES || work.len() < WORK {
        return Err(Refusal::ShortList.at(0));
    }
    if rule.program.nodes.is_empty() {
        return Err(Refusal::NoProgram.at(0));
    }
    if verdict.is_some() {
        return Err(Refusal::AlreadyJudged.at(0));
    }
    let graded = GradedRule { rule, grades };
    let mut usage = Usage::none();
    let judged = graded.judge_rule(types, &mut usage);
    let used = usage.first(rule.program.inputs);
    match judged {
        Ok(()) => {
            *verdict = Some(Verdict::Accepted);
            report(&mut work[..WORK], used);
            Ok(())
        }
        Err(fault) => {
            *verdict = Some(Verdict::Refused);
            report(&mut work[..WORK], &[]);
            Err(fault)
        }
    }
}
