// Judging terms: parts from left to right, then the term, each condition as soon as its types or usages are known.
ghost use Rattle.std.specs.Prelude.{◌≡◌, length};
ghost use Rattle.language.specs.declared.program.Term.TheVariants.{Fn, Call, Add, Less};
ghost use Rattle.language.specs.Scopes.{scope_items};
ghost use Rattle.judge.specs.Meaning.{part, node_at};
ghost use Rattle.judge.specs.Progress.{ReadyNode, ReadyTerm, judged_into, used_into, Judges, JudgesNumber, JudgesNumbers};

use crate::graded::GradedRule;
use crate::table::TypeTable;
use crate::usage::Usage;
use grades::Algebra;
use language::{Binder, Scope, SimpleType, Term};
use tokens::{Fault, Refusal};

// The context of a term is the types of the open binders. It stays an argument, since a part has its own. So does the table
// of types: in the struct, as a `&mut`, it would cost each contract a clause on that loan, for one parameter less. `count` is
// the number of open binders: without it each name would walk the whole scope to count them. The usage of a term is written
// over the one that is lent: answered by value, its 32 grades would be copied several times for each term.
impl<G: Algebra> GradedRule<'_, G> {
    // The type of the term number `node`, and its usage.
    #[cycle(judging)]
    pub(crate) fn judge_term(
        &self,
        types: &mut TypeTable,
        context: &Scope<'_, SimpleType>,
        count: usize,
        node: usize,
        usage: &mut Usage<G>,
    ) -> Result<SimpleType, Fault>
        requires count { count ≡ length (scope_items context.now) }
        requires begun { ReadyNode G.Algebra.nil self.now (scope_items context.now) types.old node }
        ensures { Judges G.Algebra self.now (scope_items context.now) (node_at G.Algebra.nil self.now node) types.old types.new (judged_into result usage.new) }
    {
        match self.rule.program.nodes[node].term {
            Term::Name(k) => {
                *usage = Usage::once(count - 1 - k);
                Ok(context.get(k).unwrap())
            }
            Term::Number(_) => {
                *usage = Usage::none();
                Ok(SimpleType::Num)
            }
            Term::Fn {
                binder,
                domain,
                body,
            } => self.judge_fn(types, context, count, binder, domain, body, usage),
            Term::Call { function, argument } => {
                self.judge_call(types, context, count, function, argument, usage)
            }
            Term::Add { left, right } | Term::Sub { left, right } => {
                self.judge_numbers(types, context, count, left, right, usage)?;
                Ok(SimpleType::Num)
            }
            Term::Half { part } => {
                self.judge_number(types, context, count, part, usage)?;
                Ok(SimpleType::Num)
            }
            Term::Less {
                left,
                right,
                below,
                otherwise,
            } => self.judge_less(types, context, count, left, right, below, otherwise, usage),
        }
    }

    // The term number `node`, which has to be a number.
    #[cycle(judging)]
    fn judge_number(
        &self,
        types: &mut TypeTable,
        context: &Scope<'_, SimpleType>,
        count: usize,
        node: usize,
        usage: &mut Usage<G>,
    ) -> Result<(), Fault>
        requires count { count ≡ length (scope_items context.now) }
        requires begun { ReadyNode G.Algebra.nil self.now (scope_items context.now) types.old node }
        ensures { JudgesNumber G.Algebra self.now (scope_items context.now) (node_at G.Algebra.nil self.now node) types.old types.new (used_into result usage.new) }
    {
        match self.judge_term(types, context, count, node, usage)? {
            SimpleType::Num => Ok(()),
            SimpleType::To { .. } => Err(Refusal::WrongType.at(self.place(node))),
        }
    }

    // Two numbers that are both needed.
    #[cycle(judging)]
    fn judge_numbers(
        &self,
        types: &mut TypeTable,
        context: &Scope<'_, SimpleType>,
        count: usize,
        left: usize,
        right: usize,
        usage: &mut Usage<G>,
    ) -> Result<(), Fault>
        requires count { count ≡ length (scope_items context.now) }
        requires begun { ReadyTerm G.Algebra.nil self.now (scope_items context.now) types.old (Add left right) }
        ensures { JudgesNumbers G.Algebra self.now (scope_items context.now) (node_at G.Algebra.nil self.now left) (node_at G.Algebra.nil self.now right) types.old types.new (used_into result usage.new) }
    {
        self.judge_number(types, context, count, left, usage)?;
        // as good as any, since the part writes over it; so below too
        let mut second = *usage;
        self.judge_number(types, context, count, right, &mut second)?;
        usage.add(&second, count);
        Ok(())
    }

    // A function: its body, and then its binder.
    #[cycle(judging)]
    fn judge_fn(
        &self,
        types: &mut TypeTable,
        context: &Scope<'_, SimpleType>,
        count: usize,
        binder: usize,
        domain: usize,
        body: usize,
        usage: &mut Usage<G>,
    ) -> Result<SimpleType, Fault>
        requires count { count ≡ length (scope_items context.now) }
        requires begun { ReadyTerm G.Algebra.nil self.now (scope_items context.now) types.old (Fn binder domain body) }
        ensures { Judges G.Algebra self.now (scope_items context.now) (part G.Algebra.nil self.now (Fn binder domain body)) types.old types.new (judged_into result usage.new) }
    {
        let inner = Scope::Inside(self.rule.program.types[domain], &*context);
        let result = self.judge_term(types, &inner, count + 1, body, usage)?;
        let Binder {
            place,
            len: _,
            grade,
        } = self.rule.program.binders[binder];
        if !self.grade(grade).covers(usage.get(count)) {
            return Err(Refusal::NotCovered.at(place));
        }
        let to = types.add(result);
        Ok(SimpleType::To {
            grade,
            from: domain,
            to,
        })
    }

    // A call: the function, which has to be one, and then the argument, which has to have the type of its domain.
    #[cycle(judging)]
    fn judge_call(
        &self,
        types: &mut TypeTable,
        context: &Scope<'_, SimpleType>,
        count: usize,
        function: usize,
        argument: usize,
        usage: &mut Usage<G>,
    ) -> Result<SimpleType, Fault>
        requires count { count ≡ length (scope_items context.now) }
        requires begun { ReadyTerm G.Algebra.nil self.now (scope_items context.now) types.old (Call function argument) }
        ensures { Judges G.Algebra self.now (scope_items context.now) (part G.Algebra.nil self.now (Call function argument)) types.old types.new (judged_into result usage.new) }
    {
        let called = self.judge_term(types, context, count, function, usage)?;
        let SimpleType::To { grade, from, to } = called else {
            return Err(Refusal::WrongType.at(self.place(function)));
        };
        let mut often = *usage;
        let given = self.judge_term(types, context, count, argument, &mut often)?;
        if !self.same_type(types, given, types.get(from)) {
            return Err(Refusal::TypesDiffer.at(self.place(argument)));
        }
        often.scale(self.grade(grade), count);
        usage.add(&often, count);
        Ok(types.get(to))
    }

    // A comparison: two numbers, and then two parts of one type, of which one will be run.
    #[cycle(judging)]
    fn judge_less(
        &self,
        types: &mut TypeTable,
        context: &Scope<'_, SimpleType>,
        count: usize,
        left: usize,
        right: usize,
        below: usize,
        otherwise: usize,
        usage: &mut Usage<G>,
    ) -> Result<SimpleType, Fault>
        requires count { count ≡ length (scope_items context.now) }
        requires begun { ReadyTerm G.Algebra.nil self.now (scope_items context.now) types.old (Less left right below otherwise) }
        ensures { Judges G.Algebra self.now (scope_items context.now) (part G.Algebra.nil self.now (Less left right below otherwise)) types.old types.new (judged_into result usage.new) }
    {
        self.judge_numbers(types, context, count, left, right, usage)?;
        let mut first = *usage;
        let branch = self.judge_term(types, context, count, below, &mut first)?;
        let mut second = *usage;
        let other = self.judge_term(types, context, count, otherwise, &mut second)?;
        if !self.same_type(types, other, branch) {
            return Err(Refusal::TypesDiffer.at(self.place(otherwise)));
        }
        first.join(&second, count);
        usage.add(&first, count);
        Ok(branch)
    }
}
