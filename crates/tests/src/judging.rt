// Rules that are judged: accepted with their usages, or refused at a place, and what each judging leaves.
use crate::helpers::{expect, expect_answer, expect_grade, expect_grades, grades_of, tree};
use grades::{Algebra, Level, Pair, Span, Written};
use judge::rule::WORK;
use language::GRADES;
use session::Session;
use std::alloc::{AllocError, Global};
use std::test::Fail;
use tokens::Refusal::{
    AlreadyJudged, AnswerNotNum, Limit, NoProgram, NotCovered, ShortList, TypesDiffer, Unexpected,
    WrongType,
};
use tokens::{Fault, Refusal};

// A function that reads its argument twice, called.
const DOUBLE: &str = "call fn x {2..2} num add x x ";

// Checks that the 2,592 places of a work list are zero from the place `from` on, and that the place behind them is as it was.
fn expect_zeros<G: Algebra>(work: &[G], from: usize, text: &str) -> Result<(), Fail> {
    expect_grades(work, from, WORK, G::zero(), text)?;
    expect_grade(work, WORK, G::one(), text)
}

// Checks that a work list begins with the grades of the usages, which stand in a text with blanks between them.
fn expect_usages<G: Written>(work: &[G], usages: &str, text: &str) -> Result<(), Fail> {
    for (i, usage) in usages.split_whitespace().enumerate() {
        match G::read(usage.as_bytes()) {
            Some((grade, len)) if len == usage.len() => expect_grade(work, i, grade, text)?,
            _ => return Err(Fail::new("no such grade")),
        }
    }
    expect_zeros(work, usages.split_whitespace().count(), text)
}

// The work list after a text is loaded, and judged with the answer that is due. It had one in all its 2,593 places.
fn judged<G: Written>(heap: Global, text: &str, due: Result<(), Fault>) -> Result<Vec<G>, Fail> {
    let mut session = Session::new(heap)?;
    let mut grades = grades_of(heap, G::zero(), GRADES)?;
    let mut work = grades_of(heap, G::one(), WORK + 1)?;
    expect_answer(
        session.load(text.as_bytes(), grades.as_mut_slice()),
        Ok(()),
        text,
    )?;
    expect_answer(
        session.judge(grades.as_slice(), work.as_mut_slice()),
        due,
        text,
    )?;
    Ok(work)
}

// Checks that a rule is accepted, with the least usages of its inputs in order.
fn accepted<G: Written>(heap: Global, text: &str, usages: &str) -> Result<(), Fail> {
    let work = judged::<G>(heap, text, Ok(()))?;
    expect_usages(work.as_slice(), usages, text)
}

// Checks that a rule is refused.
fn refused<G: Written>(heap: Global, text: &str, fault: Fault) -> Result<(), Fail> {
    let work = judged::<G>(heap, text, Err(fault))?;
    expect_zeros(work.as_slice(), 0, text)
}

#[test]
fn accepted_rules(rt: HostRuntime) -> Result<(), Fail> {
    let table = [
        ("run 5", ""),
        ("input a {0..0} run 5", "0..0"),
        ("input a {2..2} run call fn b {2..2} num add b b a", "2..2"),
        ("input a {0..3} run call fn b {0..3} num b a", "0..3"),
        ("input a {3..3} run sub a sub a half a", "3..3"),
        (
            "input a {2..2} input b run call call fn x {2..2} num fn y num add add x x y a b",
            "2..2 1..1",
        ),
        (
            "input a {2..2} run call fn f to {2..2} num num call f a fn x {2..2} num add x x",
            "2..2",
        ),
        (
            "input a {2..2} run call fn f {2..2} to {1..1} num num add call f 1 call f 2 fn x num add x a",
            "2..2",
        ),
        ("run call less 1 2 fn x num x fn y {1..1} num half y 5", ""),
        // shadowed names
        ("input a {0..0} input a {2..2} run add a a", "0..0 2..2"),
        ("input a run call fn a num a a", "1..1"),
        // branches
        ("input a {1..2} run less 1 2 a add a a", "1..2"),
        ("input a {0..1} run less 1 2 a 5", "0..1"),
        (
            "input a {1..*} run add a call fn b {0..9999} num b a",
            "1..*",
        ),
        (
            "input old {1..2}\ninput new {2..2}\nrun less new old new half add old new",
            "1..2 2..2",
        ),
        // eight inputs
        (
            "input a {0..0} input b input c {2..2} input d {3..3} input e {0..0} input f input g {2..2} input h {3..3} run add b add c add c add d add d add d add f add g add g add h add h h",
            "0..0 1..1 2..2 3..3 0..0 1..1 2..2 3..3",
        ),
    ];
    for (text, usages) in table {
        accepted::<Span>(rt.alloc(), text, usages)?;
    }
    Ok(())
}

#[test]
fn usages_not_covered(rt: HostRuntime) -> Result<(), Fail> {
    let table = [
        ("input a {1..1} run 5", 6),
        ("input a {1..1} run call fn b {2..2} num add b b a", 6),
        ("input a {2..2} run call fn b {1..1} num add b b a", 27),
        ("run call fn x num 5 6", 12),
        ("run fn x num 5", 7),
        ("run add fn x num 5 6", 11),
        ("run call fn x num 5 fn y num y", 12),
        ("input a {0..0} input b {0..0} run add b a", 6),
        ("input a {0..0} input a {1..1} run add a a", 21),
        ("input a {2..2} run less 1 2 a add a a", 6),
        ("input a {1..9999} run add a call fn b {0..9999} num b a", 6),
        (
            "input old {1..2}\ninput new {1..1}\nrun less new old new half add old new",
            23,
        ),
    ];
    for (text, place) in table {
        refused::<Span>(rt.alloc(), text, NotCovered.at(place))?;
    }
    Ok(())
}

#[test]
fn other_types_due(rt: HostRuntime) -> Result<(), Fail> {
    let table = [
        ("run call 5 6", WrongType.at(9)),
        ("run add 6 fn x num x", WrongType.at(10)),
        ("run sub fn x num x 5", WrongType.at(8)),
        ("run sub 5 fn x num x", WrongType.at(10)),
        ("run half fn x num x", WrongType.at(9)),
        ("run add fn x num x fn y num 5", WrongType.at(8)),
        ("run call 5 fn x num 5", WrongType.at(9)),
        ("run less fn x num x 1 2 3", WrongType.at(9)),
        ("run less 1 fn x num x fn y num 5 6", WrongType.at(11)),
        (
            "input a {2..2} run call fn f to {2..2} num num call f a fn x {1..2} num add x x",
            TypesDiffer.at(56),
        ),
        ("run call fn x num x fn y num y", TypesDiffer.at(20)),
        (
            "run call less 1 2 fn x num x fn y {1..2} num y 5",
            TypesDiffer.at(29),
        ),
        ("run less 1 2 3 fn x num x", TypesDiffer.at(15)),
        ("run less 1 2 fn x num x 3", TypesDiffer.at(24)),
        ("run fn x num x", AnswerNotNum.at(4)),
        ("input a {0..0} run fn x num add x a", AnswerNotNum.at(19)),
    ];
    for (text, fault) in table {
        refused::<Span>(rt.alloc(), text, fault)?;
    }
    Ok(())
}

// An input that is doubled so many times.
fn doubled(heap: Global, input: &str, times: usize) -> Result<String, AllocError> {
    let calls = DOUBLE.repeat(heap, times)?;
    format!(in heap; "{input} run {calls}a")
}

#[test]
fn saturation(rt: HostRuntime) -> Result<(), Fail> {
    let heap = rt.alloc();
    let below = doubled(heap, "input a {8192..8192}", 13)?;
    accepted::<Span>(heap, below.as_str(), "8192..8192")?;
    let above = doubled(heap, "input a {9999..*}", 14)?;
    accepted::<Span>(heap, above.as_str(), "9999..*")?;
    let limited = doubled(heap, "input a {9999..9999}", 14)?;
    refused::<Span>(heap, limited.as_str(), NotCovered.at(6))
}

#[test]
fn other_algebras(rt: HostRuntime) -> Result<(), Fail> {
    let heap = rt.alloc();
    refused::<Level>(heap, "input a {crew} run a", NotCovered.at(6))?;
    accepted::<Level>(heap, "input a {public} run a", "public")?;
    accepted::<Level>(heap, "input a {crew} run 5", "secret")?;
    accepted::<Level>(heap, "input a {crew} run call fn x {crew} num 5 a", "crew")?;
    accepted::<Level>(heap, "run call fn x num 5 6", "")?;
    refused::<Level>(
        heap,
        "run call fn f to {crew} num num call f 5 fn x num x",
        TypesDiffer.at(41),
    )?;
    accepted::<Pair<Span, Level>>(heap, "input a {2..2|public} run add a a", "2..2|public")?;
    refused::<Pair<Span, Level>>(heap, "input a {1..1|crew} run a", NotCovered.at(6))
}

// A session, with the grade list that its calls are given.
#[derive(Drop)]
struct Fixture {
    heap: Global,
    session: Session,
    grades: Vec<Span>,
}

impl Fixture {
    // A session without a rule, and a list of the grade.
    fn new(heap: Global, grade: Span) -> Result<Fixture, AllocError> {
        let session = Session::new(heap)?;
        let grades = grades_of(heap, grade, 256)?;
        Ok(Fixture {
            heap,
            session,
            grades,
        })
    }

    // Checks what a load comes to.
    fn expect_load(&mut self, text: &str, due: Result<(), Fault>) -> Result<(), Fail> {
        let got = self
            .session
            .load(text.as_bytes(), self.grades.as_mut_slice());
        expect_answer(got, due, text)
    }

    // Checks a judging that is refused, and writes nothing into its work list of so many places.
    fn expect_kept(&mut self, places: usize, refusal: Refusal, text: &str) -> Result<(), Fail> {
        let mut work = grades_of(self.heap, <Span as Algebra>::one(), places)?;
        let got = self
            .session
            .judge(self.grades.as_slice(), work.as_mut_slice());
        expect_answer(got, Err(refusal.at(0)), text)?;
        expect_grades(work.as_slice(), 0, places, <Span as Algebra>::one(), text)
    }

    // Checks a judging of a rule that has no inputs, or is refused.
    fn expect_cleared(&mut self, due: Result<(), Fault>, text: &str) -> Result<(), Fail> {
        let mut work = grades_of(self.heap, <Span as Algebra>::one(), WORK + 1)?;
        let got = self
            .session
            .judge(self.grades.as_slice(), work.as_mut_slice());
        expect_answer(got, due, text)?;
        expect_zeros(work.as_slice(), 0, text)
    }

    // Checks that lists with a place too few are refused, and leave the work list.
    fn expect_short_lists_refused(&mut self, text: &str) -> Result<(), Fail> {
        let short = grades_of(self.heap, <Span as Algebra>::one(), 255)?;
        let mut work = grades_of(self.heap, <Span as Algebra>::one(), 2593)?;
        let got = self.session.judge(short.as_slice(), work.as_mut_slice());
        expect_answer(got, Err(ShortList.at(0)), text)?;
        expect_grades(work.as_slice(), 0, 2593, <Span as Algebra>::one(), text)?;
        self.expect_kept(2591, ShortList, text)
    }

    // Checks a load and two judgings, of which the second is one too many.
    fn expect_judged_once(&mut self, text: &str, due: Result<(), Fault>) -> Result<(), Fail> {
        self.expect_load(text, Ok(()))?;
        self.expect_cleared(due, text)?;
        self.expect_kept(2593, AlreadyJudged, text)
    }
}

// The lists are tested before the program.
#[test]
fn before_a_load(rt: HostRuntime) -> Result<(), Fail> {
    let mut fixture = Fixture::new(rt.alloc(), <Span as Algebra>::one())?;
    fixture.expect_short_lists_refused("")?;
    fixture.expect_kept(2593, NoProgram, "")?;
    fixture.expect_load("run", Err(Unexpected.at(3)))?;
    fixture.expect_kept(2593, NoProgram, "run")
}

// The lists are tested before the verdict, and lists that are just long enough will do.
#[test]
fn shortest_lists(rt: HostRuntime) -> Result<(), Fail> {
    let mut fixture = Fixture::new(rt.alloc(), <Span as Algebra>::one())?;
    fixture.expect_load("run 5", Ok(()))?;
    fixture.expect_short_lists_refused("run 5")?;
    let mut work = grades_of(rt.alloc(), <Span as Algebra>::one(), 2592)?;
    let got = fixture
        .session
        .judge(fixture.grades.as_slice(), work.as_mut_slice());
    expect_answer(got, Ok(()), "run 5")?;
    expect_grades(work.as_slice(), 0, 2592, <Span as Algebra>::zero(), "run 5")?;
    fixture.expect_short_lists_refused("run 5")
}

// A rule is judged once per load, and a load that is refused for its list leaves the verdict.
#[test]
fn judged_once(rt: HostRuntime) -> Result<(), Fail> {
    let heap = rt.alloc();
    let mut fixture = Fixture::new(heap, <Span as Algebra>::zero())?;
    fixture.expect_judged_once("run 5", Ok(()))?;
    fixture.expect_judged_once("run call 5 6", Err(WrongType.at(9)))?;
    let mut short = grades_of(heap, <Span as Algebra>::zero(), 255)?;
    let got = fixture.session.load(b"run 5", short.as_mut_slice());
    expect_answer(got, Err(ShortList.at(0)), "run 5")?;
    fixture.expect_kept(2593, AlreadyJudged, "run call 5 6")?;
    fixture.expect_judged_once("run 5", Ok(()))
}

// Checks the judging of a text after `1..1` is written into a place of the grade list.
fn expect_changed(heap: Global, text: &str, i: usize, due: Result<(), Fault>) -> Result<(), Fail> {
    let mut fixture = Fixture::new(heap, <Span as Algebra>::zero())?;
    fixture.expect_load(text, Ok(()))?;
    *fixture.grades.get_mut(i).ok_or("no such grade")? = <Span as Algebra>::one();
    fixture.expect_cleared(due, text)
}

// The grades are those found in the grade list, whoever wrote them.
#[test]
fn grades_found_in_the_list(rt: HostRuntime) -> Result<(), Fail> {
    let heap = rt.alloc();
    accepted::<Span>(heap, "input a {2..2} run add a a", "2..2")?;
    expect_changed(heap, "input a {2..2} run add a a", 0, Err(NotCovered.at(6)))?;
    let function = "run call fn f to {1..1} num num call f 5 fn x {1..2} num x";
    refused::<Span>(heap, function, TypesDiffer.at(41))?;
    expect_changed(heap, function, 2, Ok(()))
}

// Sums of 128, 64 and 32 names and of one doubled eight times, with other words around the last.
fn large_rule(heap: Global, words: &str) -> Result<String, AllocError> {
    let mut text = String::from_str(heap, "input a {480..480} run ")?;
    for height in [7usize, 6, 5] {
        let sum = tree(heap, "add ", "a ", height)?;
        text.push_str("add ")?;
        text.push_str(sum.as_str())?;
    }
    let calls = DOUBLE.repeat(heap, 8)?;
    let halves = "half ".repeat(heap, 11)?;
    format!(in heap; "{text}{calls}{words}{halves}a")
}

// A rule of 512 words and of depth 24. With a word more, or deeper by one, it is not read.
#[test]
fn largest_rules(rt: HostRuntime) -> Result<(), Fail> {
    let heap = rt.alloc();
    let largest = large_rule(heap, "call fn x num x ")?;
    accepted::<Span>(heap, largest.as_str(), "480..480")?;
    let longer = large_rule(heap, "add add a half a ")?;
    expect(
        heap,
        longer.as_str(),
        Err(Limit.at(longer.len().saturating_sub(1))),
    )?;
    let deeper = large_rule(heap, "half half ")?;
    expect(
        heap,
        deeper.as_str(),
        Err(Limit.at(deeper.len().saturating_sub(1))),
    )
}

// As many binders as can be open at once: 31.
#[test]
fn most_binders(rt: HostRuntime) -> Result<(), Fail> {
    let heap = rt.alloc();
    let inputs = "input a {0..0} ".repeat(heap, 8)?;
    let functions = "fn x {0..0} num ".repeat(heap, 23)?;
    let open = format!(in heap; "{inputs}run {functions}5")?;
    refused::<Span>(heap, open.as_str(), AnswerNotNum.at(124))
}
