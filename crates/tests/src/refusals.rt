// Texts that are refused, each at its exact place, and texts next to them that are read.
use crate::helpers::{expect, grades_of, loaded};
use grades::{Algebra, Span};
use session::Session;
use std::test::Fail;
use tokens::Refusal::{
    AlreadyJudged, AnswerNotNum, BadGrade, BadToken, Limit, LongText, NoProgram, NoText, NoToken,
    NotCovered, NotOpen, ShortList, TypesDiffer, Unexpected, WrongType,
};

#[test]
fn short_list(rt: HostRuntime) -> Result<(), Fail> {
    let mut session = Session::new(rt.alloc())?;
    let mut grades = grades_of(rt.alloc(), <Span as Algebra>::zero(), 255)?;
    assert_eq!(rt;
        session.load::<Span>(b"run 5", grades.as_mut_slice()),
        Err(ShortList.at(0))
    );
    Ok(())
}

#[test]
fn bytes_and_words(rt: HostRuntime) -> Result<(), Fail> {
    let table = [
        ("", Err(NoText.at(0))),
        ("!", Err(NoToken.at(0))),
        ("run !", Err(NoToken.at(4))),
        ("run\t5", Err(NoToken.at(3))),
        ("_ run 5", Err(NoToken.at(0))),
        ("run +5", Err(NoToken.at(4))),
        ("run 5 }", Err(NoToken.at(6))),
        ("input caf\u{e9} run 5", Err(NoToken.at(9))),
        ("Run 5", Err(Unexpected.at(0))),
        ("run5", Err(Unexpected.at(0))),
        ("inpu", Err(Unexpected.at(0))),
        ("run ad", Err(NotOpen.at(4))),
        ("run abcdefghijklmnopq", Err(BadToken.at(4))),
        ("input abcdefghijklmnopq run 5", Err(BadToken.at(6))),
        ("input abcdefghijklmnop run abcdefghijklmnop", Ok(())),
        ("input a_1 run a_1", Ok(())),
    ];
    for (text, due) in table {
        expect(rt.alloc(), text, due)?;
    }
    // bytes that are no text
    assert_eq!(rt; loaded::<Span>(rt.alloc(), b"\x80")?, Err(NoToken.at(0)));
    assert_eq!(rt;
        loaded::<Span>(rt.alloc(), b"run \xff")?,
        Err(NoToken.at(4))
    );
    Ok(())
}

// The numbers are part of what is printed.
#[test]
fn numbers_of_refusals(rt: HostRuntime) -> Result<(), Fail> {
    let numbers = [
        (ShortList, 1),
        (NoText, 2),
        (LongText, 3),
        (NoToken, 4),
        (BadToken, 5),
        (BadGrade, 6),
        (Unexpected, 7),
        (NotOpen, 8),
        (Limit, 9),
        (NoProgram, 10),
        (AlreadyJudged, 11),
        (WrongType, 12),
        (TypesDiffer, 13),
        (NotCovered, 14),
        (AnswerNotNum, 15),
    ];
    for (refusal, number) in numbers {
        assert_eq!(rt; refusal.number(), number);
    }
    Ok(())
}

#[test]
fn numbers(rt: HostRuntime) -> Result<(), Fail> {
    let table = [
        ("run 0", Ok(())),
        ("run 00", Err(BadToken.at(4))),
        ("run 01", Err(BadToken.at(4))),
        ("run -0", Err(BadToken.at(4))),
        ("run -01", Err(BadToken.at(4))),
        ("run -", Err(NoToken.at(4))),
        ("run - 5", Err(NoToken.at(4))),
        ("run --5", Err(NoToken.at(4))),
        ("run -a", Err(NoToken.at(4))),
        ("run 2147483647", Ok(())),
        ("run 2147483648", Err(BadToken.at(4))),
        ("run -2147483648", Ok(())),
        ("run -2147483649", Err(BadToken.at(4))),
        ("run 99999999999999999999999999999", Err(BadToken.at(4))),
        ("run-5", Ok(())),
        ("run 5a", Err(Unexpected.at(5))),
        ("run add 5-5", Ok(())),
    ];
    for (text, due) in table {
        expect(rt.alloc(), text, due)?;
    }
    Ok(())
}

#[test]
fn written_grades(rt: HostRuntime) -> Result<(), Fail> {
    let table = [
        ("input a {1..2} run a", Ok(())),
        ("input a{1..1}run a", Ok(())),
        ("input a {0..0} run 5", Ok(())),
        ("input a {0..9999} run a", Ok(())),
        ("input a {9999..*} run a", Ok(())),
        ("input a {3..2} run a", Err(BadGrade.at(8))),
        ("input a {0..10000} run a", Err(BadGrade.at(8))),
        ("input a {10000..*} run a", Err(BadGrade.at(8))),
        ("input a {01..2} run a", Err(BadGrade.at(8))),
        ("input a {*..*} run a", Err(BadGrade.at(8))),
        ("input a {1.2} run a", Err(BadGrade.at(8))),
        ("input a {} run a", Err(BadGrade.at(8))),
        ("input a {1..2 } run a", Err(BadGrade.at(8))),
        ("input a { 1..2} run a", Err(BadGrade.at(8))),
        ("input a {1..2{3..4} run a", Err(BadGrade.at(8))),
        ("input a {1..2", Err(BadGrade.at(8))),
        ("input a {1..", Err(BadGrade.at(8))),
        ("input a {", Err(BadGrade.at(8))),
        ("input a {1..2}} run a", Err(NoToken.at(14))),
        ("input a {crew} run a", Err(BadGrade.at(8))),
    ];
    for (text, due) in table {
        expect(rt.alloc(), text, due)?;
    }
    Ok(())
}

#[test]
fn other_tokens_due(rt: HostRuntime) -> Result<(), Fail> {
    let table = [
        ("5", Err(Unexpected.at(0))),
        ("{1..1} run 5", Err(Unexpected.at(0))),
        ("a run 5", Err(Unexpected.at(0))),
        ("add 1 2", Err(Unexpected.at(0))),
        ("input run", Err(Unexpected.at(6))),
        ("input add run 5", Err(Unexpected.at(6))),
        ("input 5 run 5", Err(Unexpected.at(6))),
        ("input {1..1} run 5", Err(Unexpected.at(6))),
        ("input a{1..1}b run a", Err(Unexpected.at(13))),
        ("input a {1..1} {1..1} run a", Err(Unexpected.at(15))),
        ("run {1..1}", Err(Unexpected.at(4))),
        ("run num", Err(Unexpected.at(4))),
        ("run to", Err(Unexpected.at(4))),
        ("run input", Err(Unexpected.at(4))),
        ("run run", Err(Unexpected.at(4))),
        ("run fn num num 5", Err(Unexpected.at(7))),
        ("run fn b 5 b", Err(Unexpected.at(9))),
        ("input a run fn b a b", Err(Unexpected.at(17))),
        ("run fn a to num num a", Err(Unexpected.at(12))),
        ("run fn a to {1..1} num a", Err(Unexpected.at(23))),
        ("run 5 6", Err(Unexpected.at(6))),
        ("run 5 run", Err(Unexpected.at(6))),
        ("run 5 {1..1}", Err(Unexpected.at(6))),
        ("run add 1 2 b", Err(Unexpected.at(12))),
    ];
    for (text, due) in table {
        expect(rt.alloc(), text, due)?;
    }
    Ok(())
}

#[test]
fn texts_that_end(rt: HostRuntime) -> Result<(), Fail> {
    let table = [
        (" \n\r ", Err(Unexpected.at(4))),
        ("input", Err(Unexpected.at(5))),
        ("input ", Err(Unexpected.at(6))),
        ("input a", Err(Unexpected.at(7))),
        ("input a {1..1}", Err(Unexpected.at(14))),
        ("run", Err(Unexpected.at(3))),
        ("run\n\n", Err(Unexpected.at(5))),
        ("run add 5", Err(Unexpected.at(9))),
        ("run add 5 \n", Err(Unexpected.at(11))),
        ("run less 1 2 3", Err(Unexpected.at(14))),
        ("run half", Err(Unexpected.at(8))),
        ("run call", Err(Unexpected.at(8))),
        ("run fn", Err(Unexpected.at(6))),
        ("run fn a", Err(Unexpected.at(8))),
        ("run fn a {1..1}", Err(Unexpected.at(15))),
        ("run fn a num", Err(Unexpected.at(12))),
        ("run fn a to", Err(Unexpected.at(11))),
        ("run fn a to {1..1} num", Err(Unexpected.at(22))),
        ("run 5 \r\n", Ok(())),
    ];
    for (text, due) in table {
        expect(rt.alloc(), text, due)?;
    }
    Ok(())
}

#[test]
fn names_not_open(rt: HostRuntime) -> Result<(), Fail> {
    let table = [
        ("run a", Err(NotOpen.at(4))),
        ("input a run b", Err(NotOpen.at(12))),
        ("input a run A", Err(NotOpen.at(12))),
        ("run fn a num a", Ok(())),
        ("run call fn a num a a", Err(NotOpen.at(20))),
        ("run fn a num fn b num add a b", Ok(())),
        ("run add fn a num a a", Err(NotOpen.at(19))),
    ];
    for (text, due) in table {
        expect(rt.alloc(), text, due)?;
    }
    Ok(())
}

// The token itself is tested before what it stands for.
#[test]
fn tokens_before_their_use(rt: HostRuntime) -> Result<(), Fail> {
    let table = [
        ("run 5 !", Err(NoToken.at(6))),
        ("run 5 01", Err(BadToken.at(6))),
        ("run 5 {", Err(BadGrade.at(6))),
        ("input a !", Err(NoToken.at(8))),
        ("input a 01", Err(BadToken.at(8))),
        ("input a {3..2} b", Err(BadGrade.at(8))),
        ("! input", Err(NoToken.at(0))),
    ];
    for (text, due) in table {
        expect(rt.alloc(), text, due)?;
    }
    Ok(())
}
