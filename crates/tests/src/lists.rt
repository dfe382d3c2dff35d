// The grade list and the session after loads.
use crate::helpers::{expect_grade, expect_grades, grades_of};
use grades::{Algebra, Span};
use language::Binder;
use session::Session;
use std::test::Fail;

fn span(lower: u16, upper: Option<u16>) -> Result<Span, Fail> {
    Ok(Span::new(lower, upper).ok_or("no such span")?)
}

// Checks that the places from `from` to the 256th are zero, and that the 257th is as it was.
fn expect_rest(grades: &[Span], from: usize, beyond: Span, rule: &str) -> Result<(), Fail> {
    expect_grades(grades, from, 256, <Span as Algebra>::zero(), rule)?;
    expect_grade(grades, 256, beyond, rule)
}

#[test]
fn grades_of_a_rule(rt: HostRuntime) -> Result<(), Fail> {
    let old = span(9, Some(9))?;
    let mut session = Session::new(rt.alloc())?;
    let mut grades = grades_of(rt.alloc(), old, 257)?;
    let text = "input a {1..2} input b run call fn c {0..*} to {3..3} num num 5 6";
    assert!(rt; session.load(text.as_bytes(), grades.as_mut_slice()).is_ok());
    expect_grade(grades.as_slice(), 0, span(1, Some(2))?, text)?;
    expect_grade(grades.as_slice(), 1, span(1, Some(1))?, text)?;
    expect_grade(grades.as_slice(), 2, span(0, None)?, text)?;
    expect_grade(grades.as_slice(), 3, span(3, Some(3))?, text)?;
    expect_rest(grades.as_slice(), 4, old, text)
}

#[test]
fn zeros_after_a_refusal(rt: HostRuntime) -> Result<(), Fail> {
    let old = span(9, Some(9))?;
    let mut session = Session::new(rt.alloc())?;
    let mut grades = grades_of(rt.alloc(), old, 257)?;
    assert!(rt;
        session
            .load(b"input a {1..2} run a", grades.as_mut_slice())
            .is_ok()
    );
    assert!(rt;
        session
            .load(b"input a {1..2} run b", grades.as_mut_slice())
            .is_err()
    );
    assert_eq!(rt; session.input(0), None);
    expect_rest(grades.as_slice(), 0, old, "input a {1..2} run b")
}

#[test]
fn nothing_changed_by_a_short_list(rt: HostRuntime) -> Result<(), Fail> {
    let old = span(9, Some(9))?;
    let mut session = Session::new(rt.alloc())?;
    let mut grades = grades_of(rt.alloc(), old, 256)?;
    assert!(rt;
        session
            .load(b"input old run old", grades.as_mut_slice())
            .is_ok()
    );
    let mut short = grades_of(rt.alloc(), old, 255)?;
    assert!(rt; session.load(b"run 5", short.as_mut_slice()).is_err());
    expect_grade(short.as_slice(), 0, old, "run 5")?;
    expect_grade(short.as_slice(), 254, old, "run 5")?;
    let binder = Binder {
        place: 6,
        len: 3,
        grade: 0,
    };
    assert_eq!(rt; session.inputs(), [binder].as_slice());
    assert_eq!(rt; session.input(0), Some(binder));
    assert_eq!(rt; session.input(1), None);
    Ok(())
}
