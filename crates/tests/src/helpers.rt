// What the tests share: loading a text, looking at lists of grades, and building long texts.
use grades::{Algebra, Span, Written};
use session::Session;
use std::alloc::{AllocError, Global};
use std::test::Fail;
use tokens::Fault;

// A list of grades, all the same.
pub fn grades_of<G: Algebra>(heap: Global, grade: G, count: usize) -> Result<Vec<G>, AllocError> {
    Ok(vec![in heap; grade; count]?)
}

// Checks that the grade stands at the place `i` of a list. A failure names the rule.
pub fn expect_grade<G: Algebra>(grades: &[G], i: usize, grade: G, rule: &str) -> Result<(), Fail> {
    match grades.get(i) {
        Some(found) if found.same(grade) => Ok(()),
        _ => Err(Fail::new(format_args!("another grade at {i}, or none: {rule}"))),
    }
}

// Checks that the grade stands at all places of a list from `from` on, up to the place `to`.
pub fn expect_grades<G: Algebra>(
    grades: &[G],
    from: usize,
    to: usize,
    grade: G,
    rule: &str,
) -> Result<(), Fail> {
    match grades.get(from..to) {
        Some(part) if part.iter().all(|found| found.same(grade)) => Ok(()),
        _ => Err(Fail::new(format_args!("another grade from {from} to {to}, or none: {rule}"))),
    }
}

// Checks what a call answers. A failure names the text.
pub fn expect_answer(
    got: Result<(), Fault>,
    due: Result<(), Fault>,
    text: &str,
) -> Result<(), Fail> {
    if got == due {
        return Ok(());
    }
    Err(Fail::new(format_args!("{got:?} and not {due:?}: {text}")))
}

// What loading a text comes to.
pub fn loaded<G: Written>(heap: Global, text: &[u8]) -> Result<Result<(), Fault>, AllocError> {
    let mut session = Session::new(heap)?;
    let mut grades = grades_of(heap, G::zero(), 256)?;
    Ok(session.load(text, grades.as_mut_slice()))
}

// Checks what loading a text of spans comes to.
pub fn expect(heap: Global, text: &str, due: Result<(), Fault>) -> Result<(), Fail> {
    expect_answer(loaded::<Span>(heap, text.as_bytes())?, due, text)
}

// A tree of the height, whose forks are two trees behind the text of a fork.
pub fn tree(heap: Global, fork: &str, leaf: &str, height: usize) -> Result<String, AllocError> {
    let mut tree = String::from_str(heap, leaf)?;
    for _ in 0..height {
        tree = format!(in heap; "{fork}{tree}{tree}")?;
    }
    Ok(tree)
}
