// Each limit at its last allowed and at its first refused value.
use crate::helpers::{expect, tree};
use std::alloc::{AllocError, Global};
use std::test::Fail;
use tokens::Fault;
use tokens::Refusal::{BadGrade, Limit, LongText, NoToken, NotOpen};

#[test]
fn bytes(rt: HostRuntime) -> Result<(), Fail> {
    let most = format!(in rt.alloc(); "{:16384}", "run 5")?;
    assert!(rt; most.len() == 16_384);
    expect(rt.alloc(), most.as_str(), Ok(()))?;
    let more = format!(in rt.alloc(); "{:16385}", "run 5")?;
    assert!(rt; more.len() == 16_385);
    expect(rt.alloc(), more.as_str(), Err(LongText.at(0)))
}

// The inputs are counted before their names are read.
#[test]
fn inputs(rt: HostRuntime) -> Result<(), Fail> {
    let eight = "input a ".repeat(rt.alloc(), 8)?;
    let ninth = eight.len();
    let text = format!(in rt.alloc(); "{eight}run a")?;
    expect(rt.alloc(), text.as_str(), Ok(()))?;
    let text = format!(in rt.alloc(); "{eight}input a run a")?;
    expect(rt.alloc(), text.as_str(), Err(Limit.at(ninth)))?;
    let text = format!(in rt.alloc(); "{eight}input")?;
    expect(rt.alloc(), text.as_str(), Err(Limit.at(ninth)))
}

// Inputs, and functions whose types have 243 grades, before a last term: 248 grades and those of the inputs.
fn many_grades(heap: Global, inputs: usize) -> Result<String, AllocError> {
    let mut text = "input a {1..1} ".repeat(heap, inputs)?;
    text.push_str("run ")?;
    for height in [7usize, 6, 5, 4, 3] {
        let domain = tree(heap, "to {1..1} ", "num ", height)?;
        text.push_str("fn a {1..1} ")?;
        text.push_str(domain.as_str())?;
    }
    Ok(text)
}

// Checks the text with the last term, where the place of a refusal is counted from the last term's own start.
fn expect_last(
    heap: Global,
    inputs: usize,
    last: &str,
    due: Result<(), Fault>,
) -> Result<(), Fail> {
    let mut text = many_grades(heap, inputs)?;
    let start = text.len();
    text.push_str(last)?;
    let due = due.map_err(|fault| fault.refusal.at(start.saturating_add(fault.place)));
    expect(heap, text.as_str(), due)
}

#[test]
fn grades(rt: HostRuntime) -> Result<(), Fail> {
    let heap = rt.alloc();
    expect_last(heap, 8, "5", Ok(()))?;
    expect_last(heap, 7, "fn a {1..1} num 5", Ok(()))?;
    expect_last(heap, 7, "fn a num 5", Ok(()))?;
    // the 257th grade, written
    expect_last(heap, 8, "fn a {1..1} num 5", Err(Limit.at(5)))?;
    expect_last(heap, 7, "fn a to {1..1} num num 5", Err(Limit.at(8)))?;
    expect_last(heap, 8, "fn a {3..2} num 5", Err(BadGrade.at(5)))?;
    // and left out, also where the text ends
    expect_last(heap, 8, "fn a num 5", Err(Limit.at(3)))?;
    expect_last(heap, 8, "fn a", Err(Limit.at(3)))?;
    expect_last(heap, 8, "fn a 5", Err(Limit.at(3)))?;
    expect_last(heap, 8, "fn a !", Err(NoToken.at(5)))
}

// A tree of 511 words behind other words.
fn many_words(heap: Global, words: &str) -> Result<String, AllocError> {
    let sum = tree(heap, "add ", "5 ", 8)?;
    format!(in heap; "run {words}{sum}")
}

// Checks that the last word of the text is refused.
fn expect_last_refused(heap: Global, words: &str) -> Result<(), Fail> {
    let text = many_words(heap, words)?;
    expect(
        heap,
        text.as_str(),
        Err(Limit.at(text.len().saturating_sub(2))),
    )
}

#[test]
fn words(rt: HostRuntime) -> Result<(), Fail> {
    let heap = rt.alloc();
    expect(heap, many_words(heap, "")?.as_str(), Ok(()))?;
    expect(heap, many_words(heap, "half ")?.as_str(), Ok(()))?;
    expect_last_refused(heap, "half half ")?;
    expect_last_refused(heap, "fn a num ")
}

// `times` parts, each inside the one before, between the words before and after them.
fn expect_nested(
    heap: Global,
    before: &str,
    part: &str,
    times: usize,
    after: &str,
    due: Result<(), Fault>,
) -> Result<(), Fail> {
    let parts = part.repeat(heap, times)?;
    let text = format!(in heap; "{before}{parts}{after}")?;
    expect(heap, text.as_str(), due)
}

#[test]
fn depth(rt: HostRuntime) -> Result<(), Fail> {
    let heap = rt.alloc();
    expect_nested(heap, "run ", "half ", 23, "5", Ok(()))?;
    expect_nested(heap, "run ", "half ", 24, "5", Err(Limit.at(124)))?;
    // a name is looked for before the depth is tested
    expect_nested(heap, "run ", "half ", 24, "b", Err(NotOpen.at(124)))?;
    // the first type stands at depth 2
    expect_nested(heap, "run fn a ", "to {1..1} num ", 22, "num 5", Ok(()))?;
    expect_nested(
        heap,
        "run fn a ",
        "to {1..1} num ",
        23,
        "num 5",
        Err(Limit.at(327)),
    )
}
