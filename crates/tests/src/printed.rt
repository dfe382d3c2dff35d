// The line of the verdict on a text, under each kind of grades.
use grades::{Level, Pair, Span, Written};
use std::alloc::Global;
use std::test::Fail;
use verdicts::listed;

// Checks the line of the verdict on a text, without the line feed at its end.
fn expect_line<G: Written>(heap: Global, text: &str, line: &str) -> Result<(), Fail> {
    let printed = listed::<G>(heap, text.as_bytes())?;
    match std::str::from_utf8(printed.as_slice()) {
        Ok(got) if got.strip_suffix("\n") == Some(line) => Ok(()),
        Ok(got) => Err(Fail::new(format_args!("{got} and not {line}: {text}"))),
        Err(_) => Err(Fail::new(format_args!("no text, and not {line}: {text}"))),
    }
}

#[test]
fn verdict_lines(rt: HostRuntime) -> Result<(), Fail> {
    let table = [
        (
            "input old {1..2}\ninput new {2..2}\nrun less new old new half add old new\n",
            "accepted",
        ),
        // read twice, but declared as read once
        (
            "input old {1..2}\ninput new {1..1}\nrun less new old new half add old new\n",
            "refused 14 at 23",
        ),
        // the upper end is below the lower
        (
            "input old {3..2}\ninput new {2..2}\nrun less new old new half add old new\n",
            "refused 6 at 10",
        ),
        ("", "refused 2 at 0"),
        ("run call 5 6", "refused 12 at 9"),
        ("run fn x num x", "refused 15 at 4"),
    ];
    for (text, line) in table {
        expect_line::<Span>(rt.alloc(), text, line)?;
    }
    expect_line::<Level>(rt.alloc(), "input a {crew} run a", "refused 14 at 6")?;
    expect_line::<Level>(rt.alloc(), "input a {public} run a", "accepted")?;
    expect_line::<Pair<Span, Level>>(rt.alloc(), "input a {2..2|public} run add a a", "accepted")
}
