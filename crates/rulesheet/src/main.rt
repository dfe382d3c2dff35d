// The program: reads a kind of grades, a line of readings and the text of a rule from standard input, and prints the
// refusal, or the inputs of the rule with their grades.
#![tactic(auto)]

mod kind;
mod lines;
mod listing;
mod readings;

use anyhow::{Context, Result};
use grades::{Level, Pair, Span};
use kind::Kind;
use lines::first_line;
use listing::listed;
use readings::readings_of;
use std::io::{Read, Write};
use std::process::ExitCode;

const BAD_READINGS: &str =
    "the second line has to be readings: whole numbers from -2147483648 to 2147483647, with blanks between";

fn run(rt: &HostRuntime) -> Result<()> {
    let heap = rt.alloc();
    let mut input = Vec::new(heap);
    rt.stdin().read_to_end(&mut input)?;
    let (first, rest) = first_line(input.as_slice());
    let (second, text) = first_line(rest);
    let kind = Kind::try_from(first)?;
    let _readings = readings_of(heap, second)?.context(BAD_READINGS)?;
    let out = match kind {
        Kind::Span => listed::<Span>(heap, text)?,
        Kind::Level => listed::<Level>(heap, text)?,
        Kind::SpanAndLevel => listed::<Pair<Span, Level>>(heap, text)?,
    };
    rt.stdout().write_all(out.as_slice())?;
    Ok(())
}

// What goes wrong is one line on standard error, and status 1.
fn main(rt: HostRuntime) -> ExitCode {
    match run(&rt) {
        Ok(()) => ExitCode::SUCCESS,
        Err(e) => {
            let _ = eprintln!(rt; "rulesheet: {e}");
            ExitCode::FAILURE
        }
    }
}
