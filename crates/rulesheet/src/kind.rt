// The kinds of grades that the program knows by name.
ghost use Rattle.rulesheet.specs.Kinds.{Names};

use std::error::Error;
use std::fmt;

// An enum, and a `match` on it in `run`, since a closure cannot stand for a type argument.
#[derive(Clone, Copy, Debug, PartialEq, Eq)]
pub enum Kind {
    Span,
    Level,
    SpanAndLevel,
}

// A line that names no kind.
#[derive(Clone, Copy, Debug, PartialEq, Eq)]
pub struct UnknownKind;

impl TryFrom<&[u8]> for Kind {
    type Error = UnknownKind;

    ghost try_from_gives = { λ line r. Names line.now r };

    fn try_from(line: &[u8]) -> Result<Kind, UnknownKind> {
        match line {
            b"span" => Ok(Kind::Span),
            b"level" => Ok(Kind::Level),
            b"span|level" => Ok(Kind::SpanAndLevel),
            _ => Err(UnknownKind),
        }
    }
}

impl fmt::Display for UnknownKind {
    fn fmt<W: fmt::Write>(&self, f: &mut fmt::Formatter<W>) -> fmt::Result {
        f.write_str("the first line has to be the kind of the grades: span, level or span|level")
    }
}

impl Error for UnknownKind {}
