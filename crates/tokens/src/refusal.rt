// Why a call refuses, with the number of each reason.
ghost use Rattle.std.specs.Prelude.{◌≡◌, Some};
ghost use Rattle.tokens.specs.Refusals.{number_of, fault_text};
ghost use Rattle.tokens.specs.Tokens.{fault};

use std::error::Error;
use std::fmt;

// What was wrong. The numbers are part of every answer, so they never change.
#[derive(Clone, Copy, PartialEq, Eq, Debug)]
pub enum Refusal {
    // a list of grades is too short
    ShortList = 1,
    // the text has no byte
    NoText = 2,
    // the text is too long
    LongText = 3,
    // a byte starts no token
    NoToken = 4,
    // a word is too long, or a number is badly written or too large
    BadToken = 5,
    // a grade is not closed or not read whole
    BadGrade = 6,
    // another token is due, or the text ends or goes on
    Unexpected = 7,
    // a name is not open
    NotOpen = 8,
    // a limit is passed
    Limit = 9,
    // the session has no program
    NoProgram = 10,
    // the rule is judged already
    AlreadyJudged = 11,
    // a term is not `num`, or not `to`, where it has to be
    WrongType = 12,
    // the type of an argument, or of the fourth part of `less`, differs from the one due
    TypesDiffer = 13,
    // a declared grade does not cover the usage of its name
    NotCovered = 14,
    // the answer of the rule is not `num`
    AnswerNotNum = 15,
}

impl Refusal {
    // The number of the refusal.
    pub fn number(self) -> u8
        ensures { result ≡ number_of self }
    {
        // An enum has no `From` or `TryFrom` to its numbers, and `as` is proved to lose nothing.
        self as u8
    }

    // This refusal, at a place of the text.
    pub fn at(self, place: usize) -> Fault
        ensures { result ≡ fault self place }
    {
        Fault {
            refusal: self,
            place,
        }
    }
}

// A refusal with its place, the count of bytes before what was wrong.
#[derive(Clone, Copy, PartialEq, Eq, Debug)]
pub struct Fault {
    pub refusal: Refusal,
    pub place: usize,
}

// Prints `refused N at P`.
impl fmt::Display for Fault {
    ghost output = { λ f. Some (fault_text f) };

    fn fmt<W: fmt::Write>(&self, f: &mut fmt::Formatter<W>) -> fmt::Result {
        write!(f, "refused {} at {}", self.refusal.number(), self.place)
    }
}

impl Error for Fault {}
