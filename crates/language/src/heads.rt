// What begins a type, a term or a rule, and what is read of a part.
ghost use Rattle.std.specs.Prelude.{◌≡◌};
ghost use Rattle.language.specs.Reading.{binary};

use crate::program::Term;

// What begins a type. Types, terms and rules have heads of their own, each with the words that may stand there; one head
// for all three would ask of every `match` to refuse the words of the others.
#[derive(Clone, Copy, PartialEq, Eq, Debug)]
pub enum TypeHead {
    Num,
    To,
}

// The words that two terms follow. An enum and no closure: it is what was read, and definitions speak of it.
#[derive(Clone, Copy, PartialEq, Eq, Debug)]
pub enum Binary {
    Call,
    Add,
    Sub,
}

impl Binary {
    // The term with these two parts.
    pub(crate) fn term(self, left: usize, right: usize) -> Term
        ensures { result ≡ binary self left right }
    {
        match self {
            Binary::Call => Term::Call {
                function: left,
                argument: right,
            },
            Binary::Add => Term::Add { left, right },
            Binary::Sub => Term::Sub { left, right },
        }
    }
}

// What begins a term. A name goes by the number of open binders passed.
#[derive(Clone, Copy, PartialEq, Eq, Debug)]
pub enum TermHead {
    Name(usize),
    Number(i32),
    Fn,
    Binary(Binary),
    Half,
    Less,
}

// What begins an input or the run term.
#[derive(Clone, Copy, PartialEq, Eq, Debug)]
pub enum RuleHead {
    Input,
    Run,
}

// What was read of a part, as its index in a table or a term that is not stored yet, and the place after it in the text.
#[derive(Clone, Copy, PartialEq, Eq, Debug)]
pub struct Parsed<T> {
    pub value: T,
    pub next: usize,
}
