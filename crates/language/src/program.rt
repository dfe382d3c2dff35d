// What a rule is stored as: binders, types and terms, each in a table of its own, which refer to each other by index.

// A binder: its name is `len` bytes of the text from `place` on, and its grade stands at `grade` in the grade list.
// Place, length and index stand for what they name, since a session keeps neither the text nor the list of grades.
#[derive(Clone, Copy, PartialEq, Eq, Debug)]
pub struct Binder {
    pub place: usize,
    pub len: usize,
    pub grade: usize,
}

// A type: numbers, or functions from `from`, used as the grade at `grade` says, to `to`.
#[derive(Clone, Copy, PartialEq, Eq, Debug)]
pub enum SimpleType {
    Num,
    To {
        grade: usize,
        from: usize,
        to: usize,
    },
}

// A term. A name is the number of open binders that are passed from the innermost outwards.
#[derive(Clone, Copy, PartialEq, Eq, Debug)]
pub enum Term {
    Name(usize),
    Number(i32),
    Fn {
        binder: usize,
        domain: usize,
        body: usize,
    },
    Call {
        function: usize,
        argument: usize,
    },
    Add {
        left: usize,
        right: usize,
    },
    Sub {
        left: usize,
        right: usize,
    },
    Half {
        part: usize,
    },
    Less {
        left: usize,
        right: usize,
        below: usize,
        otherwise: usize,
    },
}

// A term with the place of its first token.
#[derive(Clone, Copy, PartialEq, Eq, Debug)]
pub struct Node {
    pub term: Term,
    pub place: usize,
}
