// What is stored of a rule: binders, and terms behind their parts.
use crate::helpers::grades_of;
use grades::{Algebra, Span};
use language::{Binder, Node, Program, Term, read_program};
use std::alloc::Global;
use std::test::Fail;

// The program of a text, which is not refused.
fn program_of(heap: Global, text: &[u8]) -> Result<Program, Fail> {
    let mut program = Program::new(heap)?;
    let mut grades = grades_of(heap, <Span as Algebra>::zero(), 256)?;
    match read_program::<Span>(text, &mut program, grades.as_mut_slice()) {
        Ok(()) => Ok(program),
        Err(fault) => Err(Fail::new(format_args!("{fault}"))),
    }
}

// The term that is stored at `i`.
fn term_at(program: &Program, i: usize) -> Option<Term> {
    program.nodes.get(i).map(|node| node.term)
}

// A name stands for its innermost open binder, and of the inputs the later one is the innermost.
#[test]
fn innermost_binders(rt: HostRuntime) -> Result<(), Fail> {
    let inputs = program_of(rt.alloc(), b"input b input a run add a b")?;
    assert_eq!(rt; term_at(&inputs, 0), Some(Term::Name(0)));
    assert_eq!(rt; term_at(&inputs, 1), Some(Term::Name(1)));
    let twice = program_of(rt.alloc(), b"input a input a run a")?;
    assert_eq!(rt; term_at(&twice, 0), Some(Term::Name(0)));
    let inner = program_of(rt.alloc(), b"input a input b run call fn a num add a b a")?;
    assert_eq!(rt; term_at(&inner, 0), Some(Term::Name(0)));
    assert_eq!(rt; term_at(&inner, 1), Some(Term::Name(1)));
    // the function's binder is no longer open
    assert_eq!(rt; term_at(&inner, 4), Some(Term::Name(1)));
    Ok(())
}

#[test]
fn parts_in_order(rt: HostRuntime) -> Result<(), Fail> {
    let program = program_of(rt.alloc(), b"run less 1 -2 3 4")?;
    assert_eq!(rt; term_at(&program, 0), Some(Term::Number(1)));
    assert_eq!(rt; term_at(&program, 1), Some(Term::Number(-2)));
    assert_eq!(rt; term_at(&program, 2), Some(Term::Number(3)));
    assert_eq!(rt; term_at(&program, 3), Some(Term::Number(4)));
    let term = Term::Less {
        left: 0,
        right: 1,
        below: 2,
        otherwise: 3,
    };
    assert_eq!(rt;
        program.nodes.get(4).copied(),
        Some(Node { term, place: 4 })
    );
    Ok(())
}

// The inputs come first, then the functions' binders.
#[test]
fn binders(rt: HostRuntime) -> Result<(), Fail> {
    let program = program_of(
        rt.alloc(),
        b"input old input new {2..2} run fn x to {1..1} num num 5",
    )?;
    assert!(rt; program.inputs == 2 && program.grades == 4 && program.words == 5);
    let binders = [
        Binder {
            place: 6,
            len: 3,
            grade: 0,
        },
        Binder {
            place: 16,
            len: 3,
            grade: 1,
        },
        Binder {
            place: 34,
            len: 1,
            grade: 2,
        },
    ];
    assert_eq!(rt; program.binders.as_slice(), binders.as_slice());
    assert_eq!(rt; program.types.len(), 3);
    assert_eq!(rt; program.nodes.len(), 2);
    Ok(())
}

// A refused reading leaves an empty program.
#[test]
fn nothing_of_a_refused_text(rt: HostRuntime) -> Result<(), Fail> {
    let mut program = program_of(rt.alloc(), b"input a run fn b num a")?;
    let mut grades = grades_of(rt.alloc(), <Span as Algebra>::zero(), 256)?;
    let read = read_program::<Span>(b"input a run b", &mut program, grades.as_mut_slice());
    assert!(rt; read.is_err());
    assert!(rt; program.inputs == 0 && program.grades == 0 && program.words == 0);
    assert!(rt; program.binders.is_empty() && program.types.is_empty() && program.nodes.is_empty());
    Ok(())
}
