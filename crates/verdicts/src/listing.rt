// The line of the verdict on a rule, `accepted` or the refusal, and the lists that a session is given.
ghost use Rattle.std.specs.Prelude.{◌≡◌, ◌↔◌, replicate, IfOk};
ghost use Rattle.verdicts.specs.Listings.{refusal_line, verdict_line, answer, listing};
ghost use Rattle.verdicts.specs.Marks.{accepted_line, AcceptableText};

use grades::Written;
use judge::rule::{GRADES, WORK};
use session::Session;
use std::alloc::{AllocError, Global};
use tokens::Fault;

// The line of a refusal.
pub fn refusal_printed(heap: Global, fault: Fault) -> Result<Vec<u8>, AllocError>
    ensures { IfOk result (λ v. v.items ≡ refusal_line fault) }
{
    let line = format!(in heap; "{fault}\n")?;
    Ok(line.into_bytes())
}

fn verdict_printed(heap: Global, verdict: Result<(), Fault>) -> Result<Vec<u8>, AllocError>
    ensures { IfOk result (λ v. v.items ≡ verdict_line verdict) }
{
    match verdict {
        Ok(()) => Vec::from_slice(heap, b"accepted\n"),
        Err(fault) => refusal_printed(heap, fault),
    }
}

// So many zeros.
pub fn zeros<G: Written>(heap: Global, count: usize) -> Result<Vec<G>, AllocError>
    ensures { IfOk result (λ v. v.items ≡ replicate count G.Algebra.nil) }
{
    // a loop, since `vec!` clones, and a `Copy` bound does not say that a clone equals its source
    let mut grades = Vec::new(heap);
    for _ in 0..count {
        grades.push(G::zero())?;
    }
    Ok(grades)
}

// Loads the rule that the text is, and judges it.
fn verdict_on<G: Written>(
    text: &[u8],
    session: &mut Session,
    grades: &mut [G],
    work: &mut [G],
) -> Result<(), Fault>
    ensures { result ≡ answer G.Algebra G.reading text.now session.old grades.old work.old }
{
    session.load(text, grades)?;
    session.judge(grades, work)
}

// The line of the verdict on a text: the answer of a session without a rule. By its second clause, that is `accepted`
// exactly when the text is a sentence of the grammar within the limits whose rule is acceptable.
pub fn listed<G: Written>(heap: Global, text: &[u8]) -> Result<Vec<u8>, AllocError>
    ensures prints { IfOk result (λ v. v.items ≡ listing G.Algebra G.reading text.now) }
    ensures accepts { IfOk result (λ v. (v.items ≡ accepted_line) ↔ AcceptableText G.Algebra G.reading text.now) }
{
    let mut session = Session::new(heap)?;
    let mut grades = zeros::<G>(heap, GRADES)?;
    let mut work = zeros::<G>(heap, WORK)?;
    let verdict = verdict_on(text, &mut session, &mut grades, &mut work);
    verdict_printed(heap, verdict)
}
