// What the program prints: a refusal, or the inputs of a rule with their grades.
ghost use Rattle.std.specs.Prelude.{◌≡◌, ◌++◌, take, drop, replicate, IfOk, OnOk, slice_index_or};
ghost use Rattle.session.specs.Sessions.{loaded, no_rule};
ghost use Rattle.rulesheet.specs.Listings.{input_line, read_lines, listing};

use grades::Written;
use language::{Binder, GRADES};
use session::Session;
use std::alloc::{AllocError, Global};
use verdicts::{refusal_printed, zeros};

// At most `len` bytes of the text from the place on, as far as the text goes.
fn part(text: &[u8], place: usize, len: usize) -> &[u8]
    ensures { result.now ≡ take len (drop place text.now) }
{
    let rest = text.get(place..).unwrap_or(b"");
    rest.get(..len).unwrap_or(rest)
}

// The grade at the place `i` of the list, and zero past its end.
fn grade_at<G: Written>(grades: &[G], i: usize) -> G
    ensures { result ≡ slice_index_or grades.now i G.Algebra.nil }
{
    grades.get(i).copied().unwrap_or(G::zero())
}

// The text of a grade.
fn written<G: Written>(heap: Global, grade: G) -> Result<Vec<u8>, AllocError>
    ensures { IfOk result (λ v. v.items ≡ G.Written.writing grade) }
{
    let left = grade.room_after(usize::MAX).ok_or(AllocError)?;
    let mut text = vec![in heap; 0; usize::MAX - left]?;
    let _ = grade.write(&mut text, 0);
    Ok(text)
}

// Adds the line of an input: its name, its grade, and the end of the line.
fn add_line<G: Written>(
    heap: Global,
    out: &mut Vec<u8>,
    text: &[u8],
    binder: Binder,
    grades: &[G],
) -> Result<(), AllocError>
    ensures { OnOk result (out.new.items ≡ out.old.items ++ input_line G.Written.writing G.Algebra.nil text.now grades.now binder) }
{
    let grade = written(heap, grade_at(grades, binder.grade))?;
    out.extend_from_slice(part(text, binder.place, binder.len))?;
    out.extend_from_slice(b" ")?;
    out.extend_from_slice(grade.as_slice())?;
    out.extend_from_slice(b"\n")?;
    Ok(())
}

// The line `read`, and then the line of each input. Text and grade list are the caller's, here as in each call of a session: a
// struct of the two would be made for one call.
fn inputs_printed<G: Written>(
    heap: Global,
    text: &[u8],
    session: &Session,
    grades: &[G],
) -> Result<Vec<u8>, AllocError>
    ensures { IfOk result (λ v. v.items ≡ read_lines G.Written.writing G.Algebra.nil text.now session.now grades.now) }
{
    let mut out = Vec::from_slice(heap, b"read\n")?;
    for binder in session.inputs() {
        add_line(heap, &mut out, text, *binder, grades)?;
    }
    Ok(out)
}

// Loads the rule that the text is, and prints the refusal or the inputs.
fn load_printed<G: Written>(
    heap: Global,
    text: &[u8],
    session: &mut Session,
    grades: &mut [G],
) -> Result<Vec<u8>, AllocError>
    ensures { IfOk result (λ v. v.items ≡ listing G.Written.writing G.Algebra.nil text.now (loaded G.Written.reading G.Algebra.unit G.Algebra.nil text.now session.old grades.old)) }
{
    match session.load(text, grades) {
        Ok(()) => inputs_printed(heap, text, session, grades),
        Err(fault) => refusal_printed(heap, fault),
    }
}

// What the program prints of a text: that of a load into a session without a rule.
pub fn listed<G: Written>(heap: Global, text: &[u8]) -> Result<Vec<u8>, AllocError>
    ensures { IfOk result (λ v. v.items ≡ listing G.Written.writing G.Algebra.nil text.now (loaded G.Written.reading G.Algebra.unit G.Algebra.nil text.now no_rule (replicate 256 G.Algebra.nil))) }
{
    let mut session = Session::new(heap)?;
    let mut grades = zeros::<G>(heap, GRADES)?;
    load_printed(heap, text, &mut session, &mut grades)
}
