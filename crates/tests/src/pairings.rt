// Grades read and written again, one by one and in pairings of pairings.
use crate::helpers::loaded;
use grades::{Algebra, Level, Pair, Span, Written};
use std::alloc::{AllocError, Global};
use std::test::Fail;
use tokens::Refusal::BadGrade;

// Whether the bytes are the text of a grade: read whole, and written again as they are.
fn is_text<G: Written>(heap: Global, bytes: &[u8]) -> Result<bool, AllocError> {
    let Some((grade, len)) = G::read(bytes) else {
        return Ok(false);
    };
    let mut out = vec![in heap; b'#'; bytes.len()]?;
    let end = grade.write(out.as_mut_slice(), 0);
    Ok(
        len == bytes.len()
            && grade.room_after(bytes.len()) == Some(0)
            && end == Some(len)
            && out.as_slice() == bytes,
    )
}

#[test]
fn texts(rt: HostRuntime) -> Result<(), Fail> {
    let heap = rt.alloc();
    assert!(rt; is_text::<Span>(heap, b"0..9999")?);
    assert!(rt; is_text::<Span>(heap, b"9999..*")?);
    assert!(rt; !is_text::<Span>(heap, b"3..2")?);
    assert!(rt; !is_text::<Span>(heap, b"0..10000")?);
    assert!(rt; is_text::<Level>(heap, b"public")?);
    assert!(rt; is_text::<Level>(heap, b"secret")?);
    assert!(rt; !is_text::<Level>(heap, b"crews")?);
    Ok(())
}

#[test]
fn nested_pairings(rt: HostRuntime) -> Result<(), Fail> {
    let heap = rt.alloc();
    assert!(rt; is_text::<Pair<Pair<Span, Level>, Span>>(heap, b"1..2|crew|0..*")?);
    assert!(rt; !is_text::<Pair<Pair<Span, Level>, Span>>(heap, b"1..2|crew")?);
    assert!(rt; !is_text::<Pair<Pair<Span, Level>, Span>>(heap, b"1..2|crew|0..*|")?);
    assert!(rt; is_text::<Pair<Span, Pair<Level, Span>>>(heap, b"1..2|crew|0..*")?);
    assert!(rt; !is_text::<Pair<Span, Pair<Level, Span>>>(heap, b"1..2|0..*|crew")?);
    Ok(())
}

#[test]
fn loads(rt: HostRuntime) -> Result<(), Fail> {
    let heap = rt.alloc();
    let unread = Err(BadGrade.at(8));
    assert_eq!(rt; loaded::<Level>(heap, b"input a {crew} run a")?, Ok(()));
    assert_eq!(rt; loaded::<Level>(heap, b"input a {1..1} run a")?, unread);
    assert_eq!(rt;
        loaded::<Pair<Span, Level>>(heap, b"input a {1..1|public} run a")?,
        Ok(())
    );
    assert_eq!(rt;
        loaded::<Pair<Span, Level>>(heap, b"input a {1..1} run a")?,
        unread
    );
    assert_eq!(rt;
        loaded::<Pair<Pair<Span, Level>, Span>>(heap, b"input a {1..1|public|0..*} run a")?,
        Ok(())
    );
    Ok(())
}
