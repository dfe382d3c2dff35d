// The text of a span: both ends in decimal, with `*` for no limit, as `2..5` or `0..*`.
ghost use Rattle.std.specs.Prelude.{◌≡◌, ◌≤◌, length, IfSome};
ghost use Rattle.text.specs.Put.{put, room_left};
ghost use Rattle.grades.specs.SpanTexts.{number_at, upper_at, upper_writing, span_reading, span_writing};
ghost use Rattle.grades.specs.SpanWords.{span_text};

use super::{MOST, NO_LIMIT, Span};
use crate::algebra::Written;
use text::{Class, decimal, put_bytes, put_decimal, room_after_decimal, run_end};

// The number that the digits at the front write, up to 9,999, with their count.
fn number_at(bytes: &[u8]) -> Option<(u16, usize)>
    ensures number { result ≡ number_at bytes.now }
    ensures within { IfSome result (λ r. (r.0 ≤ 9999) × (r.1 ≤ length bytes.now)) }
{
    let len = run_end(bytes, 0, Class::Digit);
    let number = decimal(&bytes[..len], u32::from(MOST))?;
    // `as` is proved to lose nothing, and `try_from` would add an error that cannot come.
    Some((number as u16, len))
}

// The upper end at the front, `*` or a number, with the length of its text.
fn upper_at(bytes: &[u8]) -> Option<(u16, usize)>
    ensures upper { result ≡ upper_at bytes.now }
    ensures within { IfSome result (λ r. (r.0 ≤ 10000) × (r.1 ≤ length bytes.now)) }
{
    match bytes {
        [b'*', ..] => Some((NO_LIMIT, 1)),
        _ => number_at(bytes),
    }
}

// What is left of `room` bytes after the upper end.
fn room_after_upper(upper: u16, room: usize) -> Option<usize>
    ensures { result ≡ room_left room (length (upper_writing upper)) }
{
    if upper == NO_LIMIT {
        text::room_after(1, room)
    } else {
        room_after_decimal(u32::from(upper), room)
    }
}

// Writes the upper end into `out` from the place `at` on, and answers the place after it.
fn put_upper(upper: u16, out: &mut [u8], at: usize) -> Option<usize>
    ensures { (result, out.new) ≡ put out.old at (upper_writing upper) }
{
    if upper == NO_LIMIT {
        put_bytes(b"*", out, at)
    } else {
        put_decimal(u32::from(upper), out, at)
    }
}

impl Written for Span {
    ghost reading = { span_reading };

    ghost writing = { span_writing };

    ghost text = { span_text };

    fn read(bytes: &[u8]) -> Option<(Span, usize)> {
        let (lower, len) = number_at(bytes)?;
        let rest = bytes[len..].strip_prefix(b"..")?;
        let (upper, more) = upper_at(rest)?;
        if lower > upper {
            return None;
        }
        Some((Span { lower, upper }, len + (2 + more)))
    }

    fn room_after(self, room: usize) -> Option<usize> {
        let room = room_after_decimal(u32::from(self.lower), room)?;
        let room = text::room_after(2, room)?;
        room_after_upper(self.upper, room)
    }

    fn write(self, out: &mut [u8], at: usize) -> Option<usize> {
        let room = out.len().checked_sub(at)?;
        self.room_after(room)?;
        let at = put_decimal(u32::from(self.lower), out, at)?;
        let at = put_bytes(b"..", out, at)?;
        put_upper(self.upper, out, at)
    }
}
