// Tokens: parts of the rule's text with their places.
ghost use Rattle.std.specs.Prelude.{◌≡◌, ◌<◌, ◌≤◌, length};
ghost use Rattle.tokens.specs.Tokens.{token_at, word_at, signed_at, grade_at, seen};

use crate::refusal::{Fault, Refusal};
use grades::Written;
use text::{Class, run_end, signed_integer};

// The longest word.
const LONGEST_WORD: usize = 16;

// A token is a part of the text: a word, a number or a grade with its value, or the end of the text.
#[derive(Clone, Copy, PartialEq, Eq, Debug)]
pub enum Token<'a, G> {
    Word(&'a [u8]),
    Number(&'a [u8], i32),
    Grade(&'a [u8], G),
    End,
}

// A token, its place, which is the count of bytes before it, and the place after it.
#[derive(Clone, Copy, PartialEq, Eq, Debug)]
pub struct Placed<'a, G> {
    pub token: Token<'a, G>,
    pub place: usize,
    pub next: usize,
}

// The first token at or after the place `from`, past any blanks.
pub fn token_at<G: Written>(text: &[u8], from: usize) -> Result<Placed<'_, G>, Fault>
    ensures { seen result ≡ token_at G.reading text.now from }
{
    let place = run_end(text, from, Class::Blank);
    let Some(first) = text.get(place) else {
        return Ok(Placed {
            token: Token::End,
            place,
            next: place,
        });
    };
    match char::from(*first) {
        'a'..='z' | 'A'..='Z' => word_at(text, place),
        '0'..='9' | '-' => number_at(text, place),
        '{' => grade_at(text, place),
        _ => Err(Refusal::NoToken.at(place)),
    }
}

// A word: the longest run of letters, digits and `_`.
fn word_at<G: Written>(text: &[u8], place: usize) -> Result<Placed<'_, G>, Fault>
    requires { place ≤ length text.now }
    ensures { seen result ≡ word_at G.reading text.now place }
{
    let next = run_end(text, place, Class::Wordy);
    if next - place > LONGEST_WORD {
        return Err(Refusal::BadToken.at(place));
    }
    Ok(Placed {
        token: Token::Word(&text[place..next]),
        place,
        next,
    })
}

// A number, with a `-` or without. A `-` alone is no token.
fn number_at<G: Written>(text: &[u8], place: usize) -> Result<Placed<'_, G>, Fault>
    requires { place < length text.now }
    ensures { seen result ≡ signed_at G.reading text.now place }
{
    let digits = place + usize::from(text[place] == b'-');
    let next = run_end(text, digits, Class::Digit);
    let number = &text[place..next];
    if number == b"-".as_slice() {
        return Err(Refusal::NoToken.at(place));
    }
    let n = signed_integer(number).ok_or(Refusal::BadToken.at(place))?;
    Ok(Placed {
        token: Token::Number(number, n),
        place,
        next,
    })
}

// A grade: `{`, which stands at `place`, its writing, and `}`.
fn grade_at<G: Written>(text: &[u8], place: usize) -> Result<Placed<'_, G>, Fault>
    requires { place < length text.now }
    ensures { seen result ≡ grade_at G.reading text.now place }
{
    let close = run_end(text, place + 1, Class::Inside);
    if close >= text.len() {
        return Err(Refusal::BadGrade.at(place));
    }
    let inside = &text[place + 1..close];
    // `let .. else`, a form that docs/DECISIONS.md fixes for this place
    let Some((g, n)) = G::read(inside) else {
        return Err(Refusal::BadGrade.at(place));
    };
    if n != inside.len() {
        return Err(Refusal::BadGrade.at(place));
    }
    Ok(Placed {
        token: Token::Grade(&text[place..close + 1], g),
        place,
        next: close + 1,
    })
}
