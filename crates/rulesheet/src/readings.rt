// A line of readings: numbers in decimal with blanks between.
ghost use Rattle.std.specs.Prelude.{◌≡◌, IfOk, vec_items};
ghost use Rattle.std.specs.Option.{option_map};
ghost use Rattle.rulesheet.specs.Readings.{blank, readings};

use std::alloc::{AllocError, Global};
use text::signed_integer;

// Whether a byte stands between words.
fn is_blank(b: &u8) -> bool
    ensures { result ≡ blank b.now }
{
    matches!(b, b' ' | b'\r')
}

// The numbers of a line, or nothing where one of its words is none.
pub fn readings_of(heap: Global, line: &[u8]) -> Result<Option<Vec<i32>>, AllocError>
    ensures { IfOk result (λ o. option_map vec_items o ≡ readings line.now) }
{
    let mut numbers = Vec::new(heap);
    for word in line.split(is_blank).filter(|word| !word.is_empty()) {
        let Some(number) = signed_integer(word) else {
            return Ok(None);
        };
        numbers.push(number)?;
    }
    Ok(Some(numbers))
}
