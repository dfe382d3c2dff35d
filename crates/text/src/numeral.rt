// Decimal numbers, read from their digits.
ghost use Rattle.std.specs.Prelude.{◌≡◌, ◌-◌, ◌<◌, ◌≤◌, negsuc};
ghost use Rattle.text.specs.Decimals.{decimal_upto, integer_of, signed_integer};

use crate::scan::Class;

// The greatest signed number of 32 bits, and how far below zero the least one is.
const GREATEST: u32 = 2_147_483_647;

const LEAST_NEGATED: u32 = 2_147_483_648;

// The number that the digits write. None where there is no digit or another byte, where a `0` leads, and above the limit.
// Digit by digit up to the first byte that decides: `parse` takes text, and whether bytes are text takes a look at all of them.
pub fn decimal(digits: &[u8], limit: u32) -> Option<u32>
    ensures { result ≡ decimal_upto digits.now limit }
{
    if let [] | [b'0', _, ..] = digits {
        return None;
    }
    let mut number: u64 = 0;
    for b in digits {
        if !Class::Digit.holds(*b) {
            return None;
        }
        number = number * 10 + u64::from(*b - b'0');
        if number > u64::from(limit) {
            return None;
        }
    }
    Some(number as u32)
}

// The number `-n`.
fn negated(n: u32) -> i32
    requires { (0 < n) × (n ≤ 2147483648) }
    ensures { result ≡ negsuc (n - 1) }
{
    (-i64::from(n)) as i32
}

// The signed number of 32 bits that the digits write, behind a `-` or not. None where `decimal` has none, and for `-0`.
pub fn integer(digits: &[u8], negative: bool) -> Option<i32>
    ensures { result ≡ integer_of digits.now negative }
{
    if negative {
        match decimal(digits, LEAST_NEGATED) {
            Some(n) if n > 0 => Some(negated(n)),
            _ => None,
        }
    } else {
        match decimal(digits, GREATEST) {
            Some(n) => Some(n as i32),
            None => None,
        }
    }
}

// The signed number of 32 bits that the text writes: digits, as `decimal` reads them, behind a `-` or not. None for `-0`.
pub fn signed_integer(text: &[u8]) -> Option<i32>
    ensures { result ≡ signed_integer text.now }
{
    match text {
        [b'-', digits @ ..] => integer(digits, true),
        _ => integer(text, false),
    }
}
