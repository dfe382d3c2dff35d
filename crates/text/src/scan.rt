// Runs of bytes: where the bytes of a class end.
ghost use Rattle.std.specs.Prelude.{◌≡◌, ◌≤◌, length};
ghost use Rattle.std.specs.List.{prefix_len};
ghost use Rattle.text.specs.Scan.{in_class, run_end};

// Spaces and ends of lines; the digits; letters, digits and `_`; and all but `}`.
// An enum and no closure: definitions name the class, and a closure would have to be tied to them at each call.
#[derive(Clone, Copy, PartialEq, Eq, Debug)]
pub enum Class {
    Blank,
    Digit,
    Wordy,
    Inside,
}

impl Class {
    // Whether the byte `b` is of the class.
    pub fn holds(self, b: u8) -> bool
        ensures { result ≡ in_class self b }
    {
        match self {
            Class::Blank => matches!(b, b' ' | b'\n' | b'\r'),
            Class::Digit => matches!(b, b'0'..=b'9'),
            Class::Wordy => b.is_ascii_alphanumeric() || b == b'_',
            Class::Inside => b != b'}',
        }
    }
}

// How many bytes at the front are of the class.
fn front(bytes: &[u8], class: Class) -> usize
    ensures value { result ≡ prefix_len (in_class class) bytes.now }
    ensures within { result ≤ length bytes.now }
{
    bytes.iter().take_while(|b| class.holds(**b)).count()
}

// The first place at or after `from` whose byte is not of the class, or the end of the text.
// Past the end of the text, it is `from`.
pub fn run_end(text: &[u8], from: usize, class: Class) -> usize
    ensures { result ≡ run_end class text.now from }
{
    from + front(text.get(from..).unwrap_or(&[]), class)
}
