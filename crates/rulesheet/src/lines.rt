// Lines of bytes.
ghost use Rattle.std.specs.Prelude.{◌≡◌};
ghost use Rattle.rulesheet.specs.Lines.{first_line};

// The bytes before the first end of line, and those after it. Where there is none, all bytes are the line.
pub fn first_line(bytes: &[u8]) -> (&[u8], &[u8])
    ensures { (result.0.now, result.1.now) ≡ first_line bytes.now }
{
    match bytes.iter().position(|b| *b == b'\n') {
        Some(end) => (&bytes[..end], &bytes[end + 1..]),
        None => (bytes, b""),
    }
}
