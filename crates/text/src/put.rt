// Writing into a buffer: bytes, and numbers in decimal. What does not fit is not written.
// Buffer and place are two parameters, and a `room_after` stands beside each `put`, since a text of several parts is measured
// whole before its first byte is written, and each part goes on at the place that the one before answers.
ghost use Rattle.std.specs.Prelude.{◌≡◌, length, decimal};
ghost use Rattle.text.specs.Put.{put, room_left};

use itoa::Buffer;

// What is left of `room` bytes after `len` of them, or nothing where they do not fit.
pub fn room_after(len: usize, room: usize) -> Option<usize>
    ensures { result ≡ room_left room len }
{
    room.checked_sub(len)
}

// Writes the bytes into `out` from the place `at` on, and answers the place after them.
pub fn put_bytes(bytes: &[u8], out: &mut [u8], at: usize) -> Option<usize>
    ensures { (result, out.new) ≡ put out.old at bytes.now }
{
    let end = at.checked_add(bytes.len())?;
    if end > out.len() {
        return None;
    }
    // by index, since after `get_mut` a proof knows the length alone
    out[at..end].copy_from_slice(bytes);
    Some(end)
}

// What is left of `room` bytes after the number in decimal, or nothing where it does not fit.
pub fn room_after_decimal(n: u32, room: usize) -> Option<usize>
    ensures { result ≡ room_left room (length (decimal n)) }
{
    room_after(Buffer::new().format(n).len(), room)
}

// Writes the number in decimal into `out` from the place `at` on, and answers the place after it.
pub fn put_decimal(n: u32, out: &mut [u8], at: usize) -> Option<usize>
    ensures { (result, out.new) ≡ put out.old at (decimal n) }
{
    put_bytes(Buffer::new().format(n).as_bytes(), out, at)
}
