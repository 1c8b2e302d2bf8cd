//! Copies to C.
ghost use Rattle.std.specs.Prelude.{◌≡◌, ◌++◌, drop, length, take, min};

/// Copies as many bytes as there is room for, and answers how many there are.
pub(crate) fn copied(text: &[u8], buffer: &mut [u8]) -> usize
    ensures count { result ≡ length text.now }
    ensures text { let n = min (length text.now) (length buffer.old) in buffer.new ≡ take n text.now ++ drop n buffer.old }
{
    let n = text.len().min(buffer.len());
    buffer[..n].copy_from_slice(&text[..n]);
    text.len()
}
