//! Moves of bytes within a framer's buffer and into it.
ghost use Rattle.std.specs.Prelude.{◌≡◌, ℕ, ◌+◌, ◌-◌, ◌<◌, ◌≤◌, ◌++◌, length, take, min, slice_range};

/// Moves the bytes from `start` up to `end` to the front, and answers how many they are. Bytes that are in front already
/// cost nothing, so a stream that comes byte by byte isn't moved again and again.
#[inline(always)]
pub fn move_to_front(buffer: &mut [u8], start: usize, end: usize) -> usize
    requires ordered { start ≤ end }
    requires within { end ≤ length buffer.old }
    ensures count { result ≡ end - start }
    ensures moved { take result buffer.new ≡ slice_range buffer.old start end }
{
    if start == 0 {
        return end;
    }
    buffer.copy_within(start..end, 0);
    end - start
}

/// Writes the first bytes of the piece behind the first `at` bytes, as many as there is room for, and answers how many.
#[inline(always)]
pub fn copy_at(buffer: &mut [u8], at: usize, piece: &[u8]) -> usize
    requires { at ≤ length buffer.old }
    ensures count { result ≡ min (length piece.now) (length buffer.old - at) }
    ensures written { take (at + result) buffer.new ≡ take at buffer.old ++ take result piece.now }
{
    let count = piece.len().min(buffer.len() - at);
    // A stream that comes byte by byte would spend most of its time in calls that copy one byte.
    if count == 1 {
        buffer[at] = piece[0];
        return 1;
    }
    buffer[at..at + count].copy_from_slice(&piece[..count]);
    count
}
