//! Lines of bytes, and words of a line.
ghost use Rattle.std.specs.Prelude.{◌≡◌, ◌≢◌, ◌<◌, ◌++◌, ◌∷◌, ℕ, List, IfSome, IfNone, MatchOption, length};
ghost use Rattle.tt_lines.specs.Lines.{lines_of, HasNo};

/// What stands before the first line feed, and what stands behind it. A last line need not have one.
pub fn first_line(bytes: &[u8]) -> (&[u8], &[u8])
    requires { 0 < length bytes.now }
    ensures line { lines_of bytes.now ≡ result.0.now ∷ lines_of result.1.now }
    ensures one { HasNo 10 result.0.now }
    ensures shorter { length result.1.now < length bytes.now }
{
    for (i, byte) in bytes.iter().enumerate() {
        if *byte == b'\n' {
            return (&bytes[..i], &bytes[i + 1..]);
        }
    }
    (bytes, &[])
}

/// What stands before the first blank, and what stands behind it. None exactly where there is no blank.
pub fn first_word(text: &[u8]) -> Option<(&[u8], &[u8])>
    ensures word { IfSome result (λ parts. text.now ≡ parts.0.now ++ 32 ∷ parts.1.now) }
    ensures one { IfSome result (λ parts. HasNo 32 parts.0.now) }
    ensures none { IfNone result (HasNo 32 text.now) }
{
    for (i, byte) in text.iter().enumerate() {
        if *byte == b' ' {
            return Some((&text[..i], &text[i + 1..]));
        }
    }
    None
}

/// What stands behind a front of the text. None exactly where it does not begin so.
pub fn behind<'a>(text: &'a [u8], front: &[u8]) -> Option<&'a [u8]>
    ensures cases { MatchOption result ((rest : List ℕ) → text.now ≢ front.now ++ rest) (λ rest. text.now ≡ front.now ++ rest.now) }
{
    text.strip_prefix(front)
}
