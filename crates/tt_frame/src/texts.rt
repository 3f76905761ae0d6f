//! Short texts: what a field of a message, a word of a command line or a line of a console may hold.
//!
//! A text is made by one tested constructor and is never tested again: `Text::new(bytes)`, `Name::new(bytes)`. It takes
//! no memory, and neither does `copy`, which stands in for `Clone`. Of a literal in printable ASCII the check knows that
//! it is a text: `match Name::new(b"tt") { Some(name) => name, None => unreachable!() }` needs no proof.
ghost use Rattle.std.specs.Prelude.{◌≡◌, ℕ, ◌&&◌, ◌≤◌, ◌↔◌, List, length, true, false, IsSome, IfSome, MatchOption};
ghost use Rattle.std.specs.List.{list_all};
ghost use Rattle.std.specs.Str.{is_utf8};
ghost use Rattle.tt_frame.specs.Text.{IsText, is_text, is_shown, is_plain};

use arrayvec::ArrayVec;
use std::marker::Model;

/// A text of at most `N` bytes: valid UTF-8 with no byte below 32.
///
/// Contracts see it as the list of its bytes.
#[derive(Debug, PartialEq, Eq, PartialOrd, Ord, Hash, Drop)]
pub struct Text<const N: usize> {
    content: ArrayVec<u8, N>,
}

impl<const N: usize> Model for Text<N> {
    ghost Value = { List ℕ };

    ghost view = { λ text. text.content.items };

    ghost invariant = { λ text. is_text N text.content.items ≡ true };

    ghost inverse = { λ bytes. record { content = record { items = bytes } } };
}

/// A text of at most 31 bytes.
pub type Short = Text<31>;

/// A text of at most 899 bytes.
pub type Line = Text<899>;

/// Whether no byte is below 32.
fn are_shown(bytes: &[u8]) -> bool
    ensures { result ≡ list_all is_shown bytes.now }
{
    bytes.iter().all(|byte| *byte >= 32)
}

/// Whether the bytes are valid UTF-8.
fn is_utf8_bytes(bytes: &[u8]) -> bool
    ensures { result ≡ is_utf8 bytes.now }
{
    match std::str::from_utf8(bytes) {
        Ok(_) => true,
        Err(_) => false,
    }
}

/// Whether the bytes are a text of any length.
fn are_text_bytes(bytes: &[u8]) -> bool
    ensures { result ≡ list_all is_shown bytes.now && is_utf8 bytes.now }
{
    are_shown(bytes) && is_utf8_bytes(bytes)
}

/// Whether the bytes are a text of at most `max` bytes.
#[tactic(auto, unfolding(crate::specs::Text::is_text))]
pub(crate) fn is_text_bytes(bytes: &[u8], max: usize) -> bool
    ensures { result ≡ is_text max bytes.now }
{
    if bytes.len() > max {
        return false;
    }
    if !are_shown(bytes) {
        return false;
    }
    is_utf8_bytes(bytes)
}

impl<const N: usize> Text<N> {
    /// The bytes as a text, where they are one and have at most `N` bytes.
    pub fn new(bytes: &[u8]) -> Option<Text<N>>
        ensures text { IsSome result ↔ (IsText bytes.now × (length bytes.now ≤ N)) }
        ensures same { IfSome result (λ text. text ≡ bytes.now) }
        // The same as `text`, by the test that definitions branch on.
        ensures test { MatchOption result (is_text N bytes.now ≡ false) (λ _. is_text N bytes.now ≡ true) }
        // A literal of printable ASCII is a text, and a check sees it by itself.
        ensures plain { is_plain bytes.now ≡ true → length bytes.now ≤ N → IsSome result }
    {
        let Ok(content) = ArrayVec::try_from(bytes) else {
            return None;
        };
        if !are_text_bytes(bytes) {
            return None;
        }
        Some(Text { content })
    }

    /// Its bytes.
    pub fn bytes(&self) -> &[u8]
        ensures same { result.now ≡ self.now }
        ensures text { IsText result.now }
        ensures test { is_text N self.now ≡ true }
        ensures length { length result.now ≤ N }
    {
        self.content.as_slice()
    }

    /// The same text once more.
    pub fn copy(&self) -> Text<N>
        ensures { result ≡ self.now }
    {
        Text {
            content: copied(self.content.as_slice()),
        }
    }
}

/// The same bytes once more, for which there is room.
fn copied<const N: usize>(bytes: &[u8]) -> ArrayVec<u8, N>
    requires { length bytes.now ≤ N }
    ensures { result.items ≡ bytes.now }
{
    let mut content = ArrayVec::new();
    for byte in bytes {
        content.push(*byte);
    }
    content
}

/// A text of 1 to 31 bytes.
///
/// Contracts see it as the list of its bytes.
#[derive(Debug, PartialEq, Eq, PartialOrd, Ord, Hash, Drop)]
pub struct Name {
    text: Short,
}

impl Model for Name {
    ghost Value = { List ℕ };

    ghost view = { λ name. name.text };

    ghost invariant = { λ name. 1 ≤ length name.text };

    ghost inverse = { λ bytes. record { text = bytes } };
}

impl Name {
    /// The bytes as a name, where they are a text of 1 to 31 bytes.
    pub fn new(bytes: &[u8]) -> Option<Name>
        ensures name { IsSome result ↔ (IsText bytes.now × (1 ≤ length bytes.now) × (length bytes.now ≤ 31)) }
        ensures same { IfSome result (λ name. name ≡ bytes.now) }
        // The same as `name`, by the test that definitions branch on.
        ensures test { 1 ≤ length bytes.now → MatchOption result (is_text 31 bytes.now ≡ false) (λ _. is_text 31 bytes.now ≡ true) }
        // A literal of printable ASCII is a name, and a check sees it by itself.
        ensures plain { is_plain bytes.now ≡ true → 1 ≤ length bytes.now → length bytes.now ≤ 31 → IsSome result }
    {
        if bytes.is_empty() {
            return None;
        }
        let text = Text::new(bytes)?;
        Some(Name { text })
    }

    /// Its bytes.
    pub fn bytes(&self) -> &[u8]
        ensures same { result.now ≡ self.now }
        ensures text { IsText result.now }
        ensures test { is_text 31 self.now ≡ true }
        ensures length { (1 ≤ length result.now) × (length result.now ≤ 31) }
    {
        let text = &self.text;
        text.bytes()
    }

    /// The same name once more.
    pub fn copy(&self) -> Name
        ensures { result ≡ self.now }
    {
        let text = &self.text;
        Name { text: text.copy() }
    }
}
