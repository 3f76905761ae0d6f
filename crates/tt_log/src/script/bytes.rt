//! Bytes of a script: a piece of a stream, or an expected line.
ghost use Rattle.std.specs.Prelude.{◌≡◌};

use std::marker::Model;

/// Bytes that a line of a script holds. Contracts see them as a list.
#[derive(Debug, Drop)]
pub struct Bytes {
    content: Vec<u8>,
}

impl Model for Bytes {
    ghost use Rattle.std.specs.Prelude.{List, ℕ};

    ghost Value = { List ℕ };

    ghost view = { λ bytes. bytes.content.items };
}

impl Bytes {
    /// The bytes of a vector.
    pub fn new(content: Vec<u8>) -> Bytes
        ensures bytes { result ≡ content.items }
    {
        Bytes { content }
    }

    /// Its bytes.
    pub fn bytes(&self) -> &[u8]
        ensures bytes { result.now ≡ self.now }
    {
        &self.content
    }
}
