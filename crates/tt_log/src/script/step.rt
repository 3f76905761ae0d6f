//! What one line of a script is: a setting, the map that the game starts from, or a line behind these.
use crate::script::bytes::Bytes;
use crate::script::line::Line1;
use crate::script::setting::Setting;

/// One line of a script, settings included.
#[derive(Debug, Drop)]
pub enum Step {
    /// A `set` line that says what the setup holds.
    Set(Setting),
    /// `set map HEX`: the bytes of the map that the game starts from, 65,536 at the most.
    Saved(Bytes),
    /// Any other line.
    Line(Line1),
}
