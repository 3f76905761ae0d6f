//! What of a member changes by most rules.
use tt_rules::Status;

/// What of a member changes by most rules: plain numbers.
#[derive(Clone, Copy, Debug, PartialEq, Eq)]
pub struct Marks {
    /// How far it has come.
    pub status: Status,
    /// The frame at which the status began; of MAP and DONE_MAP that at which the download began.
    pub since: u32,
    /// The company that it asked for.
    pub asked: u8,
    /// The company that it has.
    pub company: u8,
    /// The last frame that it acknowledged.
    pub acked: u32,
    /// The greatest permitted frame that it was told.
    pub told: u32,
    /// The open token, which it was told and has not given back; 0 where none is open.
    pub token: u8,
    /// The frame at which it was told; 0 where none is open.
    pub token_frame: u32,
    /// The frame of its map.
    pub map_frame: u32,
    /// How many pieces of it were told.
    pub pieces: u32,
}
