//! What steps are filled in from.
use tt_world::{Entry, Setup, World};

/// What the steps of an event are filled in from, before the event changes anything. A step needs few of these: what none of
/// the event's steps needs may be anything. By specs/Sources.antt:
///
/// - SYNC needs the frame and the word;
/// - a map that begins needs the frame and the size, and one that goes on `next` and `more`;
/// - entries that are told need the journal;
/// - reports to admins need the world, but for the news of a frame, which need the world before it and its entries; what tells
///   of a company needs the locks.
///
/// So the world behind a tick has to be there only where a map begins or an admin is due: then it is a copy on which the frame
/// was run.
#[derive(Clone, Copy)]
pub struct Sources<'a> {
    /// What the game is made from.
    pub setup: &'a Setup,
    /// The frame behind the event.
    pub frame: u32,
    /// The first random word of the world behind the event.
    pub word: u32,
    /// The world behind the event.
    pub world: &'a World,
    /// How many bytes its map has.
    pub size: u32,
    /// The world before the event.
    pub before: &'a World,
    /// The entries of the frame behind the event.
    pub entries: &'a [Entry],
    /// The journal behind the event.
    pub journal: &'a [Entry],
    /// Of each company, by its number, whether it has a password behind the event.
    pub locked: &'a [bool],
    /// The next bytes of the running download, 5,600 or as many as were left before the event.
    pub next: &'a [u8],
    /// Whether more were left behind them.
    pub more: bool,
}
