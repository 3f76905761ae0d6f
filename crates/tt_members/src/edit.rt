//! One change of the members or of the queue of downloads. Each takes no memory.
use crate::marks::Marks;
use tt_rules::Status;
use tt_world::Command;

/// One change of the members or of the queue.
#[derive(Clone, Copy, Debug, PartialEq, Eq)]
pub enum Edit {
    /// A member has these marks from now on.
    Mark {
        conn: u32,
        marks: Marks,
    },
    /// The download of a member begins at this frame.
    Begin {
        conn: u32,
        frame: u32,
    },
    /// Each member's two oldest commands wait no longer: they are stamped.
    Draw,
    /// Those that play are told, at a frame, how far they may run, each with a fresh token where none is open. These are
    /// the random words of the tokens before.
    Permit {
        frame: u32,
        top: u32,
        words: (u32, u32),
    },
    /// A member has another company from now on.
    Move {
        conn: u32,
        company: u8,
    },
    /// So many pieces of its map were told to a member, and it has this status from now on.
    Load {
        conn: u32,
        pieces: u32,
        status: Status,
    },
    /// A connection is a member no longer.
    Leave {
        conn: u32,
    },
    /// A connection waits in the queue no longer.
    Unask {
        conn: u32,
    },
}

/// A command that waits from then on, with the company for which it was allowed.
#[derive(Debug, Drop)]
pub struct Offer {
    /// The connection of the member.
    pub conn: u32,
    /// The company.
    pub company: u8,
    /// The command.
    pub command: Command,
}

/// A frame that is run, and the greatest permitted one behind it.
#[derive(Clone, Copy, Debug, PartialEq, Eq)]
pub struct Beat {
    /// The frame.
    pub frame: u32,
    /// The greatest permitted one.
    pub top: u32,
}
