//! How far a member has come, and what becomes of a packet of it.
ghost use Rattle.std.specs.Prelude.{◌≡◌};
ghost use Rattle.tt_rules.specs.Statuses.{rank};

/// The ten statuses of a member, in their order.
#[derive(Clone, Copy, Debug, PartialEq, Eq)]
pub enum Status {
    /// It has said nothing that counts yet.
    Inactive,
    /// It looks for the game's files; no member of these games does.
    NewgrfsCheck,
    /// It was asked for the game's password.
    AuthGame,
    /// It was asked for its company's password.
    AuthCompany,
    /// It is welcome, and has not asked for the map.
    Authorized,
    /// It asked for the map, and another member downloads.
    MapWait,
    /// It is told the map.
    Map,
    /// It was told the whole map, and has not loaded it.
    DoneMap,
    /// It has loaded the map, and catches up.
    PreActive,
    /// It plays.
    Active,
}

impl Status {
    /// Its place in their order, from 0.
    pub fn place(self) -> u8
        ensures place { result ≡ rank self }
    {
        match self {
            Status::Inactive => 0,
            Status::NewgrfsCheck => 1,
            Status::AuthGame => 2,
            Status::AuthCompany => 3,
            Status::Authorized => 4,
            Status::MapWait => 5,
            Status::Map => 6,
            Status::DoneMap => 7,
            Status::PreActive => 8,
            Status::Active => 9,
        }
    }
}

/// What a verdict looks at of a member.
#[derive(Clone, Copy, Debug, PartialEq, Eq)]
pub struct Standing {
    /// How far it has come.
    pub status: Status,
    /// The number of its company; 255 for none.
    pub company: u8,
    /// How many of its commands wait.
    pub waiting: u8,
    /// The last frame that it acknowledged.
    pub acked: u32,
    /// The greatest permitted frame that it was told.
    pub told: u32,
    /// The token that it was told and has not given back: the open one, or 0 where none is open.
    pub token: u8,
}

/// What a message is judged: allowed, or the code that its connection ends with.
#[derive(Clone, Copy, Debug, PartialEq, Eq)]
pub enum Verdict {
    /// It is done.
    Allowed,
    /// The connection ends with this code.
    Ends(u8),
}
