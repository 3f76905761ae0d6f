//! How far a client has come, and how it stands.
ghost use Rattle.std.specs.Prelude.{◌≡◌, ◌↔◌, ℕ, List, Some, true, IsTrue};
ghost use Rattle.tt_log.specs.Shown.{end_by, goes_on};
ghost use Rattle.tt_client.specs.Held.{HasEnded, phase_of, place_of};
ghost use Rattle.tt_client.specs.Planned.{IsClear, place_on};

use tt_game::GameMsg;

/// The code by which a client ends where the server is full.
const SERVER_FULL: u8 = 14;

/// The code by which a client ends that may not join.
const KICKED: u8 = 12;

/// How far a client has come in its dialogue.
#[derive(Clone, Copy, Debug, PartialEq, Eq)]
pub enum Stage {
    /// It has asked to join.
    Asking,
    /// It is welcome.
    Greeted,
    /// A map of this frame begins.
    Begun { frame: u32 },
    /// The map of this frame has so many bytes, and comes.
    Fetching { frame: u32, size: u32 },
    /// It has its map.
    InPlay,
    /// It has ended.
    Parted,
}

/// How a client stands by what it was told.
#[derive(Clone, Copy, Debug, PartialEq, Eq)]
pub enum Phase {
    /// It has no map yet.
    Joining,
    /// It has its map, and plays.
    Loaded,
    /// It was ended, with a code.
    Ended { code: u8 },
    /// The game was over.
    Shutdown,
    /// What begins at this byte of its stream is not permitted there.
    Wrong { at: u64 },
}

/// Whether nothing has ended a client.
pub(crate) fn goes_on(phase: Phase) -> bool
    ensures on { result ≡ goes_on (phase_of phase) }
{
    matches!(phase, Phase::Joining | Phase::Loaded)
}

/// Whether a client has its map, and nothing has ended it.
pub(crate) fn is_loaded(phase: Phase) -> bool
    ensures loaded { IsTrue result ↔ (phase ≡ Phase.Loaded) }
{
    matches!(phase, Phase::Loaded)
}

/// How a client ends by a message that tells its end.
pub(crate) fn end_of(msg: &GameMsg) -> Phase
    ensures end { phase_of result ≡ end_by (Some msg.now) }
    ensures over { HasEnded result }
{
    match msg {
        GameMsg::ServerFull => Phase::Ended { code: SERVER_FULL },
        GameMsg::ServerBanned => Phase::Ended { code: KICKED },
        GameMsg::ServerError { code } => Phase::Ended { code: code.get() },
        _ => Phase::Shutdown,
    }
}

/// The stage of a client that plays, or that has played to its end.
pub(crate) fn stage_on(phase: Phase) -> Stage
    ensures stage { (bytes : List ℕ) → place_of result bytes ≡ place_on (goes_on (phase_of phase)) }
    ensures clear { (bytes : List ℕ) → IsClear result bytes }
    ensures loaded { goes_on (phase_of phase) ≡ true → result ≡ Stage.InPlay }
{
    if goes_on(phase) {
        Stage::InPlay
    } else {
        Stage::Parted
    }
}
