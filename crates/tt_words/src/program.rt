//! The programs, and the options of each.
ghost use Rattle.std.specs.Prelude.{◌≡◌, ℕ, List, map};
ghost use Rattle.tt_words.specs.Options.{needs_of, others_of};

/// A program.
#[derive(Clone, Copy, Debug, PartialEq, Eq)]
pub enum Program {
    Server,
    Play,
    Admin,
    Coordinator,
}

/// No options.
static NONE: [&str; 0] = [];

/// What the player needs.
static PLAY_NEEDS: [&str; 1] = ["name"];

/// What the admin's client needs.
static ADMIN_NEEDS: [&str; 1] = ["password"];

/// What the server may be given.
static SERVER_OPTIONS: [&str; 8] = [
    "seed",
    "frame-freq",
    "sync-freq",
    "clients",
    "password",
    "admin-password",
    "cost",
    "map",
];

/// What the player may be given.
static PLAY_OPTIONS: [&str; 3] = ["company", "password", "company-password"];

/// What the admin's client may be given.
static ADMIN_OPTIONS: [&str; 1] = ["name"];

/// What the coordinator may be given.
static COORDINATOR_OPTIONS: [&str; 3] = ["first", "second", "turn"];

/// The options that have to be given.
#[tactic(auto, unfolding(crate::specs::Options::needs_of))]
pub(crate) fn needs_of(program: Program) -> &'static [&'static str]
    ensures { map (λ name. name.now) result.now ≡ needs_of program }
{
    match program {
        Program::Server => NONE.as_slice(),
        Program::Play => PLAY_NEEDS.as_slice(),
        Program::Admin => ADMIN_NEEDS.as_slice(),
        Program::Coordinator => NONE.as_slice(),
    }
}

/// The options that may be given.
#[tactic(auto, unfolding(crate::specs::Options::others_of))]
pub(crate) fn others_of(program: Program) -> &'static [&'static str]
    ensures { map (λ name. name.now) result.now ≡ others_of program }
{
    match program {
        Program::Server => SERVER_OPTIONS.as_slice(),
        Program::Play => PLAY_OPTIONS.as_slice(),
        Program::Admin => ADMIN_OPTIONS.as_slice(),
        Program::Coordinator => COORDINATOR_OPTIONS.as_slice(),
    }
}
