//! What a `set` line says.
use tt_frame::Line;
use tt_world::Setup;

/// One setting of the game, as a `set` line says it. The variants are in the order in which such lines may stand.
#[derive(Debug, Drop)]
pub enum Setting {
    /// `set seed N`: both random words at the start.
    Seed(u32),
    /// `set frame_freq N`: by how many frames the greatest permitted frame runs ahead, 0 to 64.
    FrameFreq(u8),
    /// `set sync_freq N`: each so many frames the random word is told, 1 to 1,000.
    SyncFreq(u16),
    /// `set clients N`: how many clients may be there at once, 1 to 255.
    Clients(u8),
    /// `set init N`: the ticks until a client has to ask to join, at least 1.
    Init(u16),
    /// `set password N`: the ticks for a password, at least 1.
    PassLimit(u16),
    /// `set download N`: the ticks for the map, at least 1.
    Download(u16),
    /// `set join N`: the ticks from the map to the server's frame, at least 1.
    Join(u16),
    /// `set lag N`: how far a client that plays may fall behind, at least 1.
    Lag(u16),
    /// `set cost N`: what the record of events may cost, 64 to 1,073,741,824.
    Cost(u64),
    /// `set pw TEXT`: what a client has to know, at most 32 bytes.
    Pw(Line),
    /// `set admin TEXT`: what an admin has to know, at most 32 bytes.
    Admin(Line),
}

impl Setting {
    ghost use Rattle.std.specs.Prelude.{◌≡◌, ◌≤◌};
    ghost use Rattle.tt_log.specs.Settings.{with_setting, place_of, is_plain};

    /// Puts what it says into a setup.
    pub fn apply(self, setup: &mut Setup)
        ensures setup { setup.new ≡ with_setting setup.old self }
    {
        match self {
            Setting::Seed(n) => setup.seed = n,
            Setting::FrameFreq(n) => setup.frame_freq = n,
            Setting::SyncFreq(n) => setup.sync_freq = n,
            Setting::Clients(n) => setup.max_clients = n,
            Setting::Init(n) => setup.init = n,
            Setting::PassLimit(n) => setup.pass_limit = n,
            Setting::Download(n) => setup.download = n,
            Setting::Join(n) => setup.join = n,
            Setting::Lag(n) => setup.lag = n,
            Setting::Cost(n) => setup.cost = n,
            Setting::Pw(password) => setup.password = password,
            Setting::Admin(password) => setup.admin_password = password,
        }
    }

    /// The place of its key among the keys, from 0 to 11.
    pub fn place(&self) -> u8
        ensures place { result ≡ place_of self.now }
        ensures few { result ≤ 11 }
    {
        match self {
            Setting::Seed(_) => 0,
            Setting::FrameFreq(_) => 1,
            Setting::SyncFreq(_) => 2,
            Setting::Clients(_) => 3,
            Setting::Init(_) => 4,
            Setting::PassLimit(_) => 5,
            Setting::Download(_) => 6,
            Setting::Join(_) => 7,
            Setting::Lag(_) => 8,
            Setting::Cost(_) => 9,
            Setting::Pw(_) => 10,
            Setting::Admin(_) => 11,
        }
    }

    /// Whether it says what stands in the plain setup.
    pub fn is_plain(&self) -> bool
        ensures plain { result ≡ is_plain self.now }
    {
        match self {
            Setting::Seed(n) => *n == 0,
            Setting::FrameFreq(n) => *n == 0,
            Setting::SyncFreq(n) => *n == 100,
            Setting::Clients(n) => *n == 25,
            Setting::Init(n) => *n == 100,
            Setting::PassLimit(n) => *n == 65_535,
            Setting::Download(n) => *n == 1_000,
            Setting::Join(n) => *n == 500,
            Setting::Lag(n) => *n == 500,
            Setting::Cost(n) => *n == 1 << 30,
            Setting::Pw(password) => password.bytes().is_empty(),
            Setting::Admin(password) => password.bytes().is_empty(),
        }
    }
}
