//! The attempt to connect a client with a server, way by way.
ghost use Rattle.std.specs.Prelude.{◌≡◌};
ghost use Rattle.tt_attempts.specs.Attempts.{HasBegun, from_direct, from_stun, from_turn, failed, agreed, answered, resulted};
ghost use Rattle.tt_attempts.specs.Attempts.{server_gone, stepped};
ghost use Rattle.tt_attempts.specs.declared.attempt.Stage.TheVariants.{Fresh};

use std::marker::Model;

/// The ways that apply.
#[derive(Clone, Copy, Debug, PartialEq, Eq)]
pub struct Ways {
    /// The client tries the address that the server was seen at.
    pub direct: bool,
    /// Both show their addresses to the STUN desk, and try each other's.
    pub stun: bool,
    /// Both connect to a TURN server.
    pub turn: bool,
}

/// What an attempt hears.
#[derive(Clone, Copy, Debug, PartialEq, Eq)]
pub enum Heard {
    /// A peer says that a way failed.
    Failed {
        /// The number of that way: 1 direct, 2 STUN, 3 TURN. Another number changes nothing.
        tracking: u8,
    },
    /// A side says whether it reached the STUN desk.
    StunResult {
        /// Which side: 0 the server, 1 the client. Another number changes nothing.
        side: u8,
        /// Whether it did. Until both sides have, a result that isn't ok fails STUN, also of a side that said ok before.
        ok: bool,
    },
    /// The client is connected, or its connection to the coordinator ended.
    Connected,
    /// The server's connection to the coordinator ended.
    ServerGone,
}

/// What is to be told to the peers.
#[derive(Clone, Copy, Debug, PartialEq, Eq)]
pub enum Told {
    /// Nothing.
    Nothing,
    /// The client, to try the server's address.
    Direct,
    /// Both, to show their addresses to the STUN desk.
    AskStun,
    /// Both, to try the address that the other showed.
    Stun,
    /// Both, to connect to the TURN server.
    Turn,
    /// The client, that the attempt failed.
    AllFailed,
}

/// How far an attempt is. The ways that don't apply are passed over; `Connected` and `ServerGone` lead from each to `Over`.
///
/// ```text
/// Fresh ──first──> TryingDirect ──Failed 1──> AwaitingStun ──a result not ok──────────────> TryingTurn ──Failed 3──> Over
///                                             AwaitingStun ──both ok──> TryingStun ──Failed 2──> TryingTurn
/// ```
#[derive(Clone, Copy, Debug, PartialEq, Eq)]
pub enum Stage {
    /// Nothing was told yet.
    Fresh,
    /// The client tries the server's address.
    TryingDirect,
    /// Both sides were asked to show their addresses; which of them said ok.
    AwaitingStun { server: bool, client: bool },
    /// Both sides try the other's address.
    TryingStun,
    /// Both sides connect to the TURN server.
    TryingTurn,
    /// The attempt has ended.
    Over,
}

/// An attempt to connect a client with a server: `first` is called once, and then `step` for each event.
///
/// It can't be copied, so that no way is told twice. Contracts see the ways that apply, and how far it is.
#[derive(Debug, PartialEq, Eq, Drop)]
pub struct Attempt {
    ways: Ways,
    stage: Stage,
}

impl Model for Attempt {
    ghost use Rattle.tt_attempts.specs.Attempts.{AttemptState};

    ghost Value = { AttemptState };

    ghost view = { λ a. record { ways = a.ways; stage = a.stage } };

    ghost inverse = { λ s. record { ways = s.ways; stage = s.stage } };
}

impl Attempt {
    /// An attempt in which these ways apply, and of which nothing was told yet.
    pub fn new(ways: Ways) -> Attempt
        ensures { result ≡ record { ways = ways; stage = Fresh } }
    {
        Attempt {
            ways,
            stage: Stage::Fresh,
        }
    }

    /// The first way that applies, or the end.
    pub fn first(&mut self) -> Told
        requires fresh { self.old.stage ≡ Fresh }
        ensures told { result ≡ (from_direct self.old.ways).told }
        ensures after { self.new ≡ record { ways = self.old.ways; stage = (from_direct self.old.ways).stage } }
        ensures begun { HasBegun self.new.stage }
    {
        self.direct_or_later()
    }

    /// What is told for an event. `first` was called before.
    pub fn step(&mut self, heard: Heard) -> Told
        requires begun { HasBegun self.old.stage }
        ensures told { result ≡ (stepped self.old.ways self.old.stage heard).told }
        ensures after { self.new ≡ record { ways = self.old.ways; stage = (stepped self.old.ways self.old.stage heard).stage } }
        ensures begun { HasBegun self.new.stage }
    {
        self.hear(heard)
    }

    /// How far it is.
    pub fn stage(&self) -> Stage
        ensures { result ≡ self.now.stage }
    {
        self.stage
    }

    /// What `step` would tell for an event, and how far the attempt would be then. It stays as it is.
    pub fn ahead(&self, heard: Heard) -> (Told, Stage)
        ensures told { result.0 ≡ (stepped self.now.ways self.now.stage heard).told }
        ensures stage { result.1 ≡ (stepped self.now.ways self.now.stage heard).stage }
    {
        let mut next = Attempt {
            ways: self.ways,
            stage: self.stage,
        };
        let told = next.hear(heard);
        (told, next.stage)
    }

    fn direct_or_later(&mut self) -> Told
        ensures told { result ≡ (from_direct self.old.ways).told }
        ensures after { self.new ≡ record { ways = self.old.ways; stage = (from_direct self.old.ways).stage } }
    {
        if self.ways.direct {
            self.tell(Told::Direct, Stage::TryingDirect)
        } else {
            self.ask_stun_or_later()
        }
    }

    fn hear(&mut self, heard: Heard) -> Told
        ensures told { result ≡ (stepped self.old.ways self.old.stage heard).told }
        ensures after { self.new ≡ record { ways = self.old.ways; stage = (stepped self.old.ways self.old.stage heard).stage } }
    {
        match heard {
            Heard::Failed { tracking } => self.fail(tracking),
            Heard::StunResult { side, ok } => self.take_result(side, ok),
            Heard::Connected => self.tell(Told::Nothing, Stage::Over),
            Heard::ServerGone => self.lose_server(),
        }
    }

    /// Tells this, and goes on to this stage.
    fn tell(&mut self, told: Told, stage: Stage) -> Told
        ensures told { result ≡ told }
        ensures after { self.new ≡ record { ways = self.old.ways; stage = stage } }
    {
        self.stage = stage;
        told
    }

    fn turn_or_end(&mut self) -> Told
        ensures told { result ≡ (from_turn self.old.ways).told }
        ensures after { self.new ≡ record { ways = self.old.ways; stage = (from_turn self.old.ways).stage } }
    {
        if self.ways.turn {
            self.tell(Told::Turn, Stage::TryingTurn)
        } else {
            self.tell(Told::AllFailed, Stage::Over)
        }
    }

    fn ask_stun_or_later(&mut self) -> Told
        ensures told { result ≡ (from_stun self.old.ways).told }
        ensures after { self.new ≡ record { ways = self.old.ways; stage = (from_stun self.old.ways).stage } }
    {
        if self.ways.stun {
            let stage = Stage::AwaitingStun {
                server: false,
                client: false,
            };
            self.tell(Told::AskStun, stage)
        } else {
            self.turn_or_end()
        }
    }

    fn fail(&mut self, tracking: u8) -> Told
        ensures told { result ≡ (failed self.old.ways self.old.stage tracking).told }
        ensures after { self.new ≡ record { ways = self.old.ways; stage = (failed self.old.ways self.old.stage tracking).stage } }
    {
        match self.stage {
            Stage::TryingDirect => {
                if tracking == 1 {
                    return self.ask_stun_or_later();
                }
                Told::Nothing
            }
            Stage::TryingStun => {
                if tracking == 2 {
                    return self.turn_or_end();
                }
                Told::Nothing
            }
            Stage::TryingTurn => {
                if tracking == 3 {
                    return self.tell(Told::AllFailed, Stage::Over);
                }
                Told::Nothing
            }
            Stage::Fresh => Told::Nothing,
            Stage::AwaitingStun { .. } => Told::Nothing,
            Stage::Over => Told::Nothing,
        }
    }

    fn take_result(&mut self, side: u8, ok: bool) -> Told
        ensures told { result ≡ (resulted self.old.ways self.old.stage side ok).told }
        ensures after { self.new ≡ record { ways = self.old.ways; stage = (resulted self.old.ways self.old.stage side ok).stage } }
    {
        match self.stage {
            Stage::AwaitingStun { server, client } => self.answer(server, client, side, ok),
            Stage::Fresh => Told::Nothing,
            Stage::TryingDirect => Told::Nothing,
            Stage::TryingStun => Told::Nothing,
            Stage::TryingTurn => Told::Nothing,
            Stage::Over => Told::Nothing,
        }
    }

    /// A side's result, while results are awaited: which of them said ok before is given.
    fn answer(&mut self, server: bool, client: bool, side: u8, ok: bool) -> Told
        ensures told { result ≡ (answered self.old.ways server client side ok).told }
        ensures after { self.new ≡ record { ways = self.old.ways; stage = (answered self.old.ways server client side ok).stage } }
    {
        if ok {
            if side == 0 {
                self.agree(true, client)
            } else if side == 1 {
                self.agree(server, true)
            } else {
                self.tell(Told::Nothing, Stage::AwaitingStun { server, client })
            }
        } else if side < 2 {
            self.turn_or_end()
        } else {
            self.tell(Told::Nothing, Stage::AwaitingStun { server, client })
        }
    }

    /// These sides have said ok.
    fn agree(&mut self, server: bool, client: bool) -> Told
        ensures told { result ≡ (agreed server client).told }
        ensures after { self.new ≡ record { ways = self.old.ways; stage = (agreed server client).stage } }
    {
        if server && client {
            self.tell(Told::Stun, Stage::TryingStun)
        } else {
            self.tell(Told::Nothing, Stage::AwaitingStun { server, client })
        }
    }

    fn lose_server(&mut self) -> Told
        ensures told { result ≡ (server_gone self.old.stage).told }
        ensures after { self.new ≡ record { ways = self.old.ways; stage = (server_gone self.old.stage).stage } }
    {
        match self.stage {
            Stage::Over => Told::Nothing,
            _ => self.tell(Told::AllFailed, Stage::Over),
        }
    }
}
