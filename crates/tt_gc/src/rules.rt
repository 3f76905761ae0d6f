//! What a coordinator was made from, and the host of its TURN server as a short text.
ghost use Rattle.std.specs.Prelude.{◌≡◌, ◌≤◌, length};
ghost use Rattle.tt_gc_table.specs.declared.setup.GcSetup.{GcSetup};

use std::marker::Model;
use tt_frame::Text;
use tt_gc_table::GcSetup;

/// A setup whose TURN host has at most 31 bytes.
#[derive(Drop)]
pub(crate) struct Rules {
    setup: GcSetup,
    turn_host: Text<31>,
}

impl Model for Rules {
    ghost use Rattle.std.specs.Prelude.{◌≡◌};
    ghost use Rattle.tt_gc_table.specs.declared.setup.GcSetup.{GcSetup};

    ghost Value = { GcSetup };

    ghost view = { λ r. r.setup };

    ghost invariant = { λ r. r.turn_host ≡ r.setup.turn_host };
}

impl Rules {
    /// A copy of the setup.
    pub(crate) fn new(setup: &GcSetup) -> Rules
        requires { length setup.now.turn_host ≤ 31 }
        ensures { result ≡ setup.now }
    {
        let host = setup.turn_host.bytes();
        let Some(turn_host) = Text::new(host) else {
            unreachable!();
        };
        Rules {
            setup: GcSetup {
                first: setup.first,
                second: setup.second,
                ways: setup.ways,
                turn_host: setup.turn_host.copy(),
                cost: setup.cost,
            },
            turn_host,
        }
    }

    /// The setup.
    pub(crate) fn setup(&self) -> &GcSetup
        ensures { result.now ≡ self.now }
    {
        &self.setup
    }

    /// The host of the TURN server.
    pub(crate) fn turn_host(&self) -> &Text<31>
        ensures { self.now.turn_host ≡ result.now }
    {
        &self.turn_host
    }
}
