//! Which of the fifteen companies live.
ghost use Rattle.std.specs.Prelude.{◌≡◌, ◌<◌, false, length, IfSome, IfNone};
ghost use Rattle.tt_rules.specs.Companies.{nobody, is_living, founded, least_free, living};

use std::marker::Model;
use tt_world::World;

/// How many companies there may be.
const COMPANIES: usize = 15;

/// Which of the fifteen companies live.
///
/// Contracts see it as a list of fifteen truths, by number.
#[derive(Clone, Copy, Debug, PartialEq, Eq)]
pub struct Live {
    places: [bool; COMPANIES],
}

impl Model for Live {
    ghost use Rattle.std.specs.Prelude.{Bool, List};

    ghost Value = { List Bool };

    ghost view = { λ live. live.places };

    ghost inverse = { λ places. record { places = places } };
}

impl Live {
    /// No company lives.
    pub fn none() -> Live
        ensures none { result ≡ nobody }
    {
        Live {
            places: [false; COMPANIES],
        }
    }

    /// Those that live in a world.
    pub fn of(world: &World) -> Live
        ensures living { result ≡ living world.now }
        ensures fifteen { length result ≡ 15 }
    {
        // A world whose signs are read is known to be sound.
        let _signs = world.signs();
        let mut places = [false; COMPANIES];
        for n in 0..COMPANIES {
            places[n] = world.company(n as u8).is_some();
        }
        Live { places }
    }

    /// Whether the company with this number lives.
    pub fn has(&self, n: u8) -> bool
        ensures lives { result ≡ is_living self.now n }
    {
        let n = usize::from(n);
        let places = &self.places;
        n < places.len() && places[n]
    }

    /// The least number that doesn't live becomes live. None exactly where all live, and then nothing has changed.
    pub fn add(&mut self) -> Option<u8>
        ensures number { result ≡ least_free self.old }
        ensures within { IfSome result (λ n. n < 15) }
        ensures live { IfSome result (λ n. self.new ≡ founded n self.old) }
        ensures same { IfNone result (self.new ≡ self.old) }
    {
        let place = least_free(&self.places)?;
        self.places[place] = true;
        Some(place as u8)
    }
}

/// The least place that is free.
fn least_free(places: &[bool; COMPANIES]) -> Option<usize>
    ensures place { result ≡ least_free places.now }
    ensures within { IfSome result (λ n. n < 15) }
{
    places.iter().position(|lives| !*lives)
}
