//! The world of a game: what every end of it holds alike at each frame.
ghost use Rattle.std.specs.Prelude.{◌≡◌, ◌<◌, ◌≤◌, ◌^◌, IfOk, IfSome, IsSome, option_copied, vec_capacity};
ghost use Rattle.tt_world.specs.World.{start, company_of, world_of_parts};
ghost use Rattle.tt_world.specs.Sound.{IsCompany, IsSound};
ghost use Rattle.tt_world.specs.Economy.{framed};

use crate::company::Company;
use crate::economy;
use crate::limits::{COMPANIES, PARTS_OF_DAY, SIGNS};
use crate::places::no_companies;
use crate::random::Random;
use crate::setup::Setup;
use crate::sign::Sign;
use std::alloc::Global;
use std::marker::Model;
use tt_frame::OutOfMemory;

/// A world: random words, the day and its part, whether it is paused, companies by number, and signs.
///
/// Contracts see it as a `WorldState`, and every value is sound: `signs` and `every_world_is_sound` say so. `start` and
/// `copy` alone take memory, room for 1,000 signs; `from_parts` is given it. `apply` does a command and `run_frame` runs a
/// frame; both always answer. A game does in each frame first its entries, in order, and then `run_frame`.
#[derive(Debug, Drop)]
pub struct World {
    pub(crate) random: Random,
    pub(crate) day: u32,
    pub(crate) part: u8,
    pub(crate) paused: bool,
    pub(crate) companies: [Option<Company>; COMPANIES],
    pub(crate) signs: Vec<Sign>,
}

impl Model for World {
    ghost use Rattle.std.specs.Prelude.{◌≤◌, vec_capacity};
    ghost use Rattle.tt_world.specs.World.{WorldState};

    ghost Value = { WorldState };

    ghost use Rattle.tt_world.specs.Holding.{held};
    ghost use Rattle.tt_world.specs.Sound.{IsSound};

    ghost view = { held };

    ghost invariant = { λ w. IsSound (held w) × (1000 ≤ vec_capacity w.signs) };
}

impl World {
    /// The world that a game with this setup starts with.
    pub fn start(alloc: Global, setup: &Setup) -> Result<World, OutOfMemory>
        ensures world { IfOk result (λ world. world ≡ start setup.now) }
    {
        let signs = Vec::with_capacity(alloc, SIGNS)?;
        Ok(World {
            random: Random::seeded(setup.seed),
            day: 0,
            part: 0,
            paused: false,
            companies: no_companies(),
            signs,
        })
    }

    /// The world of these parts: the companies stand by their numbers, and `signs` has room for 1,000. Whoever reads a
    /// world has looked at each rule already, so nothing is looked at once more. It takes no memory.
    pub fn from_parts(
        random: Random,
        day: u32,
        part: u8,
        paused: bool,
        companies: [Option<Company>; COMPANIES],
        signs: Vec<Sign>,
    ) -> World
        requires sound { IsSound (world_of_parts random day part paused companies signs.items) }
        requires room { 1000 ≤ vec_capacity signs }
        ensures world { result ≡ world_of_parts random day part paused companies signs.items }
    {
        World {
            random,
            day,
            part,
            paused,
            companies,
            signs,
        }
    }

    /// The same world once more, with room for 1,000 signs. Where memory runs out, nothing was changed.
    pub fn copy(&self, alloc: Global) -> Result<World, OutOfMemory>
        ensures world { IfOk result (λ world. world ≡ self.now) }
    {
        let signs = copy_signs(alloc, self.signs.as_slice())?;
        Ok(World {
            random: self.random,
            day: self.day,
            part: self.part,
            paused: self.paused,
            companies: copy_companies(&self.companies),
            signs,
        })
    }

    /// Runs one frame: a word is drawn, and the part of the day goes on. Behind the last part a new day begins. A world
    /// that is paused stays as it is. It takes no memory.
    pub fn run_frame(&mut self)
        ensures world { self.new ≡ framed self.old }
    {
        if self.paused {
            return;
        }
        self.random.next();
        if self.part + 1 == PARTS_OF_DAY {
            self.part = 0;
            self.day = economy::next_day(self.day);
            economy::begin_day(self.day, &mut self.random, &mut self.companies);
        } else {
            self.part += 1;
        }
    }

    /// The random words.
    pub fn random(&self) -> &Random
        ensures words { result.now ≡ self.now.words }
        ensures below { (self.now.words.0 < 2 ^ 32) × (self.now.words.1 < 2 ^ 32) }
    {
        // Words that are read are known to be below 2 ^ 32.
        let _words = self.random.words();
        &self.random
    }

    /// The day, from 0.
    pub fn day(&self) -> u32
        ensures day { result ≡ self.now.day }
    {
        self.day
    }

    /// The part of the day, from 0 to 73.
    pub fn part(&self) -> u8
        ensures part { result ≡ self.now.part }
        ensures within { result < 74 }
    {
        self.part
    }

    /// Whether the world is paused.
    pub fn paused(&self) -> bool
        ensures paused { result ≡ self.now.paused }
    {
        self.paused
    }

    /// The company with a number, where it is live.
    pub fn company(&self, n: u8) -> Option<&Company>
        ensures company { option_copied result ≡ company_of self.now n }
        ensures sound { IfSome (option_copied result) IsCompany }
        ensures within { IsSome result → n < 15 }
    {
        let n = usize::from(n);
        let companies = &self.companies;
        if n >= companies.len() {
            return None;
        }
        companies[n].as_ref()
    }

    /// The signs, in rising order of id.
    pub fn signs(&self) -> &[Sign]
        ensures signs { result.now ≡ self.now.signs }
        ensures sound { IsSound self.now }
    {
        self.signs.as_slice()
    }
}

/// The same companies once more.
fn copy_companies(companies: &[Option<Company>; COMPANIES]) -> [Option<Company>; COMPANIES]
    ensures { result ≡ companies.now }
{
    let mut copies = no_companies();
    for (i, place) in companies.iter().enumerate() {
        copies[i] = copy_company(place);
    }
    copies
}

/// The same company once more, where there is one.
fn copy_company(place: &Option<Company>) -> Option<Company>
    ensures { result ≡ place.now }
{
    match place {
        None => None,
        Some(company) => Some(company.copy()),
    }
}

/// The same signs once more, with room for 1,000.
fn copy_signs(alloc: Global, signs: &[Sign]) -> Result<Vec<Sign>, OutOfMemory>
    ensures signs { IfOk result (λ copies. copies.items ≡ signs.now) }
    ensures room { IfOk result (λ copies. 1000 ≤ vec_capacity copies) }
{
    let mut copies = Vec::with_capacity(alloc, SIGNS)?;
    for sign in signs {
        copies.push(sign.copy())?;
    }
    Ok(copies)
}
