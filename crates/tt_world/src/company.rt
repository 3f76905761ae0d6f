//! Companies.
ghost use Rattle.std.specs.Prelude.{◌≡◌};

use tt_frame::Name;

/// A company. It is known by its number, which is its place in the world.
#[derive(Debug, PartialEq, Eq, Drop)]
pub struct Company {
    /// What it has, in pounds; below 0 where it owes more than its loan.
    pub money: i64,
    /// What it has borrowed, in steps of 10,000.
    pub loan: u32,
    /// The most that it may have borrowed: a step of 10,000, at most 1,000,000.
    pub most: u32,
    /// Its name, which no other company of the world has.
    pub name: Name,
    /// The name of its president.
    pub president: Name,
}

impl Company {
    /// The same company once more. It takes no memory.
    pub fn copy(&self) -> Company
        ensures company { result ≡ self.now }
    {
        Company {
            money: self.money,
            loan: self.loan,
            most: self.most,
            name: self.name.copy(),
            president: self.president.copy(),
        }
    }
}
