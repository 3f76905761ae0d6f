//! The limits of a world.

/// How many companies there may be; their numbers are below this.
pub const COMPANIES: usize = 15;

/// How many signs there may be; their ids are below this.
pub const SIGNS: usize = 1_000;

/// How many tiles the map has; their numbers are below this.
pub const TILES: u32 = 1 << 20;

/// How many parts a day has, each of one frame; their numbers are below this.
pub const PARTS_OF_DAY: u8 = 74;

/// The last day on which a game may start. No game that starts by then comes to day 1,000,000,000, the last one that a map
/// tells.
pub const LAST_START_DAY: u32 = 900_000_000;

/// No company has more money than this, in pounds, or owes more.
pub const MOST_MONEY: i64 = 9_000_000_000_000_000;

/// No company's greatest loan is above this, in pounds.
pub const MOST_LOAN: u32 = 1_000_000;

/// The greatest loan of a new company, in pounds.
pub const NEW_COMPANY_MOST: u32 = 300_000;

/// Loans go in steps of this, in pounds.
pub const LOAN_STEP: u32 = 10_000;

/// No company gives more than this at once, in pounds.
pub const MOST_GIFT: u32 = 20_000_000;
