//! The economy: what companies earn each day, and what they pay each month.
ghost use Rattle.std.specs.Prelude.{◌≡◌, ◌%◌, ◌==◌, [], ◌∷◌, option_map};
ghost use Rattle.tt_world.specs.Economy.{earned, paying, paid, paid_monthly, next_day};

use crate::company::Company;
use crate::limits::MOST_MONEY;
use crate::random::Random;

/// A day's earning is below this.
const EARNING_BELOW: u32 = 1_001;

/// A month's interest is the loan divided by this.
const INTEREST: u32 = 600;

/// How many days a month has.
const MONTH: u32 = 30;

/// Each company in rising order earns a drawn sum.
fn earn(random: &mut Random, companies: &mut [Option<Company>])
    ensures words { random.new ≡ (earned random.old companies.old).0 }
    ensures companies { companies.new ≡ (earned random.old companies.old).1 }
{
    for place in companies.iter_mut() {
        earn_one(random, place);
    }
}

/// What a new day does to the words and the companies: all earn, and on the last day of a month all pay.
pub(crate) fn begin_day(day: u32, random: &mut Random, companies: &mut [Option<Company>])
    ensures words { random.new ≡ (earned random.old companies.old).0 }
    ensures companies { companies.new ≡ paid_monthly (day % 30 == 0) (earned random.old companies.old).1 }
{
    earn(random, companies);
    if day % MONTH == 0 {
        pay(companies);
    }
}

/// One company earns, where it is live.
fn earn_one(random: &mut Random, place: &mut Option<Company>)
    ensures words { random.new ≡ (earned random.old (place.old ∷ [])).0 }
    ensures place { place.new ∷ [] ≡ (earned random.old (place.old ∷ [])).1 }
{
    if let Some(company) = place {
        let sum = random.next_below(EARNING_BELOW);
        company.money = company
            .money
            .saturating_add(i64::from(sum))
            .clamp(-MOST_MONEY, MOST_MONEY);
    }
}

/// Each company pays the interest of a month.
fn pay(companies: &mut [Option<Company>])
    ensures { companies.new ≡ paid companies.old }
{
    for place in companies.iter_mut() {
        pay_one(place);
    }
}

/// One company pays, where it is live.
fn pay_one(place: &mut Option<Company>)
    ensures { place.new ≡ option_map paying place.old }
{
    if let Some(company) = place {
        let interest = i64::from(company.loan / INTEREST);
        company.money = company
            .money
            .saturating_sub(interest)
            .clamp(-MOST_MONEY, MOST_MONEY);
    }
}

/// The day behind a day; the last one that can be told stays.
pub(crate) fn next_day(day: u32) -> u32
    ensures { result ≡ next_day day }
{
    day.saturating_add(1)
}
