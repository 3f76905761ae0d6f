//! What each command does to the company that it is for, where it is not refused.
ghost use Rattle.std.specs.Prelude.{◌≡◌, IfSome, option_map};
ghost use Rattle.tt_world.specs.Sound.{IsCompany};
ghost use Rattle.tt_world.specs.Commands.{of_live, increase_refusal, decrease_refusal, increased, decreased, richer, poorer};
ghost use Rattle.tt_world.specs.Commands.{renamed, president_renamed};

use crate::company::Company;
use tt_frame::Name;

/// IncreaseLoan.
pub(crate) fn increase_loan(place: &mut Option<Company>, number: u32)
    requires sound { IfSome place.old IsCompany }
    requires allowed { of_live place.old (increase_refusal number) ≡ None }
    ensures { place.new ≡ option_map (increased number) place.old }
{
    if let Some(company) = place {
        company.money += i64::from(number);
        company.loan += number;
    }
}

/// DecreaseLoan.
pub(crate) fn decrease_loan(place: &mut Option<Company>, number: u32)
    requires sound { IfSome place.old IsCompany }
    requires allowed { of_live place.old (decrease_refusal number) ≡ None }
    ensures { place.new ≡ option_map (decreased number) place.old }
{
    if let Some(company) = place {
        company.money -= i64::from(number);
        company.loan -= number;
    }
}

/// Money that is given.
pub(crate) fn add_money(place: &mut Option<Company>, number: u32)
    requires { IfSome place.old IsCompany }
    ensures { place.new ≡ option_map (richer number) place.old }
{
    if let Some(company) = place {
        company.money += i64::from(number);
    }
}

/// Money that is given away.
pub(crate) fn take_money(place: &mut Option<Company>, number: u32)
    requires { IfSome place.old IsCompany }
    ensures { place.new ≡ option_map (poorer number) place.old }
{
    if let Some(company) = place {
        company.money -= i64::from(number);
    }
}

/// RenameCompany.
pub(crate) fn rename(place: &mut Option<Company>, name: Name)
    ensures { place.new ≡ option_map (renamed name) place.old }
{
    if let Some(company) = place {
        company.name = name;
    }
}

/// RenamePresident.
pub(crate) fn rename_president(place: &mut Option<Company>, name: Name)
    ensures { place.new ≡ option_map (president_renamed name) place.old }
{
    if let Some(company) = place {
        company.president = name;
    }
}
