//! When each command is refused, and why: the first reason that holds.
ghost use Rattle.std.specs.Prelude.{◌≡◌, ◌<◌, length, IfSome, option_copied, is_none, pos, ◌-ℤ◌};
ghost use Rattle.std.specs.List.{list_any};
ghost use Rattle.tt_world.specs.Sound.{IsCompany};
ghost use Rattle.tt_world.specs.Reasons.{◌⇒◌, ◌or_else◌};
ghost use Rattle.tt_world.specs.declared.effect.Why.TheVariants.{Money};
ghost use Rattle.tt_world.specs.Commands.{is_loan_sum, increase_refusal, decrease_refusal, gift_refusal, is_below, would_pass};
ghost use Rattle.tt_world.specs.Commands.{place_refusal, is_sign_of, rename_sign_refusal, rename_refusal, president_refusal};
ghost use Rattle.tt_world.specs.Commands.{pause_refusal, found_refusal};

use crate::company::Company;
use crate::effect::Why;
use crate::limits::{LOAN_STEP, MOST_GIFT, MOST_MONEY, SIGNS, TILES};
use crate::places::is_taken;
use crate::sign::Sign;

/// Whether a number is a sum of loan.
fn is_loan_sum(number: u32) -> bool
    ensures { result ≡ is_loan_sum number }
{
    number != 0 && number % LOAN_STEP == 0
}

/// IncreaseLoan.
pub(crate) fn increase_loan(number: u32, company: &Company) -> Option<Why>
    requires { IsCompany company.now }
    ensures { result ≡ increase_refusal number company.now }
{
    if !is_loan_sum(number) {
        return Some(Why::Amount);
    }
    if u64::from(company.loan) + u64::from(number) > u64::from(company.most) {
        return Some(Why::Loan);
    }
    if company.money + i64::from(number) > MOST_MONEY {
        return Some(Why::Money);
    }
    None
}

/// DecreaseLoan.
pub(crate) fn decrease_loan(number: u32, company: &Company) -> Option<Why>
    ensures { result ≡ decrease_refusal number company.now }
{
    if !is_loan_sum(number) {
        return Some(Why::Amount);
    }
    if number > company.loan {
        return Some(Why::Loan);
    }
    if i64::from(number) > company.money {
        return Some(Why::Money);
    }
    None
}

/// Give, from a company with a number to another one, where that is live.
pub(crate) fn give(
    from: u8,
    to: u8,
    number: u32,
    receiver: Option<&Company>,
    giver: &Company,
) -> Option<Why>
    requires giver { IsCompany giver.now }
    requires receiver { IfSome (option_copied receiver) IsCompany }
    ensures { result ≡ gift_refusal from to number (option_copied receiver.entry) giver.now }
{
    if number == 0 || number > MOST_GIFT {
        return Some(Why::Amount);
    }
    let Some(receiver) = receiver else {
        return Some(Why::NoCompany);
    };
    if to == from {
        return Some(Why::NoCompany);
    }
    give_money(number, receiver, giver)
}

/// Give, where both are live and the number may be given: the giver's money must be its own, and the receiver's not too
/// much.
fn give_money(number: u32, receiver: &Company, giver: &Company) -> Option<Why>
    requires giver { IsCompany giver.now }
    requires receiver { IsCompany receiver.now }
    ensures { result ≡ (is_below (giver.now.money -ℤ pos giver.now.loan) number ⇒ Money
        or_else would_pass receiver.now.money number ⇒ Money) }
{
    if giver.money - i64::from(giver.loan) < i64::from(number) {
        return Some(Why::Money);
    }
    if receiver.money + i64::from(number) > MOST_MONEY {
        return Some(Why::Money);
    }
    None
}

/// PlaceSign.
pub(crate) fn place_sign(tile: u32, text: &[u8], signs: &[Sign]) -> Option<Why>
    ensures { result ≡ place_refusal tile text.now signs.now }
{
    if tile >= TILES {
        return Some(Why::Tile);
    }
    if text.is_empty() {
        return Some(Why::Text);
    }
    if signs.len() >= SIGNS {
        return Some(Why::Full);
    }
    None
}

/// Whether a sign has this id and this owner.
pub(crate) fn is_sign_of(id: u32, owner: u8, sign: &Sign) -> bool
    ensures { result ≡ is_sign_of id owner sign.now }
{
    u32::from(sign.id) == id && sign.owner == owner
}

/// Whether one of these signs has this id and this owner.
fn has_sign(id: u32, owner: u8, signs: &[Sign]) -> bool
    ensures { result ≡ list_any (is_sign_of id owner) signs.now }
{
    signs.iter().any(|sign| is_sign_of(id, owner, sign))
}

/// RenameSign.
pub(crate) fn rename_sign(id: u32, owner: u8, signs: &[Sign]) -> Option<Why>
    ensures { result ≡ rename_sign_refusal id owner signs.now }
{
    if has_sign(id, owner, signs) {
        None
    } else {
        Some(Why::NoSign)
    }
}

/// RenameCompany.
pub(crate) fn rename_company(n: usize, name: &[u8], companies: &[Option<Company>]) -> Option<Why>
    requires { n < length companies.now }
    ensures { result ≡ rename_refusal n name.now companies.now }
{
    if name.is_empty() {
        return Some(Why::Text);
    }
    if is_taken(name, &companies[..n]) || is_taken(name, &companies[n + 1..]) {
        return Some(Why::Text);
    }
    None
}

/// RenamePresident.
pub(crate) fn rename_president(name: &[u8]) -> Option<Why>
    ensures { result ≡ president_refusal name.now }
{
    if name.is_empty() {
        Some(Why::Text)
    } else {
        None
    }
}

/// Pause.
pub(crate) fn pause(number: u32, paused: bool) -> Option<Why>
    ensures { result ≡ pause_refusal number paused }
{
    if number > 1 {
        return Some(Why::Amount);
    }
    if paused == (number == 1) {
        return Some(Why::Same);
    }
    None
}

/// Whether a company is not live.
fn has_room(companies: &[Option<Company>]) -> bool
    ensures { result ≡ list_any is_none companies.now }
{
    companies.iter().any(|place| place.is_none())
}

/// NewCompany.
pub(crate) fn found(companies: &[Option<Company>]) -> Option<Why>
    ensures { result ≡ found_refusal companies.now }
{
    if has_room(companies) {
        None
    } else {
        Some(Why::Full)
    }
}
