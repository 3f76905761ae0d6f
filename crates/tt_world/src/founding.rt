//! What a new company gets: its number, its name, and a loan.
ghost use Rattle.std.specs.Prelude.{◌≡◌, ◌≤◌, ◌<◌, true, is_none, length};
ghost use Rattle.std.specs.List.{list_any, position};
ghost use Rattle.tt_frame.specs.Text.{IsName};
ghost use Rattle.tt_world.specs.Commands.{numbered_name, new_name, new_number, new_company};

use crate::company::Company;
use crate::limits::NEW_COMPANY_MOST;
use crate::places::is_taken;
use tt_frame::Name;

/// A name that is known to be one.
pub(crate) fn name_of(bytes: &[u8]) -> Name
    requires { IsName bytes.now }
    ensures { result ≡ bytes.now }
{
    match Name::new(bytes) {
        Some(name) => name,
        None => unreachable!(),
    }
}

/// `Company m`.
fn numbered_name(m: u8) -> Name
    requires { m ≤ 15 }
    ensures { result ≡ numbered_name m }
{
    if m < 10 {
        name_of(&[b'C', b'o', b'm', b'p', b'a', b'n', b'y', b' ', b'0' + m])
    } else {
        name_of(&[
            b'C',
            b'o',
            b'm',
            b'p',
            b'a',
            b'n',
            b'y',
            b' ',
            b'1',
            b'0' + (m - 10),
        ])
    }
}

/// `Company m` with the least m from 1 that none of at most fourteen companies has.
fn new_name(companies: &[Option<Company>]) -> Name
    ensures { result ≡ new_name companies.now }
{
    for m in 1..15 {
        let name = numbered_name(m);
        if !is_taken(name.bytes(), companies) {
            return name;
        }
    }
    numbered_name(15)
}

/// The least number that is not live, where there is one.
fn find_place(companies: &[Option<Company>]) -> Option<usize>
    ensures { result ≡ position is_none companies.now }
{
    companies.iter().position(|place| place.is_none())
}

/// The least number that is not live.
pub(crate) fn new_number(companies: &[Option<Company>]) -> usize
    requires { list_any is_none companies.now ≡ true }
    ensures number { result ≡ new_number companies.now }
    ensures within { result < length companies.now }
{
    match find_place(companies) {
        Some(place) => place,
        None => unreachable!(),
    }
}

/// A new company beside these.
pub(crate) fn new_company(companies: &[Option<Company>]) -> Company
    ensures { result ≡ new_company companies.now }
{
    Company {
        money: 100_000,
        loan: 100_000,
        most: NEW_COMPANY_MOST,
        name: new_name(companies),
        president: name_of(b"President"),
    }
}
