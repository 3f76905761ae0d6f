//! The places of companies, of which the place n has the company with the number n, where that is live.
ghost use Rattle.std.specs.Prelude.{◌≡◌, replicate};
ghost use Rattle.std.specs.List.{list_any};
ghost use Rattle.tt_world.specs.Commands.{has_name};

use crate::company::Company;
use crate::limits::COMPANIES;

/// No company at any place.
pub fn no_companies() -> [Option<Company>; COMPANIES]
    ensures nobody { result ≡ replicate 15 None }
{
    [
        None, None, None, None, None, None, None, None, None, None, None, None, None, None, None,
    ]
}

/// Whether there is a company at a place, with this name.
fn has_name(name: &[u8], place: &Option<Company>) -> bool
    ensures { result ≡ has_name name.now place.now }
{
    match place {
        None => false,
        Some(company) => company.name.bytes() == name,
    }
}

/// Whether one of these companies has the name.
pub fn is_taken(name: &[u8], companies: &[Option<Company>]) -> bool
    ensures taken { result ≡ list_any (has_name name.now) companies.now }
{
    companies.iter().any(|place| has_name(name, place))
}
