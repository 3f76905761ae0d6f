//! Numbers in decimal, as the words of a line are read.
ghost use Rattle.std.specs.Prelude.{◌≡◌, ◌<◌, ◌^◌, IfSome};
ghost use Rattle.tt_log.specs.Rows.{number_in};

use tt_lines::number_of as plain_number;

/// The number that the digits spell, without sign or leading zeros.
pub fn number_of(digits: &[u8]) -> Option<u32>
    ensures read { result ≡ number_in digits.now }
    ensures small { IfSome result (λ n. n < 2 ^ 32) }
{
    plain_number(digits)
}
