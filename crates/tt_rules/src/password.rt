//! The digest of a password.
ghost use Rattle.std.specs.Prelude.{◌≡◌, ◌<◌, ◌≤◌, length};
ghost use Rattle.md5.specs.Md5.{md5};
ghost use Rattle.hex.specs.Hex.{encode_lower};
ghost use Rattle.tt_rules.specs.Digest.{salted_byte, salted, password_digest};

use md5::{Digest, Md5};
use tt_frame::{Line, Name};

/// How many bytes are digested, and how many digits the digest has.
const SALTED: usize = 32;

/// What a client answers to a request for a password: the MD5 of the password, salted by the game's id and seed, as 32
/// lower-case hexadecimal digits. It takes no memory.
pub fn password_digest(password: &Line, id: &Name, seed: u32) -> [u8; 32]
    requires short { length password.now ≤ 32 }
    ensures digest { result ≡ password_digest password.now id.now seed }
{
    digits_of(&salted(password.bytes(), id.bytes(), seed))
}

/// The MD5 of the salted password, in lower-case digits.
fn digits_of(salted: &[u8; SALTED]) -> [u8; SALTED]
    ensures digits { result ≡ encode_lower (md5 salted.now) }
{
    let digest = Md5::digest(salted.as_slice());
    let mut digits = [0; SALTED];
    if hex::encode_to_slice(digest.as_slice(), &mut digits).is_err() {
        unreachable!();
    }
    digits
}

/// The salted password.
fn salted(password: &[u8], id: &[u8], seed: u32) -> [u8; SALTED]
    requires some { 1 ≤ length id.now }
    ensures salted { result ≡ salted password.now id.now seed }
{
    let mut salted = [0; SALTED];
    for i in 0..SALTED {
        salted[i] = salted_byte(password, id, seed, i);
    }
    salted
}

/// One byte of it.
fn salted_byte(password: &[u8], id: &[u8], seed: u32, i: usize) -> u8
    requires some { 1 ≤ length id.now }
    requires within { i < 32 }
    ensures byte { result ≡ salted_byte password.now id.now seed i }
{
    let own = if i < password.len() { password[i] } else { 0 };
    own ^ id[i % id.len()] ^ ((seed >> i) % 256) as u8
}
