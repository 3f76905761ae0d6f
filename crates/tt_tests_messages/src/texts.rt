//! Texts, digests and numbers in a range, at the edges of their rules.
ghost use Rattle.std.specs.Prelude.{◌≡◌, [], codes};

use std::process::Abort;
use std::test::*;
use tt_frame::{Digest, Line, Name, Short, UpTo, are_hex_digits, digits_or_none};

/// Whether the bytes are a text of up to 31 bytes.
fn is_short<R: Abort>(rt: &R, bytes: &[u8], wanted: bool) {
    assert_eq!(rt; Short::new(bytes).is_some(), wanted, "of {bytes:?}");
}

fn is_line<R: Abort>(rt: &R, bytes: &[u8], wanted: bool) {
    assert_eq!(rt; Line::new(bytes).is_some(), wanted, "of {bytes:?}");
}

fn is_name<R: Abort>(rt: &R, bytes: &[u8], wanted: bool) {
    assert_eq!(rt; Name::new(bytes).is_some(), wanted, "of {bytes:?}");
}

#[test]
fn a_text_is_utf8_with_no_byte_below_32_and_has_its_length(rt: HostRuntime) {
    is_short(&rt, &[32], true);
    is_short(&rt, &[31], false);
    is_short(&rt, &[195], false);
    is_short(&rt, &[195, 164], true);
    is_short(&rt, &[], true);
    is_short(&rt, &[65; 31], true);
    is_short(&rt, &[65; 32], false);
    is_line(&rt, &[65; 899], true);
    is_line(&rt, &[65; 900], false);
    is_name(&rt, &[], false);
    is_name(&rt, &[65; 31], true);
    is_name(&rt, &[65; 32], false);
}

/// Compares bytes.
fn same<R: Abort>(rt: &R, found: &[u8], wanted: &[u8]) {
    assert_eq!(rt; found, wanted);
}

#[test]
fn a_name_is_its_bytes(rt: HostRuntime) -> Result<(), Fail> {
    let name = Name::new(b"Ann").ok_or("a name")?;
    same(&rt, name.bytes(), b"Ann");
    assert!(rt; name.copy() == name);
    Ok(())
}

fn literal_name() -> Name
    ensures { result ≡ codes "Game" }
{
    match Name::new(b"Game") {
        Some(name) => name,
        None => unreachable!(),
    }
}

fn literal_line() -> Line
    ensures { result ≡ [] }
{
    match Line::new(b"") {
        Some(line) => line,
        None => unreachable!(),
    }
}

#[test]
fn a_literal_is_a_text_with_no_test(rt: HostRuntime) {
    same(&rt, literal_name().bytes(), b"Game");
    same(&rt, literal_line().bytes(), b"");
}

#[test]
fn a_number_in_a_range_is_not_above_its_end(rt: HostRuntime) {
    assert_eq!(rt; UpTo::<20>::new(20).map(|code| code.get()), Some(20));
    assert!(rt; UpTo::<20>::new(21).is_none());
}

/// 32 lower-case hexadecimal digits.
const DIGITS: [u8; 32] = *b"0123456789abcdef0123456789abcdef";

fn is_digest<R: Abort>(rt: &R, bytes: &[u8], wanted: bool) {
    assert_eq!(rt; Digest::new(bytes).is_some(), wanted, "of {bytes:?}");
}

#[test]
fn a_digest_is_32_lower_case_hexadecimal_digits(rt: HostRuntime) -> Result<(), Fail> {
    let digest = Digest::new(&DIGITS).ok_or("a digest")?;
    same(&rt, digest.bytes(), &DIGITS);
    same(&rt, digits_or_none(&Some(digest)), &DIGITS);
    same(&rt, digits_or_none(&None), b"");
    is_digest(&rt, &DIGITS[1..], false);
    is_digest(&rt, &[b'0'; 33], false);
    is_digest(&rt, &[], false);
    for byte in [47, 58, b'A', b'F', 96, 103] {
        let mut other = DIGITS;
        other[31] = byte;
        is_digest(&rt, &other, false);
    }
    Ok(())
}

#[test]
fn digits_are_lower_case(rt: HostRuntime) {
    assert!(rt; are_hex_digits(b"09af"));
    assert!(rt; !are_hex_digits(b"0A"));
    assert!(rt; !are_hex_digits(b"0g"));
}
