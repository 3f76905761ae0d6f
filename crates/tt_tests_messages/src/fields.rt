//! Fields that are put and read, and the place of one that is not there.
use std::process::Abort;
use std::test::*;
use tt_frame::{
    Bad, Digest, Fields, Name, OutOfMemory, Put, Short, UpTo, digest, ended, fixed, number8,
    number16, number16_up_to, number32, number64, optional_digest, raw, text, truth, up_to,
};

/// Compares bytes.
fn same<R: Abort>(rt: &R, found: &[u8], wanted: &[u8]) {
    assert_eq!(rt; found, wanted);
}

/// The next field is a number of one byte.
fn is_u8<R: Abort>(rt: &R, fields: &mut Fields, wanted: u8) {
    assert_eq!(rt; fields.u8(), Some(wanted));
}

fn is_u16<R: Abort>(rt: &R, fields: &mut Fields, wanted: Option<u16>) {
    assert_eq!(rt; fields.u16(), wanted);
}

fn is_u32<R: Abort>(rt: &R, fields: &mut Fields, wanted: u32) {
    assert_eq!(rt; fields.u32(), Some(wanted));
}

fn is_u64<R: Abort>(rt: &R, fields: &mut Fields, wanted: Option<u64>) {
    assert_eq!(rt; fields.u64(), wanted);
}

fn is_truth<R: Abort>(rt: &R, fields: &mut Fields, wanted: Option<bool>) {
    assert_eq!(rt; fields.bool(), wanted);
}

/// The next so many bytes.
fn are_raw<R: Abort>(rt: &R, fields: &mut Fields, count: usize, wanted: Option<&[u8]>) {
    assert_eq!(rt; fields.raw(count), wanted);
}

/// The next field is a text of at most so many bytes.
fn is_text<R: Abort>(rt: &R, fields: &mut Fields, most: usize, wanted: Option<&[u8]>) {
    assert_eq!(rt; fields.text(most), wanted);
}

fn stands_at<R: Abort>(rt: &R, fields: &Fields, place: usize, done: bool) {
    assert_eq!(rt; (fields.at(), fields.done()), (place, done));
}

fn put_others(out: &mut Vec<u8>) -> Result<(), OutOfMemory> {
    Put::u64(out, 0x0102_0304_0506_0708)?;
    Put::bool(out, true)?;
    Put::bool(out, false)?;
    Put::raw(out, &[2, 9, 10])
}

#[test]
fn the_other_fields_are_put_and_read(rt: HostRuntime) -> Result<(), Fail> {
    let mut out = Vec::new(rt.alloc());
    put_others(&mut out)?;
    same(&rt, &out, &[8, 7, 6, 5, 4, 3, 2, 1, 1, 0, 2, 9, 10]);
    let mut fields = Fields::new(&out);
    is_u64(&rt, &mut fields, Some(0x0102_0304_0506_0708));
    is_truth(&rt, &mut fields, Some(true));
    is_truth(&rt, &mut fields, Some(false));
    is_truth(&rt, &mut fields, None);
    are_raw(&rt, &mut fields, 4, None);
    stands_at(&rt, &fields, 10, false);
    are_raw(&rt, &mut fields, 1, Some(&[2]));
    same(&rt, fields.rest(), &[9, 10]);
    stands_at(&rt, &fields, 13, true);
    is_u64(&rt, &mut fields, None);
    Ok(())
}

fn put_some(out: &mut Vec<u8>, name: &Name) -> Result<(), OutOfMemory> {
    Put::u8(out, 1)?;
    Put::u16(out, 0x0203)?;
    Put::u32(out, 0x0405_0607)?;
    Put::text(out, name.bytes())?;
    Put::raw(out, &[8])
}

#[test]
fn what_was_put_is_read(rt: HostRuntime) -> Result<(), Fail> {
    let name = Name::new(b"Ann").ok_or("a name")?;
    let mut out = Vec::new(rt.alloc());
    put_some(&mut out, &name)?;
    same(&rt, &out, &[1, 3, 2, 7, 6, 5, 4, 65, 110, 110, 0, 8]);
    let mut fields = Fields::new(&out);
    is_u8(&rt, &mut fields, 1);
    is_u16(&rt, &mut fields, Some(0x0203));
    is_u32(&rt, &mut fields, 0x0405_0607);
    is_text(&rt, &mut fields, 2, None);
    stands_at(&rt, &fields, 7, false);
    is_text(&rt, &mut fields, 3, Some(b"Ann"));
    stands_at(&rt, &fields, 11, false);
    is_u16(&rt, &mut fields, None);
    stands_at(&rt, &fields, 11, false);
    Ok(())
}

/// A byte up to 14, a number of each width, and a text.
fn read(body: &[u8]) -> Result<(UpTo<14>, u8, u16, u32, Short), Bad> {
    let mut fields = Fields::new(body);
    let f = &mut fields;
    let all = (up_to(f)?, number8(f)?, number16(f)?, number32(f)?, text(f)?);
    ended(Ok(all), f)
}

fn read_stops<R: Abort>(rt: &R, body: &[u8], place: usize) {
    let found = read(body).err();
    assert_eq!(rt; found, Some(Bad::Malformed { at: place }), "of {body:?}");
}

#[test]
fn a_field_that_is_not_there_is_told_by_its_place(rt: HostRuntime) {
    assert!(rt; read(&[14, 2, 3, 0, 4, 0, 0, 0, 65, 0]).is_ok());
    read_stops(&rt, &[15], 0);
    read_stops(&rt, &[14, 2, 3], 2);
    read_stops(&rt, &[14, 2, 3, 0, 4, 0, 0, 0, 31, 0], 8);
    read_stops(&rt, &[14, 2, 3, 0, 4, 0, 0, 0, 65, 0, 9], 10);
}

/// A number of eight bytes, a truth, two bytes, a digest, and one that may be left out.
fn read_others(body: &[u8]) -> Result<(u64, bool, [u8; 2], Digest, Option<Digest>), Bad> {
    let mut fields = Fields::new(body);
    let f = &mut fields;
    let all = (
        number64(f)?,
        truth(f)?,
        raw(f)?,
        digest(f)?,
        optional_digest(f)?,
    );
    ended(Ok(all), f)
}

const DIGITS: &[u8] = b"0123456789abcdef0123456789abcdef";

/// 5, true, the bytes 6 and 7, the digits, and behind them an empty text.
const OTHERS: [u8; 45] = *b"\x05\0\0\0\0\0\0\0\x01\x06\x070123456789abcdef0123456789abcdef\0\0";

#[test]
fn a_digest_may_be_left_out(rt: HostRuntime) -> Result<(), Fail> {
    let all = read_others(&OTHERS)?;
    assert_eq!(rt; (all.0, all.1, all.2), (5, true, [6, 7]));
    same(&rt, all.3.bytes(), DIGITS);
    assert!(rt; all.4.is_none());
    Ok(())
}

fn others_stop<R: Abort>(rt: &R, body: &[u8], place: usize) {
    let found = read_others(body).err();
    assert_eq!(rt; found, Some(Bad::Malformed { at: place }), "of {body:?}");
}

#[test]
fn another_field_that_is_not_there_is_told_by_its_place(rt: HostRuntime) {
    for (place, byte, told) in [
        (8, 2, 8),
        (11, b'A', 11),
        (42, 0, 11),
        (43, b'0', 11),
        (44, b'a', 44),
    ] {
        let mut body = OTHERS;
        body[place] = byte;
        others_stop(&rt, &body, told);
    }
}

fn is_fixed<R: Abort>(rt: &R, fields: &mut Fields, byte: u8, wanted: Result<(), Bad>) {
    assert_eq!(rt; fixed(fields, byte), wanted);
}

fn is_up_to_255<R: Abort>(rt: &R, fields: &mut Fields, wanted: Result<u16, Bad>) {
    assert_eq!(rt; number16_up_to(fields, 255), wanted);
}

#[test]
fn a_byte_that_always_stands_there_is_read_over(rt: HostRuntime) {
    let mut fields = Fields::new(&[1, 255, 0, 0, 1]);
    is_fixed(&rt, &mut fields, 1, Ok(()));
    is_up_to_255(&rt, &mut fields, Ok(255));
    is_up_to_255(&rt, &mut fields, Err(Bad::Malformed { at: 3 }));
    let mut fields = Fields::new(&[2]);
    is_fixed(&rt, &mut fields, 1, Err(Bad::Malformed { at: 0 }));
}
