//! Parts of packets, told in order, and packets that are written in steps.
use std::process::Abort;
use std::test::*;
use tt_frame::{Name, OutOfMemory, Part, Put, finish, tell};

/// Compares bytes.
fn same<R: Abort>(rt: &R, found: &[u8], wanted: &[u8]) {
    assert_eq!(rt; found, wanted);
}

#[test]
fn parts_are_told_in_order(rt: HostRuntime) -> Result<(), Fail> {
    let name = Name::new(b"A").ok_or("a name")?;
    let mut out = vec![in rt.alloc(); 9]?;
    tell(
        &mut out,
        &[
            Part::Head(3),
            Part::U8(1),
            Part::U16(2),
            Part::U32(3),
            Part::Words(name.bytes()),
        ],
    )?;
    same(&rt, &out, &[9, 0, 0, 3, 1, 2, 0, 3, 0, 0, 0, 65, 0]);
    Ok(())
}

#[test]
fn other_parts_are_told_in_order(rt: HostRuntime) -> Result<(), Fail> {
    let mut out = Vec::new(rt.alloc());
    tell(
        &mut out,
        &[
            Part::Head(9),
            Part::U64(1),
            Part::Truth(true),
            Part::Raw(&[7, 8]),
        ],
    )?;
    same(&rt, &out, &[0, 0, 9, 1, 0, 0, 0, 0, 0, 0, 0, 1, 7, 8]);
    Ok(())
}

#[test]
fn a_packet_written_in_steps_gets_its_size(rt: HostRuntime) -> Result<(), Fail> {
    let mut out = vec![in rt.alloc(); 9]?;
    Put::raw(&mut out, &[0, 0, 3])?;
    let written = Put::u16(&mut out, 513);
    finish(&mut out, 1, written)?;
    same(&rt, &out, &[9, 5, 0, 3, 1, 2]);
    Ok(())
}

#[test]
fn a_packet_refused_on_the_way_is_taken_away(rt: HostRuntime) -> Result<(), Fail> {
    let mut out = vec![in rt.alloc(); 9]?;
    Put::raw(&mut out, &[0, 0, 3])?;
    assert_eq!(rt; finish(&mut out, 1, Err(OutOfMemory)), Err(OutOfMemory));
    same(&rt, &out, &[9]);
    Ok(())
}
