//! What connections are told and take, beside plain lists.
ghost use Rattle.std.specs.Prelude.{◌≡◌, ◌≤◌};
ghost use Rattle.tt_outgoing.specs.Waiting.{opened};

use std::collections::VecDeque;
use std::process::Abort;
use std::test::Fail;
use tt_outgoing::Outs;
use tt_world::Random;

#[test]
fn shared_bytes_are_taken_by_each(rt: HostRuntime) -> Result<(), Fail> {
    let mut outs = Outs::new(rt.alloc());
    assert_eq!(rt; outs.add()?, 1);
    assert_eq!(rt; outs.add()?, 2);
    outs.reserve(4, 4)?;
    outs.own(1, &[0xaa]);
    outs.share(&[1, 2], &[0xbb, 0xcc]);
    outs.own(2, &[0xdd]);
    let mut two = [0; 2];
    assert_eq!(rt; (outs.take(1, &mut two), two), (2, [0xaa, 0xbb]));
    assert_eq!(rt; outs.left(1), 1);
    assert_eq!(rt; outs.take(1, &mut two), 1);
    assert_eq!(rt; two[0], 0xcc);
    assert_eq!(rt; outs.take(1, &mut two), 0);
    let mut eight = [0; 8];
    assert_eq!(rt; outs.take(2, &mut eight), 3);
    assert_eq!(rt; eight, [0xbb, 0xcc, 0xdd, 0, 0, 0, 0, 0]);
    assert_eq!(rt; outs.left(2), 0);
    Ok(())
}

/// Ten thousand calls by chance leave what plain lists leave.
#[test]
fn calls_by_chance_are_those_of_plain_lists(rt: HostRuntime) -> Result<(), Fail> {
    let mut outs = Outs::new(rt.alloc());
    let mut first = VecDeque::new(rt.alloc());
    let mut second = VecDeque::new(rt.alloc());
    let mut random = Random::seeded(7);
    outs.add()?;
    outs.add()?;
    for turn in 0..10_000 {
        let byte = random.next_below(256) as u8;
        match random.next_below(5) {
            0 => {
                outs.reserve(2, 2)?;
                outs.share(&[1, 2], &[byte, 1]);
                tell(&mut first, &[byte, 1])?;
                tell(&mut second, &[byte, 1])?;
            }
            1 => {
                outs.reserve(3, 1)?;
                outs.own(1, &[byte, 2, 3]);
                tell(&mut first, &[byte, 2, 3])?;
            }
            2 => {
                outs.reserve(1, 1)?;
                outs.own(2, &[byte]);
                tell(&mut second, &[byte])?;
            }
            3 => compare(&rt, turn, &mut outs, 1, &mut first)?,
            _ => compare(&rt, turn, &mut outs, 2, &mut second)?,
        }
    }
    Ok(())
}

/// Tells bytes to a plain list.
fn tell(list: &mut VecDeque<u8>, bytes: &[u8]) -> Result<(), Fail> {
    for byte in bytes {
        list.push_back(*byte)?;
    }
    Ok(())
}

/// Takes up to three bytes of a connection and of its plain list, and compares them.
fn compare<R: Abort>(
    rt: &R,
    turn: u32,
    outs: &mut Outs,
    conn: u32,
    list: &mut VecDeque<u8>,
) -> Result<(), Fail>
    requires opened { (1 ≤ conn) × (conn ≤ opened outs.old) }
    ensures opened { opened outs.new ≡ opened outs.old }
{
    assert_eq!(rt; (turn, outs.left(conn)), (turn, list.len() as u64));
    let mut taken = [0; 3];
    let count = outs.take(conn, &mut taken);
    for byte in &taken[..count] {
        assert_eq!(rt; (turn, Some(*byte)), (turn, list.pop_front()));
    }
    Ok(())
}
