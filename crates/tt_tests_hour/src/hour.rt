//! The hour script of some numbers.
use std::alloc::Global;
use std::process::Abort;
use std::test::*;
use tt_hour::{HourLines, hour_setup, put_hour};
use tt_log::{Line1, parse_script};

/// No hour script has so many lines.
const MOST_LINES: u32 = 10_000_000;

/// The text of the hour script of a number.
fn script_text<R: AllocGlobal>(rt: &R, number: u32) -> Result<Vec<u8>, Fail> {
    let mut text = Vec::new(rt.alloc());
    match put_hour(rt.alloc(), &mut text, number) {
        Ok(()) => Ok(text),
        Err(_) => Err("memory")?,
    }
}

/// The line of a text with this number, counted from 1.
fn is_line<R: Abort>(rt: &R, text: &[u8], number: usize, wanted: &[u8]) {
    let mut count = 1usize;
    let mut line: &[u8] = &[];
    for piece in text.split(|byte| *byte == b'\n') {
        if count == number {
            line = piece;
        }
        count = count.wrapping_add(1);
    }
    assert_eq!(rt; line, wanted, "line {number}");
}

#[test]
fn the_script_of_0_has_no_setting(rt: HostRuntime) -> Result<(), Fail> {
    let text = script_text(&rt, 0)?;
    is_line(&rt, &text, 1, b"join 7031 254 - -");
    is_line(&rt, &text, 2, b"pump 1");
    is_line(&rt, &text, 4, b"tick 1");
    is_line(&rt, &text, 8, b"join 7032 254 - -");
    is_line(&rt, &text, 22, b"pump 1");
    is_line(&rt, &text, 25, b"do 3 sign 8191 73");
    is_line(&rt, &text, 26, b"up 3 4294967295");
    is_line(&rt, &text, 27, b"tick 59");
    Ok(())
}

#[test]
fn another_one_begins_with_its_seed(rt: HostRuntime) -> Result<(), Fail> {
    let text = script_text(&rt, 7)?;
    is_line(&rt, &text, 1, b"set seed 7");
    is_line(&rt, &text, 2, b"join 7031 254 - -");
    Ok(())
}

/// How many frames the lines tick, how many connections they open, and how many commands they have.
fn counts(number: u32) -> (u32, u32, u32) {
    let mut lines = HourLines::new(number);
    let (mut frames, mut joins, mut orders) = (0u32, 0u32, 0u32);
    for _ in 0..MOST_LINES {
        let Some(line) = lines.next() else {
            break;
        };
        match line {
            Line1::Tick(n) => frames = frames.wrapping_add(n),
            Line1::Join(_, _, _, _) => joins = joins.wrapping_add(1),
            Line1::Do(_, _) => orders = orders.wrapping_add(1),
            _ => {}
        }
    }
    (frames, joins, orders)
}

#[test]
fn an_hour_has_120000_frames(rt: HostRuntime) {
    assert_eq!(rt; counts(0), (120_000, 4, 2_000));
    assert_eq!(rt; counts(4_294_967_295), (120_000, 4, 2_000));
}

#[test]
fn its_text_is_a_script(rt: HostRuntime) -> Result<(), Fail> {
    let text = script_text(&rt, 7)?;
    let Ok(script) = parse_script(rt.alloc(), &text) else {
        return Err("a script")?;
    };
    assert_eq!(rt; script.setup.seed, 7);
    assert_eq!(rt; hour_setup(7).seed, 7);
    let mut lines = HourLines::new(7);
    let mut count = 0usize;
    for _ in 0..MOST_LINES {
        let Some(_line) = lines.next() else {
            break;
        };
        count = count.wrapping_add(1);
    }
    assert_eq!(rt; script.lines.len(), count);
    Ok(())
}
