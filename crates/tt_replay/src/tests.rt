//! The program's top call over sources and sinks in memory. Whole games stand in examples/, each with the report that it
//! expects, and the gate checks them with the program itself.
//!
//! A test is a table, and functions that promise nothing call and compare.
ghost use Rattle.std.specs.Prelude.{◌<◌};

use crate::program::replay_main;
use std::alloc::Global;
use std::process::Abort;
use std::test::*;
use tt_edge::{MemSink, MemSource};
use tt_frame::{Line, OutOfMemory};

/// What one call came to.
#[derive(Drop)]
struct Trial {
    status: u8,
    written: Vec<u8>,
}

/// Calls the program with these words, over a source whose read and a sink whose write of these numbers fail, counted
/// from 0. Each call of them moves at most so many bytes.
fn call(
    alloc: Global,
    words: &[&[u8]],
    input: &[u8],
    failing: (Option<u64>, Option<u64>),
    most: usize,
) -> Result<Trial, OutOfMemory>
    requires { 0 < most }
{
    let words = lines_of(alloc, words)?;
    let reads = number_in(alloc, failing.0)?;
    let writes = number_in(alloc, failing.1)?;
    let mut source = MemSource::new(input.to_vec(alloc)?, reads).at_most(most);
    let mut sink = MemSink::new(alloc, 400, writes)?.at_most(most);
    let status = replay_main(alloc, &words, &mut source, &mut sink);
    let written = sink.bytes().to_vec(alloc)?;
    Ok(Trial { status, written })
}

/// Words as lines.
fn lines_of(alloc: Global, words: &[&[u8]]) -> Result<Vec<Line>, OutOfMemory> {
    let mut lines = Vec::new(alloc);
    for word in words {
        if let Some(line) = Line::new(word) {
            lines.push(line)?;
        }
    }
    Ok(lines)
}

/// The number, where there is one.
fn number_in(alloc: Global, number: Option<u64>) -> Result<Vec<u64>, OutOfMemory> {
    let mut numbers = Vec::new(alloc);
    if let Some(number) = number {
        numbers.push(number)?;
    }
    Ok(numbers)
}

/// Compares what a call comes to: its status, and what it writes.
fn comes_to<R: Abort>(rt: &R, trial: &Trial, status: u8, text: &[u8]) {
    assert_eq!(rt; trial.status, status);
    assert_eq!(rt; trial.written.as_slice(), text);
}

/// Compares what a call of one word comes to where nothing fails.
fn gives<R: Abort>(
    rt: &R,
    alloc: Global,
    word: &[u8],
    input: &[u8],
    status: u8,
    text: &[u8],
) -> Result<(), OutOfMemory> {
    let trial = call(alloc, &[word], input, (None, None), 4096)?;
    comes_to(rt, &trial, status, text);
    Ok(())
}

/// Compares what is left where the sink fails at each byte of a text in turn: the status, and a front of the text.
fn leaves<R: Abort>(
    rt: &R,
    alloc: Global,
    word: &[u8],
    input: &[u8],
    status: u8,
    text: &[u8],
) -> Result<(), OutOfMemory> {
    for place in 0..text.len() {
        let trial = call(alloc, &[word], input, (None, Some(place as u64)), 1)?;
        comes_to(rt, &trial, status, &text[..place]);
    }
    Ok(())
}

/// The report of the empty script.
const START: &[u8] = b"server 0 0 00000000 00000000 0 0 0\n";

/// Scripts, and the report of each.
fn reports() -> [(&'static [u8], &'static [u8]); 23] {
    [
        (b"", START),
        (b"= server 1\n= \n= refused 1", START),
        (
            b"= a\ntick 2\n= server 1\ntick 1\n= b",
            b"server 3 3 d75be1b8 1fffffff 0 3 0\n",
        ),
        (b"tick 2\ntick 1\n", b"server 3 3 d75be1b8 1fffffff 0 3 0\n"),
        (b"tick 74\n", b"server 74 74 f9861ef5 4db3a930 1 0 0\n"),
        (b"tick 100\n", b"server 100 100 faee7efa d46cc9c3 1 26 0\n"),
        (
            b"set seed 1\ntick 1\n",
            b"server 1 1 fc2468ae 1fffffff 0 1 0\n",
        ),
        (b"set seed 0\n", START),
        (
            b"set seed 4294967295",
            b"server 0 0 ffffffff ffffffff 0 0 0\n",
        ),
        // A join that is not in form, not welcome, too early, or not the last.
        (
            b"open\nbytes 1 11000231332e33000d000000416e6e00ff\n",
            b"conn 1 game ended 04000308\nserver 0 0 00000000 00000000 0 0 0\n",
        ),
        (
            b"open\nbytes 1 03000d\n",
            b"conn 1 game ended 04000307\nserver 0 0 00000000 00000000 0 0 0\n",
        ),
        (
            b"open\nbytes 1 0200\n",
            b"conn 1 game ended 04000304\nserver 0 0 00000000 00000000 0 0 0\n",
        ),
        (
            b"open\nbytes 1 0400150f\n",
            b"conn 1 game ended 04000304\nserver 0 0 00000000 00000000 0 0 0\n",
        ),
        (
            b"open\nbytes 1 1100023133\nbytes 1 2e34000d000000416e6e00ff1100023133\nbytes 1 2e34000d000000416e6e00ff\n",
            b"conn 1 game ended 0e000c020000000000000074740004000307\nserver 0 0 00000000 00000000 0 0 0\n",
        ),
        (
            b"open\nbytes 1 1100023133\nbytes 1 2e34000d000000416e6e00ff0200\n",
            b"conn 1 game ended 0e000c020000000000000074740004000304\nserver 0 0 00000000 00000000 0 0 0\n",
        ),
        (
            b"open\nbytes 2 00\nbytes 1 0200\nbytes 1 00\n",
            b"conn 1 game ended 04000304\nserver 0 0 00000000 00000000 0 0 0\nrefused 2\n",
        ),
        // Lines of clients that are not there.
        (
            b"up 1 1\ndown 0 1\n",
            b"server 0 0 00000000 00000000 0 0 0\nrefused 2\n",
        ),
        (
            b"open\nup 1 1\ndown 1 1\nrun 1 1\npump 1\ndo 1 loan 10000\nforge 1 00\n",
            b"conn 1 game live -\nserver 0 0 00000000 00000000 0 0 0\nrefused 6\n",
        ),
        (
            b"stop\njoin 61 255 - -\npump 1\n",
            b"server 0 0 00000000 00000000 0 0 0\nrefused 2\n",
        ),
        // Behind the end a client is still told what its connection was, and has nobody to say anything to.
        (
            b"join 61 255 - -\nstop\npump 1\ndown 1 5\nup 1 5\n",
            b"conn 1 game ended 030025\nclient 1 shutdown\nserver 0 0 00000000 00000000 0 0 0\nrefused 1\n",
        ),
        (
            b"join 61 255 - -\ndo 1 loan 10000\nup 1 0\ndown 1 0\nrun 1 5\n",
            b"conn 1 game live -\nclient 1 joining\nserver 0 0 00000000 00000000 0 0 0\nrefused 1\n",
        ),
        // Bytes that no server sends.
        (
            b"join 61 255 - -\nforge 1 0000\n",
            b"conn 1 game live -\nclient 1 wrong 0\nserver 0 0 00000000 00000000 0 0 0\n",
        ),
        // A client whose server is full.
        (
            b"set clients 1\nopen\njoin 61 255 - -\ndown 2 3\n",
            b"conn 1 game live -\nconn 2 game ended 030000\nclient 2 ended 14\nserver 0 0 00000000 00000000 0 0 0\n",
        ),
    ]
}

#[test]
fn scripts_have_their_reports(rt: HostRuntime) -> Result<(), Fail> {
    for (script, report) in reports() {
        gives(&rt, rt.alloc(), b"run", script, 0, report)?;
    }
    Ok(())
}

/// Inputs that are no script, and whether it is the first line that is bad; else it is the second one.
fn bad_scripts() -> [(&'static [u8], bool); 33] {
    [
        (b"tick 0\n", true),
        (b"tick 01\n", true),
        (b"tick  1\n", true),
        (b"tick\t1\n", true),
        (b"tick 1000001\n", true),
        (b"tick 4294967297\n", true),
        (b"tick \xff\n", true),
        (b"tick 1\r\n", true),
        (b"tick 1\n\n", false),
        (b"\n", true),
        (b" tick 1\n", true),
        (b"tick\n", true),
        (b"tick \n", true),
        (b"tick +1\n", true),
        (b"tick 1 \n", true),
        (b"bytes 1 0\n", true),
        (b"bytes 1 \n", true),
        (b"bytes 1 0A\n", true),
        (b"bytes 01 00\n", true),
        (b"bytes 4294967296 00\n", true),
        (b"bytes 1\n", true),
        (b"bytes  1 00\n", true),
        (b"open \n", true),
        (b"set seed 1\nset seed 1\n", false),
        (b"tick 1\nset seed 1\n", false),
        (b"set seed 4294967296\n", true),
        (b"set seed\n", true),
        (b"set seeds 1\n", true),
        (b"set map -\n", true),
        (b"set seed 1\nset map 4f54544e00020000\n", false),
        (b"open\ntick 0", false),
        (b"join - 255 - -\n", true),
        (b"open\npump 1 1\n", false),
    ]
}

#[test]
fn the_first_bad_line_is_told(rt: HostRuntime) -> Result<(), Fail> {
    for (input, first) in bad_scripts() {
        let told: &[u8] = if first {
            b"script: line 1\n"
        } else {
            b"script: line 2\n"
        };
        gives(&rt, rt.alloc(), b"run", input, 3, told)?;
    }
    Ok(())
}

/// Scripts that are checked, the status of each, and what is written.
fn checked() -> [(&'static [u8], u8, &'static [u8]); 9] {
    [
        (b"= server 0 0 00000000 00000000 0 0 0", 0, b"agrees\n"),
        (b"= server 1\n", 1, b"differs at line 1\n"),
        (b"", 1, b"differs at line 1\n"),
        (
            b"tick 2\n= server 3 3 d75be1b8 1fffffff 0 3 0\ntick 1\n",
            0,
            b"agrees\n",
        ),
        (
            b"= server 0 0 00000000 00000000 0 0 0\n= \n",
            1,
            b"differs at line 2\n",
        ),
        (
            b"bytes 1 00\n= server 0 0 00000000 00000000 0 0 0\n",
            1,
            b"differs at line 2\n",
        ),
        (
            b"= server 0 0 00000000 00000000 0 0 0\nbytes 1 00\n= refused 1\n",
            0,
            b"agrees\n",
        ),
        (
            b"= server 0 0 00000000 00000000 0 0 0\nbytes 1 00\n= refused 2\n= a\n",
            1,
            b"differs at line 2\n",
        ),
        (b"= server 1\npump\n", 3, b"script: line 2\n"),
    ]
}

#[test]
fn a_report_is_compared(rt: HostRuntime) -> Result<(), Fail> {
    for (script, status, text) in checked() {
        gives(&rt, rt.alloc(), b"check", script, status, text)?;
    }
    Ok(())
}

/// Lists of packets, the status of each, and what is written.
fn lists() -> [(&'static [u8], u8, &'static [u8]); 9] {
    [
        (b"", 0, b""),
        (
            b"game 11000231332e34000d000000416e6e00ff\n",
            0,
            b"CLIENT_JOIN 31332e34 13 416e6e 255\n",
        ),
        (b"game 04000600", 0, b"SERVER_CHECK_NEWGRFS 0\n"),
        (b"game 04000308", 0, b"SERVER_ERROR 8\n"),
        (b"game 03000404000315", 0, b"CLIENT_GAME_INFO\nbad at 3\n"),
        (b"game 0200", 0, b"bad at 0\n"),
        (b"game 0b0015", 0, b"partial 3\n"),
        (
            b"game 04000308\ngame 0200\ngame 0b0015\n",
            0,
            b"SERVER_ERROR 8\nbad at 0\npartial 3\n",
        ),
        (b"game 0200\ngame 020\n", 3, b"script: line 2\n"),
    ]
}

#[test]
fn a_list_is_shown(rt: HostRuntime) -> Result<(), Fail> {
    for (list, status, text) in lists() {
        gives(&rt, rt.alloc(), b"show", list, status, text)?;
    }
    Ok(())
}

/// Words that are in no form.
fn other_words() -> [&'static [&'static [u8]]; 13] {
    [
        &[],
        &[b""],
        &[b"Run"],
        &[b"run "],
        &[b"walk"],
        &[b"run", b"run"],
        &[b"make"],
        &[b"make", b""],
        &[b"make", b"00"],
        &[b"make", b"4294967296"],
        &[b"hour", b"-1"],
        &[b"run", b"0"],
        &[b"make", b"0", b"0"],
    ]
}

#[test]
fn other_words_are_refused(rt: HostRuntime) -> Result<(), Fail> {
    for words in other_words() {
        let trial = call(rt.alloc(), words, b"", (None, None), 1)?;
        comes_to(&rt, &trial, 2, b"");
    }
    Ok(())
}

/// A script with a join in two pieces, and its report.
const JOIN: &[u8] = b"open\nbytes 1 1100023133\nbytes 1 2e34000d000000416e6e00ff\n";

const WELCOME: &[u8] =
    b"conn 1 game live 0e000c0200000000000000747400\nserver 0 0 00000000 00000000 0 0 0\n";

#[test]
fn a_source_that_fails_is_told(rt: HostRuntime) -> Result<(), Fail> {
    // One byte a read, and the read that tells the end.
    for read in 0..JOIN.len() + 1 {
        let trial = call(rt.alloc(), &[b"run"], JOIN, (Some(read as u64), None), 1)?;
        comes_to(&rt, &trial, 4, b"");
    }
    Ok(())
}

#[test]
fn a_sink_that_fails_has_a_front_of_the_text(rt: HostRuntime) -> Result<(), Fail> {
    let alloc = rt.alloc();
    gives(&rt, alloc, b"run", JOIN, 0, WELCOME)?;
    leaves(&rt, alloc, b"run", JOIN, 5, WELCOME)?;
    leaves(&rt, alloc, b"run", b"tick 0", 3, b"script: line 1\n")?;
    leaves(&rt, alloc, b"check", b"", 1, b"differs at line 1\n")?;
    let agreed = b"= server 0 0 00000000 00000000 0 0 0";
    leaves(&rt, alloc, b"check", agreed, 5, b"agrees\n")?;
    Ok(())
}

#[test]
fn what_is_made_is_written_in_part(rt: HostRuntime) -> Result<(), Fail> {
    // The source would fail at once, and is not read; the sink has room for no more.
    let trial = call(rt.alloc(), &[b"make", b"0"], b"", (Some(0), Some(3)), 9)?;
    comes_to(&rt, &trial, 5, b"join 7031 254 - -\npump 1\npu");
    Ok(())
}
