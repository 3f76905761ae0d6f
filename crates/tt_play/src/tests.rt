//! The player's top call over links, tickers, files and sinks in memory.
ghost use Rattle.std.specs.Prelude.{◌<◌, length};

use crate::play::play_main;
use std::alloc::Global;
use std::process::Abort;
use std::sync::Wait;
use std::test::*;
use tt_edge::{Link, LinkGot, LinkPlan, LinkWrote, MemLink, MemSink, MemSource, MemTicker};
use tt_frame::{Line, OutOfMemory};

/// What a server sends to its first client: a welcome, the map of frame 0 in its packets, and two frames.
const GAME: &[&[u8]] = &[
    b"\x0e\0\x0c\x02\0\0\0\0\0\0\0tt\0",
    b"\x07\0\x0f\0\0\0\0\x07\0\x10\x41\0\0\0",
    b"\x44\0\x11OTTN\0\x01\0\0GAME\0\0\0\x06\0\0\0\0\0\0",
    b"RAND\0\0\0\x08\0\0\0\0\0\0\0\0CMPY\0\0\0\x01\0SIGN\0\0\0\x02\0\0ENDC\0\0\0\0",
    b"\x03\0\x12\x0c\0\x1d\x02\0\0\0\xffAnn\0",
    b"\x0c\0\x15\x01\0\0\0\x01\0\0\0\x01\x0c\0\x15\x02\0\0\0\x02\0\0\0\0",
];

/// A word for frame 1 that its world doesn't have.
const FORGED: &[u8] = b"\x0b\0\x16\x01\0\0\0\0\0\0\0";

/// The words of a player with the name Ann and nothing else.
const ANN: &[&[u8]] = &[b"--name", b"Ann"];

/// What a link does behind its bytes.
#[derive(Clone, Copy)]
enum Behind {
    /// Each read answers Nothing.
    Idle,
    /// It tells its end.
    End,
    /// A read fails.
    Fault,
}

/// A call: its words, its file, the bytes of its link, more of them, and what this does behind them; and what it comes to.
#[derive(Clone, Copy)]
struct Row {
    words: &'static [&'static [u8]],
    file: &'static [u8],
    stream: &'static [&'static [u8]],
    more: &'static [u8],
    behind: Behind,
    status: u8,
    printed: &'static [u8],
}

/// Calls that come to each status but those of faults elsewhere.
const ROWS: [Row; 10] = [
    Row {
        words: ANN,
        file: b"at 2 print\nat 2 quit\n",
        stream: GAME,
        more: b"",
        behind: Behind::Idle,
        status: 0,
        printed: b"client 1 running 2 00000001 bfc48d14 0 2 0\n",
    },
    Row {
        words: ANN,
        file: b"",
        stream: GAME,
        more: b"\x03\0\x25",
        behind: Behind::Idle,
        status: 0,
        printed: b"",
    },
    Row {
        words: &[],
        file: b"at 2 quit\n",
        stream: GAME,
        more: b"",
        behind: Behind::Idle,
        status: 2,
        printed: b"",
    },
    Row {
        words: &[b"--name", b"Ann", b"--company", b"256"],
        file: b"at 2 quit\n",
        stream: GAME,
        more: b"",
        behind: Behind::Idle,
        status: 2,
        printed: b"",
    },
    Row {
        words: ANN,
        file: b"print\n",
        stream: GAME,
        more: b"",
        behind: Behind::Idle,
        status: 3,
        printed: b"script: line 1\n",
    },
    Row {
        words: ANN,
        file: b"at 9 print",
        stream: GAME,
        more: FORGED,
        behind: Behind::Idle,
        status: 10,
        printed: b"",
    },
    Row {
        words: ANN,
        file: b"",
        stream: &[],
        more: b"\x02\0",
        behind: Behind::End,
        status: 11,
        printed: b"",
    },
    Row {
        words: ANN,
        file: b"",
        stream: &[],
        more: b"\x04\0\x03\x08",
        behind: Behind::End,
        status: 12,
        printed: b"",
    },
    Row {
        words: ANN,
        file: b"",
        stream: GAME,
        more: b"",
        behind: Behind::End,
        status: 13,
        printed: b"",
    },
    Row {
        words: ANN,
        file: b"at 2 print",
        stream: GAME,
        more: b"",
        behind: Behind::Fault,
        status: 14,
        printed: b"client 1 running 2 00000001 bfc48d14 0 2 0\n",
    },
];

/// What one call came to.
#[derive(Drop)]
struct Trial {
    status: u8,
    printed: Vec<u8>,
    written: usize,
}

/// The words as lines, without those that are none.
fn lines_of(alloc: Global, words: &[&[u8]]) -> Result<Vec<Line>, OutOfMemory> {
    let mut lines = Vec::new(alloc);
    for word in words {
        if let Some(line) = Line::new(word) {
            lines.push(line)?;
        }
    }
    Ok(lines)
}

/// What the calls of a link are to do that gives its bytes by its first read.
fn plan_of(alloc: Global, behind: Behind) -> Result<LinkPlan, OutOfMemory> {
    let mut plan = LinkPlan::working(alloc);
    match behind {
        Behind::Idle => {
            for read in 1..9 {
                plan.idle_reads.push(read)?;
            }
        }
        Behind::End => {}
        Behind::Fault => plan.failing_reads.push(1)?,
    }
    Ok(plan)
}

/// Plays over a link with these bytes and this plan, and a ticker that tells 3 Ticks and then Stop.
fn play<R: Wait>(rt: &R, alloc: Global, row: &Row, plan: LinkPlan) -> Result<Trial, OutOfMemory> {
    let words = lines_of(alloc, row.words)?;
    let mut bytes = Vec::new(alloc);
    for piece in row.stream {
        bytes.extend_from_slice(piece)?;
    }
    bytes.extend_from_slice(row.more)?;
    let mut link = MemLink::new(alloc, bytes, 100, plan)?;
    let mut stopping = Vec::new(alloc);
    stopping.push(3)?;
    let mut ticker = MemTicker::new(4, Vec::new(alloc), stopping);
    let mut commands = MemSource::new(row.file.to_vec(alloc)?, Vec::new(alloc));
    let mut sink = MemSink::new(alloc, 400, Vec::new(alloc))?;
    let status = play_main(
        rt,
        alloc,
        &words,
        &mut link,
        &mut ticker,
        &mut commands,
        &mut sink,
    );
    Ok(Trial {
        status,
        printed: sink.bytes().to_vec(alloc)?,
        written: link.written().len(),
    })
}

#[test]
fn each_status_has_its_cause(rt: HostRuntime) -> Result<(), Fail> {
    let alloc = rt.alloc();
    for row in &ROWS {
        let trial = play(&rt, alloc, row, plan_of(alloc, row.behind)?)?;
        assert_eq!(rt; trial.status, row.status);
        assert_eq!(rt; trial.printed.as_slice(), row.printed);
    }
    Ok(())
}

#[test]
fn it_stops_where_nothing_comes_and_nothing_is_taken(rt: HostRuntime) -> Result<(), Fail> {
    let alloc = rt.alloc();
    let mut plan = LinkPlan::working(alloc);
    for call in 0..9 {
        plan.idle_reads.push(call)?;
        plan.idle_writes.push(call)?;
    }
    let row = Row {
        words: ANN,
        file: b"at 2 quit\n",
        stream: GAME,
        more: b"",
        behind: Behind::Idle,
        status: 0,
        printed: b"",
    };
    let trial = play(&rt, alloc, &row, plan)?;
    assert_eq!(rt; trial.status, row.status);
    assert_eq!(rt; trial.printed.len(), 0);
    assert_eq!(rt; trial.written, 0);
    Ok(())
}

/// The join of Ann, her request for the map, and her word that she has it.
const SAID: &[u8] = b"\x11\0\x0213.4\0\x0d\0\0\0Ann\0\xff\x03\0\x0d\x03\0\x13";

/// What a server sends to her: each part only once it was told so many bytes.
const ANSWERS: &[(usize, &[u8])] = &[
    (17, b"\x0e\0\x0c\x02\0\0\0\0\0\0\0tt\0"),
    (
        20,
        b"\x07\0\x0f\0\0\0\0\x07\0\x10\x41\0\0\0\x44\0\x11OTTN\0\x01\0\0GAME\0\0\0\x06\0\0\0\0\0\0\
        RAND\0\0\0\x08\0\0\0\0\0\0\0\0CMPY\0\0\0\x01\0SIGN\0\0\0\x02\0\0ENDC\0\0\0\0\x03\0\x12",
    ),
    (
        23,
        b"\x0c\0\x1d\x02\0\0\0\xffAnn\0\x0c\0\x15\x01\0\0\0\x01\0\0\0\x01\x0c\0\x15\x02\0\0\0\x02\0\0\0\0",
    ),
];

/// A link that gives each of its parts only once it was written so many bytes.
#[derive(Drop)]
struct Dialogue {
    parts: &'static [(usize, &'static [u8])],
    given: usize,
    written: Vec<u8>,
    faults: u64,
    idle: u64,
}

impl Link for Dialogue {
    ghost use Rattle.std.specs.Prelude.{None};

    ghost counts = { λ l. record { faults = l.faults; ends = 0; idle_reads = l.idle; idle_writes = 0; stalled = 0 } };

    ghost left = { λ _. None };

    ghost was_read = { λ _. None };

    ghost held = { λ _. None };

    fn read(&mut self, out: &mut [u8]) -> LinkGot {
        if let Some((after, bytes)) = self.parts.get(self.given) {
            let n = bytes.len().min(out.len());
            if n > 0 && self.written.len() >= *after {
                out[..n].copy_from_slice(&bytes[..n]);
                self.given = self.given.saturating_add(1);
                return LinkGot::Bytes(n);
            }
        }
        self.idle = self.idle.saturating_add(1);
        LinkGot::Nothing
    }

    fn write(&mut self, bytes: &[u8]) -> LinkWrote {
        match self.written.extend_from_slice(bytes) {
            Ok(()) => LinkWrote::Count(bytes.len()),
            Err(_) => {
                self.faults = self.faults.saturating_add(1);
                LinkWrote::Failed
            }
        }
    }
}

#[test]
fn it_joins_step_by_step(rt: HostRuntime) -> Result<(), Fail> {
    let alloc = rt.alloc();
    let mut link = Dialogue {
        parts: ANSWERS,
        given: 0,
        written: Vec::new(alloc),
        faults: 0,
        idle: 0,
    };
    let mut ticker = MemTicker::new(11, Vec::new(alloc), [10].to_vec(alloc)?);
    let mut file = MemSource::new(b"at 2 print\nat 2 quit\n".to_vec(alloc)?, Vec::new(alloc));
    let mut sink = MemSink::new(alloc, 400, Vec::new(alloc))?;
    let words = lines_of(alloc, ANN)?;
    let status = play_main(
        &rt,
        alloc,
        &words,
        &mut link,
        &mut ticker,
        &mut file,
        &mut sink,
    );
    assert_eq!(rt; status, 0);
    assert_eq!(rt;
        sink.bytes(),
        b"client 1 running 2 00000001 bfc48d14 0 2 0\n".as_slice()
    );
    assert_eq!(rt; link.written.as_slice(), SAID);
    Ok(())
}

/// Which call fails: the one of that number, counted from 0.
#[derive(Clone, Copy)]
enum Failing {
    Read(u64),
    Write(u64),
    Beat(u64),
    Print(u64),
    File(u64),
}

/// Plays the game in pieces of eight bytes, where one call fails, and answers the status.
fn with_a_fault<R: Wait>(rt: &R, alloc: Global, failing: Failing) -> Result<u8, OutOfMemory> {
    let mut plan = LinkPlan::working(alloc);
    for read in 17..60u64 {
        plan.idle_reads.push(read)?;
    }
    let mut beats = Vec::new(alloc);
    let mut prints = Vec::new(alloc);
    let mut reads = Vec::new(alloc);
    match failing {
        Failing::Read(call) => plan.failing_reads.push(call)?,
        Failing::Write(call) => plan.failing_writes.push(call)?,
        Failing::Beat(call) => beats.push(call)?,
        Failing::Print(call) => prints.push(call)?,
        Failing::File(call) => reads.push(call)?,
    }
    let mut bytes = Vec::new(alloc);
    for piece in GAME {
        bytes.extend_from_slice(piece)?;
    }
    let mut link = MemLink::new(alloc, bytes, 100, plan)?.at_most(8);
    let mut stopping = Vec::new(alloc);
    stopping.push(4)?;
    let mut ticker = MemTicker::new(5, beats, stopping);
    let mut file = MemSource::new(b"at 1 print\nat 2 print\n".to_vec(alloc)?, reads);
    let mut sink = MemSink::new(alloc, 400, prints)?;
    let words = lines_of(alloc, ANN)?;
    Ok(play_main(
        rt,
        alloc,
        &words,
        &mut link,
        &mut ticker,
        &mut file,
        &mut sink,
    ))
}

/// Such a run ends with this status.
fn ends_with<R: Wait + Abort>(
    rt: &R,
    alloc: Global,
    failing: Failing,
    call: u64,
    wanted: u8,
) -> Result<(), OutOfMemory> {
    let status = with_a_fault(rt, alloc, failing)?;
    assert_eq!(rt; (call, status), (call, wanted));
    Ok(())
}

#[test]
fn each_call_fails_in_turn(rt: HostRuntime) -> Result<(), Fail> {
    let alloc = rt.alloc();
    for call in 0..21u64 {
        ends_with(&rt, alloc, Failing::Read(call), call, 14)?;
    }
    for call in 0..4u64 {
        ends_with(&rt, alloc, Failing::Write(call), call, 14)?;
    }
    for call in 0..5u64 {
        ends_with(&rt, alloc, Failing::Beat(call), call, 9)?;
    }
    for call in 0..2u64 {
        ends_with(&rt, alloc, Failing::Print(call), call, 5)?;
    }
    ends_with(&rt, alloc, Failing::File(0), 0, 4)?;
    Ok(())
}

/// Files, and what is written of each.
const FILES: &[(&[u8], u8, &[u8])] = &[
    (b"\n", 3, b"script: line 1\n"),
    (b"print\n", 3, b"script: line 1\n"),
    (b"at 2\n", 3, b"script: line 1\n"),
    (b"at 01 print", 3, b"script: line 1\n"),
    (b"at 4294967296 print", 3, b"script: line 1\n"),
    (b"at 2 stop", 3, b"script: line 1\n"),
    (b"at 2 pause 1", 3, b"script: line 1\n"),
    (b"at 2 give 1 256", 3, b"script: line 1\n"),
    (b"at 2 print \n", 3, b"script: line 1\n"),
    (b"at 2 print\nat 1 quit\n", 3, b"script: line 2\n"),
    (b"at 2 loan 1\nat 2 quit\n\n", 3, b"script: line 3\n"),
    (
        b"at 0 print\nat 1 loan 0\nat 1 repay 4294967295\nat 1 give 1 255\nat 1 sign 5 -\nat 1 resign 0 6869\n\
        at 1 company 41\nat 1 president -\nat 2 quit\nat 2 print\nat 4294967295 quit",
        0,
        b"client 1 running 0 00000000 00000000 0 0 0\n",
    ),
];

/// A player's file comes to this status, and this is written.
fn reads_a_file<R: Wait + Abort>(
    rt: &R,
    alloc: Global,
    number: usize,
    file: &'static [u8],
    status: u8,
    printed: &'static [u8],
) -> Result<(), OutOfMemory> {
    let row = Row {
        words: ANN,
        file,
        stream: GAME,
        more: b"",
        behind: Behind::Idle,
        status,
        printed,
    };
    let trial = play(rt, alloc, &row, plan_of(alloc, row.behind)?)?;
    assert_eq!(rt; (number, trial.status), (number, status));
    assert_eq!(rt; (number, trial.printed.as_slice()), (number, printed));
    Ok(())
}

#[test]
fn each_line_is_in_form_or_told(rt: HostRuntime) -> Result<(), Fail> {
    let alloc = rt.alloc();
    for (number, (file, status, printed)) in FILES.iter().enumerate() {
        reads_a_file(&rt, alloc, number, file, *status, printed)?;
    }
    Ok(())
}
