//! The program's top call over links, tickers, files and sinks in memory.
use crate::admin::admin_main;
use std::alloc::Global;
use std::process::Abort;
use std::sync::Wait;
use std::test::*;
use tt_edge::{Link, LinkGot, LinkPlan, LinkWrote, MemLink, MemSink, MemSource, MemTicker};
use tt_frame::{Line, OutOfMemory};

/// What a server says to an admin that it lets in: what may be asked for, and the welcome.
const WELCOME: &[u8] =
    b"\x37\x00\x67\x03\x01\x00\x00\x3f\x00\x01\x01\x00\x41\x00\x01\x02\x00\x41\x00\x01\x03\x00\x3d\x00\
    \x01\x04\x00\x3d\x00\x01\x05\x00\x40\x00\x01\x06\x00\x40\x00\x01\x07\x00\x01\x00\x01\x08\x00\x40\x00\
    \x01\x09\x00\x40\x00\x00\x1c\x00\x68Game\x0013.4\x00\x01\x00\x00\x00\x00\x00\x00\x00\x00\x00\x00\x00\x01\x00\x01";

/// Its answer to a ping.
const PONG: &[u8] = b"\x07\x00\x7e\x78\x56\x34\x12";

/// The join of `cli` with the password `pw`, the ping, and the last packet.
const JOIN: &[u8] = b"\x0c\x00\x00pw\x00cli\x001\x00";

const PING: &[u8] = b"\x07\x00\x07\x78\x56\x34\x12";

const QUIT: &[u8] = b"\x03\x00\x01";

/// The text of what the server says.
const TEXT: &[u8] = b"PROTOCOL 3 0 63 1 65 2 65 3 61 4 61 5 64 6 64 7 1 8 64 9 64\n\
WELCOME 47616d65 31332e34 1 - 0 0 0 256 256\nPONG 305419896\n";

/// The usual words and the usual file.
const WORDS: [&[u8]; 4] = [b"--password", b"pw", b"--name", b"cli"];

const FILE: &[u8] = b"ping 305419896\nquit\n";

/// What one call came to.
#[derive(Drop)]
struct Trial {
    status: u8,
    written: Vec<u8>,
    shown: Vec<u8>,
}

/// What a call goes over.
#[derive(Drop)]
struct Outside {
    link: MemLink,
    ticker: MemTicker,
    file: MemSource,
    sink: MemSink,
}

/// The numbers from the first one up to the last.
fn numbers(alloc: Global, first: u64, last: u64) -> Result<Vec<u64>, OutOfMemory> {
    let mut numbers = Vec::new(alloc);
    for number in first..last {
        numbers.push(number)?;
    }
    Ok(numbers)
}

/// A link that says all at once and then nothing, ten ticks and a Stop, and room for what is written.
fn around(alloc: Global, said: &[&[u8]], file: &[u8]) -> Result<Outside, OutOfMemory> {
    let mut bytes = Vec::new(alloc);
    for part in said {
        bytes.extend_from_slice(part)?;
    }
    let mut plan = LinkPlan::working(alloc);
    plan.idle_reads = numbers(alloc, 1, 40)?;
    Ok(Outside {
        link: MemLink::new(alloc, bytes, 200, plan)?,
        ticker: MemTicker::new(11, Vec::new(alloc), numbers(alloc, 10, 11)?),
        file: MemSource::new(file.to_vec(alloc)?, Vec::new(alloc)),
        sink: MemSink::new(alloc, 400, Vec::new(alloc))?,
    })
}

/// Calls the program with these words.
fn call<R: Wait>(
    rt: &R,
    alloc: Global,
    words: &[&[u8]],
    mut outside: Outside,
) -> Result<Trial, OutOfMemory> {
    let mut args = Vec::new(alloc);
    for word in words {
        if let Some(word) = Line::new(word) {
            args.push(word)?;
        }
    }
    let status = admin_main(
        rt,
        alloc,
        &args,
        &mut outside.link,
        &mut outside.ticker,
        &mut outside.file,
        &mut outside.sink,
    );
    Ok(Trial {
        status,
        written: outside.link.written().to_vec(alloc)?,
        shown: outside.sink.bytes().to_vec(alloc)?,
    })
}

/// These parts, one behind the other.
fn joined(alloc: Global, parts: &[&[u8]]) -> Result<Vec<u8>, OutOfMemory> {
    let mut all = Vec::new(alloc);
    for part in parts {
        all.extend_from_slice(part)?;
    }
    Ok(all)
}

#[test]
fn a_file_is_said_and_the_answers_are_shown(rt: HostRuntime) -> Result<(), Fail> {
    let alloc = rt.alloc();
    let all = joined(alloc, &[JOIN, PING, QUIT])?;
    let said: [&[u8]; 2] = [WELCOME, PONG];
    let at_once = call(&rt, alloc, &WORDS, around(alloc, &said, FILE)?)?;
    assert_eq!(rt; at_once.status, 0);
    assert_eq!(rt; at_once.written.as_slice(), all.as_slice());
    assert_eq!(rt; at_once.shown.as_slice(), TEXT);
    // The server takes nothing in the first round, and says nothing until it was written the join.
    let mut later = around(alloc, &said, FILE)?;
    let mut plan = LinkPlan::working(alloc);
    plan.idle_reads = numbers(alloc, 0, 2)?;
    for number in 3..40u64 {
        plan.idle_reads.push(number)?;
    }
    plan.idle_writes = numbers(alloc, 0, 1)?;
    later.link = MemLink::new(alloc, joined(alloc, &said)?, 200, plan)?.at_most(200);
    let later = call(&rt, alloc, &WORDS, later)?;
    assert_eq!(rt; later.status, 0);
    assert_eq!(rt; later.written.as_slice(), all.as_slice());
    assert_eq!(rt; later.shown.as_slice(), TEXT);
    Ok(())
}

#[test]
fn an_idle_link_is_written_nothing(rt: HostRuntime) -> Result<(), Fail> {
    let alloc = rt.alloc();
    let mut idle = around(alloc, &[], FILE)?;
    let mut plan = LinkPlan::working(alloc);
    plan.idle_reads = numbers(alloc, 0, 40)?;
    plan.idle_writes = numbers(alloc, 0, 40)?;
    idle.link = MemLink::new(alloc, Vec::new(alloc), 200, plan)?;
    idle.ticker = MemTicker::new(4, Vec::new(alloc), numbers(alloc, 3, 4)?);
    let trial = call(&rt, alloc, &WORDS, idle)?;
    assert_eq!(rt; trial.status, 0);
    assert!(rt; trial.written.is_empty());
    assert!(rt; trial.shown.is_empty());
    Ok(())
}

#[test]
fn a_wait_is_kept(rt: HostRuntime) -> Result<(), Fail> {
    let alloc = rt.alloc();
    let said: [&[u8]; 1] = [WELCOME];
    let short = call(
        &rt,
        alloc,
        &WORDS,
        around(alloc, &said, b"wait 4\nwait 6\nquit")?,
    )?;
    assert_eq!(rt; short.status, 0);
    assert_eq!(rt;
        short.written.as_slice(),
        joined(alloc, &[JOIN, QUIT])?.as_slice()
    );
    let long = call(
        &rt,
        alloc,
        &WORDS,
        around(alloc, &said, b"wait 5\nwait 6\nquit")?,
    )?;
    assert_eq!(rt; long.status, 0);
    assert_eq!(rt; long.written.as_slice(), JOIN);
    Ok(())
}

/// What a server says, the status, and the last line that is shown.
fn ends() -> [(&'static [u8], u8, &'static [u8]); 8] {
    [
        (b"\x04\x00\x66\x0a", 12, b"ERROR 10\n"),
        (b"\x03\x00\x64", 12, b"FULL\n"),
        (b"\x03\x00\x65", 12, b"BANNED\n"),
        (b"\x03\x00\x6a", 0, b"SHUTDOWN\n"),
        (b"\x03\x00\x6a\x04\x00\x66\x0a", 12, b"SHUTDOWN\nERROR 10\n"),
        (b"\x03\x00\x6a\x02\x00\x66", 0, b"SHUTDOWN\nbad at 3\n"),
        (b"\x02\x00\x66\x03\x00\x6a", 0, b"bad at 0\n"),
        (b"\x04\x00\x66\x63\x03\x00\x64", 0, b"bad at 0\n"),
    ]
}

#[test]
fn packets_end_a_run(rt: HostRuntime) -> Result<(), Fail> {
    let alloc = rt.alloc();
    for (said, status, text) in ends() {
        let trial = call(&rt, alloc, &WORDS, around(alloc, &[said], FILE)?)?;
        assert_eq!(rt; trial.status, status);
        assert_eq!(rt; trial.shown.as_slice(), text);
    }
    Ok(())
}

#[test]
fn the_end_of_the_link_is_told(rt: HostRuntime) -> Result<(), Fail> {
    let alloc = rt.alloc();
    let said: [&[u8]; 1] = [WELCOME];
    let mut end = around(alloc, &said, FILE)?;
    end.link = MemLink::new(alloc, WELCOME.to_vec(alloc)?, 200, LinkPlan::working(alloc))?;
    assert_eq!(rt; call(&rt, alloc, &WORDS, end)?.status, 13);
    Ok(())
}

/// Which call fails: the one of that number, counted from 0.
#[derive(Clone, Copy)]
enum Failing {
    Read(u64),
    Write(u64),
    Beat(u64),
    Show(u64),
}

/// A run in pieces of eight bytes, where one call fails.
fn outside_with_a_fault(alloc: Global, failing: Failing) -> Result<Outside, OutOfMemory> {
    let mut plan = LinkPlan::working(alloc);
    plan.idle_reads = numbers(alloc, 12, 60)?;
    let mut beats = Vec::new(alloc);
    let mut shows = Vec::new(alloc);
    match failing {
        Failing::Read(call) => plan.failing_reads.push(call)?,
        Failing::Write(call) => plan.failing_writes.push(call)?,
        Failing::Beat(call) => beats.push(call)?,
        Failing::Show(call) => shows.push(call)?,
    }
    let bytes = joined(alloc, &[WELCOME, PONG])?;
    Ok(Outside {
        link: MemLink::new(alloc, bytes, 200, plan)?.at_most(8),
        ticker: MemTicker::new(5, beats, numbers(alloc, 4, 5)?),
        file: MemSource::new(b"ping 305419896\nwait 9".to_vec(alloc)?, Vec::new(alloc)),
        sink: MemSink::new(alloc, 400, shows)?,
    })
}

/// Such a run ends with this status.
fn ends_with<R: Wait + Abort>(
    rt: &R,
    alloc: Global,
    failing: Failing,
    call_number: u64,
    wanted: u8,
) -> Result<(), OutOfMemory> {
    let trial = call(rt, alloc, &WORDS, outside_with_a_fault(alloc, failing)?)?;
    assert_eq!(rt; (call_number, trial.status), (call_number, wanted));
    Ok(())
}

#[test]
fn each_call_fails_in_turn(rt: HostRuntime) -> Result<(), Fail> {
    let alloc = rt.alloc();
    for number in 0..16u64 {
        ends_with(&rt, alloc, Failing::Read(number), number, 14)?;
    }
    for number in 0..3u64 {
        ends_with(&rt, alloc, Failing::Write(number), number, 14)?;
    }
    for number in 0..5u64 {
        ends_with(&rt, alloc, Failing::Beat(number), number, 9)?;
    }
    ends_with(&rt, alloc, Failing::Show(0), 0, 5)?;
    Ok(())
}

/// What the server says: each part only once it was told so many bytes.
const ANSWERS: &[(usize, &[u8])] = &[(12, WELCOME), (12, PONG)];

/// A link that gives each of its parts only once it was written so many bytes.
#[derive(Drop)]
struct Dialogue {
    parts: &'static [(usize, &'static [u8])],
    given: usize,
    written: Vec<u8>,
    faults: u64,
    idle: u64,
}

impl Link for Dialogue {
    ghost use Rattle.std.specs.Prelude.{None};

    ghost counts = { λ l. record { faults = l.faults; ends = 0; idle_reads = l.idle; idle_writes = 0; stalled = 0 } };

    ghost left = { λ _. None };

    ghost was_read = { λ _. None };

    ghost held = { λ _. None };

    fn read(&mut self, out: &mut [u8]) -> LinkGot {
        if let Some((after, bytes)) = self.parts.get(self.given) {
            let n = bytes.len().min(out.len());
            if n > 0 && self.written.len() >= *after {
                out[..n].copy_from_slice(&bytes[..n]);
                self.given = self.given.saturating_add(1);
                return LinkGot::Bytes(n);
            }
        }
        self.idle = self.idle.saturating_add(1);
        LinkGot::Nothing
    }

    fn write(&mut self, bytes: &[u8]) -> LinkWrote {
        match self.written.extend_from_slice(bytes) {
            Ok(()) => LinkWrote::Count(bytes.len()),
            Err(_) => {
                self.faults = self.faults.saturating_add(1);
                LinkWrote::Failed
            }
        }
    }
}

#[test]
fn it_is_answered_once_it_has_joined(rt: HostRuntime) -> Result<(), Fail> {
    let alloc = rt.alloc();
    let mut link = Dialogue {
        parts: ANSWERS,
        given: 0,
        written: Vec::new(alloc),
        faults: 0,
        idle: 0,
    };
    let mut outside = around(alloc, &[], FILE)?;
    let mut args = Vec::new(alloc);
    for word in WORDS {
        if let Some(word) = Line::new(word) {
            args.push(word)?;
        }
    }
    let status = admin_main(
        &rt,
        alloc,
        &args,
        &mut link,
        &mut outside.ticker,
        &mut outside.file,
        &mut outside.sink,
    );
    let all = joined(alloc, &[JOIN, PING, QUIT])?;
    assert_eq!(rt; status, 0);
    assert_eq!(rt; outside.sink.bytes(), TEXT);
    assert_eq!(rt; link.written.as_slice(), all.as_slice());
    Ok(())
}

#[test]
fn faults_of_the_file_are_told(rt: HostRuntime) -> Result<(), Fail> {
    let alloc = rt.alloc();
    let said: [&[u8]; 1] = [WELCOME];
    let mut file = around(alloc, &said, FILE)?;
    file.file = MemSource::new(FILE.to_vec(alloc)?, numbers(alloc, 0, 1)?);
    assert_eq!(rt; call(&rt, alloc, &WORDS, file)?.status, 4);
    let mut long = around(alloc, &said, FILE)?;
    long.file = MemSource::new(vec![in alloc; b'\n'; 1_048_577]?, Vec::new(alloc));
    assert_eq!(rt; call(&rt, alloc, &WORDS, long)?.status, 7);
    Ok(())
}

#[test]
fn other_words_are_refused(rt: HostRuntime) -> Result<(), Fail> {
    let alloc = rt.alloc();
    let words: [&[&[u8]]; 5] = [
        &[],
        &[b"--name", b"cli"],
        &[b"--password"],
        &[b"--password", b"pw", b"--password", b"pw"],
        &[b"--password", b"pw", b"--user", b"a"],
    ];
    for words in words {
        let trial = call(&rt, alloc, words, around(alloc, &[WELCOME], FILE)?)?;
        assert_eq!(rt; trial.status, 2);
        assert!(rt; trial.written.is_empty());
        assert!(rt; trial.shown.is_empty());
    }
    Ok(())
}

/// Files, and the first bad line of each.
fn bad_files() -> [(&'static [u8], &'static [u8]); 8] {
    [
        (b"\n", b"script: line 1\n"),
        (b"quit\nping\n", b"script: line 2\n"),
        (b"ping 01\n", b"script: line 1\n"),
        (b"ping 4294967296", b"script: line 1\n"),
        (b"poll 256 0", b"script: line 1\n"),
        (b"update 65535 65536", b"script: line 1\n"),
        (b"chat 4\n", b"script: line 1\n"),
        (
            b"chat -\nrcon 71756974\nwait 1\npoll 3 4294967295\nupdate 0 4\nquit \n",
            b"script: line 6\n",
        ),
    ]
}

#[test]
fn the_first_bad_line_is_told(rt: HostRuntime) -> Result<(), Fail> {
    let alloc = rt.alloc();
    for (file, text) in bad_files() {
        let trial = call(&rt, alloc, &WORDS, around(alloc, &[WELCOME], file)?)?;
        assert_eq!(rt; trial.status, 3);
        assert!(rt; trial.written.is_empty());
        assert_eq!(rt; trial.shown.as_slice(), text);
    }
    Ok(())
}

#[test]
fn each_line_is_its_packet(rt: HostRuntime) -> Result<(), Fail> {
    let alloc = rt.alloc();
    let file = b"chat 6869\nrcon 71756974\npoll 3 4294967295\nupdate 0 4\nquit\nping 1\n";
    let trial = call(&rt, alloc, &WORDS, around(alloc, &[WELCOME], file)?)?;
    let said: [&[u8]; 6] = [
        JOIN,
        b"\x0b\x00\x04\x00\x00\x00\x00\x00hi\x00",
        b"\x08\x00\x05quit\x00",
        b"\x08\x00\x03\x03\xff\xff\xff\xff",
        b"\x07\x00\x02\x00\x00\x04\x00",
        QUIT,
    ];
    assert_eq!(rt; trial.status, 0);
    assert_eq!(rt; trial.written.as_slice(), joined(alloc, &said)?.as_slice());
    Ok(())
}
