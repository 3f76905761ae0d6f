//! Words that are in a program's form, and words that are not.
use std::alloc::Global;
use std::process::Abort;
use std::test::*;
use tt_frame::Line;
use tt_words::{
    AdminWords, CoordinatorWords, PlayWords, ServerWords, WordsError, admin_words,
    coordinator_words, play_words, server_words,
};

/// Words that the server does not take.
const BAD_FOR_THE_SERVER: [&[u8]; 17] = [
    b"--seed 4294967296",
    b"--seed +7",
    b"--seed 007",
    b"--seed",
    b"--seed 1 --seed 1",
    b"--frame-freq 65",
    b"--sync-freq 0",
    b"--sync-freq 1001",
    b"--clients 0",
    b"--clients 256",
    b"--cost 63",
    b"--cost 1073741825",
    b"--password 012345678901234567890123456789012",
    b"--help",
    b"-h",
    b"7",
    b"--see 7",
];

/// Words that the player does not take.
const BAD_FOR_THE_PLAYER: [&[u8]; 9] = [
    b"",
    b"--company 1",
    b"--name",
    b"--name=",
    b"--name 0123456789012345678901234",
    b"--name Ann --company 256",
    b"--name Ann --company -1",
    b"--name Ann --name Bob",
    b"--name Ann --version",
];

/// Words that the admin's client does not take.
const BAD_FOR_THE_ADMIN: [&[u8]; 5] = [
    b"",
    b"--name cli",
    b"--password pw --name=",
    b"--password pw --name 01234567890123456789012345678901",
    b"--password 012345678901234567890123456789012",
];

/// Words that the coordinator does not take.
const BAD_FOR_THE_COORDINATOR: [&[u8]; 5] = [
    b"--first 4294967296",
    b"--second x",
    b"--turn=",
    b"--turn 01234567890123456789012345678901",
    b"--clients 3",
];

/// A word as a line.
fn line_of<R: Abort>(rt: &R, word: &[u8]) -> Line {
    let Some(line) = Line::new(word) else {
        panic!(rt; "no line")
    };
    line
}

/// The words of a text, which are parted by blanks; an empty text has none.
fn lines_of<R: Abort>(rt: &R, alloc: Global, text: &[u8]) -> Vec<Line> {
    let mut lines = Vec::new(alloc);
    if text.is_empty() {
        return lines;
    }
    for word in text.split(|byte| *byte == b' ') {
        if lines.push(line_of(rt, word)).is_err() {
            panic!(rt; "memory ran out")
        }
    }
    lines
}

/// What the words of a text say to the server.
fn served<R: Abort>(rt: &R, alloc: Global, text: &[u8]) -> ServerWords {
    let Ok(words) = server_words(alloc, lines_of(rt, alloc, text).as_slice()) else {
        panic!(rt; "the words are refused")
    };
    words
}

/// What the words of a text say to the player.
fn played<R: Abort>(rt: &R, alloc: Global, text: &[u8]) -> PlayWords {
    let Ok(words) = play_words(alloc, lines_of(rt, alloc, text).as_slice()) else {
        panic!(rt; "the words are refused")
    };
    words
}

/// What the words of a text say to the admin's client.
fn administered<R: Abort>(rt: &R, alloc: Global, text: &[u8]) -> AdminWords {
    let Ok(words) = admin_words(alloc, lines_of(rt, alloc, text).as_slice()) else {
        panic!(rt; "the words are refused")
    };
    words
}

/// What the words of a text say to the coordinator.
fn coordinated<R: Abort>(rt: &R, alloc: Global, text: &[u8]) -> CoordinatorWords {
    let Ok(words) = coordinator_words(alloc, lines_of(rt, alloc, text).as_slice()) else {
        panic!(rt; "the words are refused")
    };
    words
}

#[test]
fn the_server_is_told(rt: HostRuntime) {
    let alloc = rt.alloc();
    let plain = served(&rt, alloc, b"");
    assert!(rt; plain.setup == tt_world::Setup::plain() && plain.map.is_none());
    let all = served(
        &rt,
        alloc,
        b"--seed 7 --frame-freq=64 --sync-freq 1 --clients 255 --password=a --admin-password b --cost 64 --map m.ottn",
    );
    assert!(rt; all.setup.seed == 7 && all.setup.frame_freq == 64 && all.setup.sync_freq == 1);
    assert!(rt; all.setup.max_clients == 255 && all.setup.cost == 64);
    assert!(rt;
        all.setup.password.bytes() == b"a".as_slice()
            && all.setup.admin_password.bytes() == b"b".as_slice()
    );
    assert!(rt;
        all.map
            .is_some_and(|map| map.bytes() == b"m.ottn".as_slice())
    );
    assert!(rt;
        served(&rt, alloc, b"--password=")
            .setup
            .password
            .bytes()
            .is_empty()
    );
    for text in &BAD_FOR_THE_SERVER {
        assert!(rt;
            server_words(alloc, lines_of(&rt, alloc, text).as_slice()).is_err_and(|error| error
                == WordsError::Bad)
        );
    }
}

#[test]
fn the_player_is_told(rt: HostRuntime) {
    let alloc = rt.alloc();
    let plain = played(&rt, alloc, b"--name Ann");
    assert!(rt; plain.name.bytes() == b"Ann".as_slice() && plain.company == 255);
    assert!(rt; plain.password.bytes().is_empty() && plain.company_password.bytes().is_empty());
    let all = played(
        &rt,
        alloc,
        b"--company 0 --name=-x --password p --company-password q",
    );
    assert!(rt; all.name.bytes() == b"-x".as_slice() && all.company == 0);
    assert!(rt;
        all.password.bytes() == b"p".as_slice() && all.company_password.bytes() == b"q".as_slice()
    );
    for text in &BAD_FOR_THE_PLAYER {
        assert!(rt;
            play_words(alloc, lines_of(&rt, alloc, text).as_slice()).is_err_and(|error| error
                == WordsError::Bad)
        );
    }
}

#[test]
fn the_admin_is_told(rt: HostRuntime) {
    let alloc = rt.alloc();
    let plain = administered(&rt, alloc, b"--password pw");
    assert!(rt;
        plain.password.bytes() == b"pw".as_slice() && plain.name.bytes() == b"tt".as_slice()
    );
    assert!(rt;
        administered(&rt, alloc, b"--name cli --password=")
            .name
            .bytes()
            == b"cli".as_slice()
    );
    for text in &BAD_FOR_THE_ADMIN {
        assert!(rt;
            admin_words(alloc, lines_of(&rt, alloc, text).as_slice()).is_err_and(|error| error
                == WordsError::Bad)
        );
    }
}

#[test]
fn the_coordinator_is_told(rt: HostRuntime) {
    let alloc = rt.alloc();
    let plain = coordinated(&rt, alloc, b"");
    assert!(rt; plain.first == 0 && plain.second == 0 && plain.turn.is_none());
    let all = coordinated(&rt, alloc, b"--first 4294967295 --second 7 --turn 10.0.0.3");
    assert!(rt; all.first == u32::MAX && all.second == 7);
    assert!(rt;
        all.turn
            .is_some_and(|host| host.bytes() == b"10.0.0.3".as_slice())
    );
    for text in &BAD_FOR_THE_COORDINATOR {
        assert!(rt;
            coordinator_words(alloc, lines_of(&rt, alloc, text).as_slice()).is_err_and(|error| error
                == WordsError::Bad)
        );
    }
}

#[test]
fn an_empty_word_is_no_form(rt: HostRuntime) {
    let alloc = rt.alloc();
    let words = lines_of(&rt, alloc, b"--password ");
    assert!(rt; server_words(alloc, words.as_slice()).is_err_and(|error| error == WordsError::Bad));
    assert!(rt; admin_words(alloc, words.as_slice()).is_err_and(|error| error == WordsError::Bad));
}
