//! What the program says of itself, asked by its first word.

/// How it is used.
const HELP: &[u8] = b"Plays a game's script, or tells packets in words.

Use: tt_replay run < SCRIPT     writes the report of the script's game
     tt_replay check < SCRIPT   writes whether that report is as the script expects it
     tt_replay show < LIST      writes the text of a list's packets, a line each
     tt_replay make N           writes the script of an hour's game, made from the number N
     tt_replay hour N           plays that script, and writes its game in numbers

The first three read from standard input, and all write to standard output. A script's lines
`= LINE` are what it expects of its report. A list has lines `game HEX`, `admin HEX`,
`coord HEX`, `stun HEX` or `turn HEX`, each with some bytes of a stream of that family
in hexadecimal digits. N is a number of 32 bits, in decimal. The exit status is 0 when
all was done, 1 for a report that is not as expected (the first place is written), 2 for
unknown words, 3 for an input that is no script or no list (its first bad line is
written), 4 and 5 when reading or writing failed, 6 when memory ran out, and 7 for an
input of more than 64 MiB. Nothing is written to standard error.
";

/// Which version it is.
const VERSION: &[u8] = b"tt_replay 0.1\n";

/// The text that a first word asks for, if it asks for one.
pub fn answer_of(word: &[u8]) -> Option<&'static [u8]> {
    match word {
        b"--help" => Some(HELP),
        b"--version" => Some(VERSION),
        _ => None,
    }
}
