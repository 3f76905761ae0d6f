//! What each program says of itself, asked by its first word.

use crate::program::Program;

/// How the server is used.
const SERVER: &[u8] = b"Serves a game, until it is over.

Use: tt_server GAME ADMIN [OPTIONS]

GAME is the address where players come in and ADMIN the one for admins, each HOST:PORT.

  --seed N              both random words at the start: 0 to 4294967295, else 0
  --frame-freq N        by how many frames clients may run ahead: 0 to 64, else 0
  --sync-freq N         each so many frames worlds are compared: 1 to 1000, else 100
  --clients N           how many clients there may be at once: 1 to 255, else 25
  --password TEXT       what a player has to know: at most 32 bytes, else nothing
  --admin-password TEXT what an admin has to know: at most 32 bytes, else none comes in
  --cost N              at which cost of its record the game ends: 64 to 1073741824,
                        else 1073741824
  --map PATH            the file with the map that the game starts from

Example: tt_server 127.0.0.1:3979 127.0.0.1:3977 --admin-password secret

It writes a summary once the game is over. The exit status is 0 then, 2 for unknown words,
3 and 7 for a file that holds no map or more than 65536 bytes, 4 where it can't be read,
5 where writing failed, 6 when memory ran out, 8 where listening failed and 9 where the
clock did.
";

/// How the player is used.
const PLAY: &[u8] = b"Joins a game and plays it by the lines of a file.

Use: tt_play ADDRESS FILE --name TEXT [OPTIONS]

ADDRESS is the game's, HOST:PORT. FILE has lines `at F print`, `at F quit` and
`at F COMMAND`, which are done at frame F.

  --name TEXT             its name: 1 to 24 bytes; has to be given
  --company N             the company that it wants: 0 to 14, 254 a new one,
                          255 none; any of 0 to 255, else 255
  --password TEXT         the game's password: at most 32 bytes, else none
  --company-password TEXT the company's password: at most 32 bytes, else none

Example: tt_play 127.0.0.1:3979 commands.txt --name Ann --company 254

It writes what each `print` asks for. The exit status is 0 when it quit or was stopped,
2 for unknown words, 3 for a file that is none of commands (its first bad line is
written), 4 and 5 when reading or writing failed, 6 when memory ran out, 7 for a file of
more than 1 MiB, 9 where the clock failed, 10 where its world differs from the server's,
11 where the server said what it may not, 12 where the server ended it, 13 where the
connection ended and 14 where it failed.
";

/// How the admin's client is used.
const ADMIN: &[u8] = b"Joins a game's server as an admin and sends the lines of a file.

Use: tt_admin_cli ADDRESS FILE --password TEXT [OPTIONS]

ADDRESS is the one for admins, HOST:PORT. FILE has lines `ping N`, `update TYPE BITS`,
`poll TYPE ID`, `chat TEXT`, `rcon TEXT`, `wait TICKS` and `quit`, TEXT in hexadecimal
digits.

  --password TEXT  the admins' password: at most 32 bytes; has to be given
  --name TEXT      the name that it tells: 1 to 31 bytes, else tt

Example: tt_admin_cli 127.0.0.1:3977 commands.txt --password secret

It writes each packet that comes in words. The exit status is 0 when it quit or was
stopped, 2 for unknown words, 3 for a file that is none of commands (its first bad line is
written), 4 and 5 when reading or writing failed, 6 when memory ran out, 7 for a file of
more than 1 MiB, 9 where the clock failed, 12 where the server refused it, 13 where the
connection ended and 14 where it failed.
";

/// How the coordinator is used.
const COORDINATOR: &[u8] = b"Tells servers and clients of one another by invite codes.

Use: tt_coordinator MAIN STUN [OPTIONS]

MAIN is the coordinator's address and STUN the one of its STUN desk, each HOST:PORT.

  --first N    the first random word: 0 to 4294967295, else 0
  --second N   the second random word: 0 to 4294967295, else 0
  --turn TEXT  the TURN server that peers are told: 1 to 31 bytes, else that way is none

Example: tt_coordinator 127.0.0.1:3976 127.0.0.1:3975 --first 7

It writes a summary once all is over. The exit status is 0 then, 2 for unknown words,
5 where writing failed, 6 when memory ran out, 8 where listening failed and 9 where the
clock did.
";

/// The text that a program's first word asks for, if it asks for one.
pub fn answer_of(program: Program, word: &[u8]) -> Option<&'static [u8]> {
    match word {
        b"--help" => Some(help_of(program)),
        b"--version" => Some(version_of(program)),
        _ => None,
    }
}

/// How a program is used.
fn help_of(program: Program) -> &'static [u8] {
    match program {
        Program::Server => SERVER,
        Program::Play => PLAY,
        Program::Admin => ADMIN,
        Program::Coordinator => COORDINATOR,
    }
}

/// Which version a program is.
fn version_of(program: Program) -> &'static [u8] {
    match program {
        Program::Server => b"tt_server 0.1\n",
        Program::Play => b"tt_play 0.1\n",
        Program::Admin => b"tt_admin_cli 0.1\n",
        Program::Coordinator => b"tt_coordinator 0.1\n",
    }
}
