//! The messages between a client and the server of a game.
ghost use Rattle.std.specs.Prelude.{◌≡◌, ◌⊎◌, ℕ, ◌≤◌, ◌+◌, ◌++◌, length, take, IfOk, OnOk, OnErr, Ok, Err};
ghost use Rattle.tt_frame.specs.declared.bad.Bad.TheVariants.{Malformed, Memory};
ghost use Rattle.tt_frame.specs.Packet.{packet, largest_packet};
ghost use Rattle.tt_frame.specs.Unread.{whole};
ghost use Rattle.tt_frame.specs.Tables.{MessageReadOrMemory, StopsBy, name_by, read_by};
ghost use Rattle.tt_frame.specs.Said.{each_said};
ghost use Rattle.tt_frame.specs.Families.{family_said};
ghost use Rattle.tt_game.specs.Messages.{messages, Spells, TakesMemory};
ghost use Rattle.tt_game.specs.Apart.{game_family, kind_of, body_bytes};

use crate::files::Files;
use crate::kinds::{name_of, read, tell_parts};
use crate::map_piece::MapPiece;
use std::alloc::Global;
use tt_frame::{Bad, Digest, LongText, OutOfMemory, PartWriter, Text, UpTo, finish};

/// A message between a client and the server. Each field's type holds exactly the values that have a spelling.
#[derive(Debug, PartialEq, Eq, Drop)]
pub enum GameMsg {
    /// 0, from the server: it has no room for the client, and the connection ends.
    ServerFull,
    /// 1, from the server: the client may not join. It is never sent.
    ServerBanned,
    /// 2, from a client: it asks to join, with its revision and NewGRF version, its name, and the company that it wants
    /// (255 none, 254 a new one).
    ClientJoin {
        revision: Text<31>,
        grf: u32,
        name: Text<24>,
        company: u8,
    },
    /// 3, from the server: the connection ends, for this reason.
    ServerError {
        code: UpTo<20>,
    },
    /// 4, from a client: it asks what game this is.
    ClientGameInfo,
    /// 5, from the server: the game, with its name, its frame, how many clients and companies it has, how many clients
    /// it takes, and whether it wants a password.
    ServerGameInfo {
        name: Text<31>,
        frame: u32,
        clients: u8,
        companies: u8,
        max: u8,
        password: bool,
    },
    /// 6, from the server: the files that the client must have. It is never sent.
    ServerCheckNewgrfs {
        items: Files,
    },
    /// 7, from a client: it has all the files.
    ClientNewgrfsChecked,
    /// 8, from the server: the game wants a password, salted by this seed and id.
    ServerNeedGamePassword {
        seed: u32,
        id: Text<31>,
    },
    /// 9, from a client: the digest of the game's password.
    ClientGamePassword {
        digest: Digest,
    },
    /// 10, from the server: the company wants a password, salted by this seed and id.
    ServerNeedCompanyPassword {
        seed: u32,
        id: Text<31>,
    },
    /// 11, from a client: the digest of the company's password.
    ClientCompanyPassword {
        digest: Digest,
    },
    /// 12, from the server: the client is let in, by this number. Seed and id salt its passwords.
    ServerWelcome {
        client: u32,
        seed: u32,
        id: Text<31>,
    },
    /// 13, from a client: it asks for the map.
    ClientGetmap,
    /// 14, from the server: the map comes later, since so many clients are before this one.
    ServerWait {
        number: u8,
    },
    /// 15, from the server: the map begins, as it was at this frame.
    ServerMapBegin {
        frame: u32,
    },
    /// 16, from the server: the map has so many bytes.
    ServerMapSize {
        size: u32,
    },
    /// 17, from the server: the next piece of the map.
    ServerMapData {
        rest: MapPiece,
    },
    /// 18, from the server: the map is whole.
    ServerMapDone,
    /// 19, from a client: it holds the map's world.
    ClientMapOk,
    /// 20, from the server: this client plays now.
    ServerJoin {
        client: u32,
    },
    /// 21, from the server: it is at this frame, and clients may run up to the frame `max`. A token other than 0 is to be
    /// given back, so that the server learns that its stream is read.
    ServerFrame {
        frame: u32,
        max: u32,
        token: u8,
    },
    /// 22, from the server: at this frame the world's random word is this.
    ServerSync {
        frame: u32,
        word: u32,
    },
    /// 23, from a client: it has run up to this frame, and gives this token back; 0 gives none.
    ClientAck {
        frame: u32,
        token: u8,
    },
    /// 24, from a client: a command of its company, to be run by all. `code` says which, and number, `to` and text are
    /// what it wants.
    ClientCommand {
        company: u8,
        code: u16,
        number: u32,
        to: u8,
        text: Text<31>,
    },
    /// 25, from the server: a command that all run at this frame, and the client that gave it.
    ServerCommand {
        company: u8,
        code: u16,
        number: u32,
        to: u8,
        text: Text<31>,
        frame: u32,
        sender: u32,
    },
    /// 26, from a client: a line for all (scope 0), for the company `to` (1), or for the client `to` (2).
    ClientChat {
        scope: UpTo<2>,
        to: u32,
        text: LongText<899>,
    },
    /// 27, from the server: a line that this client said, in that scope.
    ServerChat {
        client: u32,
        scope: UpTo<2>,
        text: LongText<899>,
    },
    /// 28, from a client: its new name.
    ClientSetName {
        name: Text<24>,
    },
    /// 29, from the server: a client, its company and its name.
    ServerClientInfo {
        client: u32,
        company: u8,
        name: Text<24>,
    },
    /// 30, from a client: its company's new password, or none.
    ClientSetPassword {
        digest: Option<Digest>,
    },
    /// 31, from a client: it moves to this company, which may want a password.
    ClientMove {
        company: u8,
        digest: Option<Digest>,
    },
    /// 32, from the server: this client moved to this company.
    ServerMove {
        client: u32,
        company: u8,
    },
    /// 33, from a client: it leaves, for this reason.
    ClientError {
        code: UpTo<20>,
    },
    /// 34, from the server: this client was ended, for this reason.
    ServerErrorQuit {
        client: u32,
        code: UpTo<20>,
    },
    /// 35, from a client: it leaves.
    ClientQuit,
    /// 36, from the server: this client left.
    ServerQuit {
        client: u32,
    },
    /// 37, from the server: the game is over.
    ServerShutdown,
    /// 38, from the server: another game begins. It is never sent.
    ServerNewgame,
}

impl GameMsg {
    /// The name of the message of that number, or no letters where no message has it.
    pub fn name_of(kind: u8) -> &'static [u8]
        ensures { result.now ≡ name_by messages kind }
    {
        name_of(kind)
    }

    /// The message that a packet of this number and body spells, or why it spells none.
    pub fn decode(alloc: Global, kind: u8, body: &[u8]) -> Result<GameMsg, Bad>
        // What is read is spelled so.
        ensures found { IfOk result (λ m. Spells m kind body.now) }
        // What is spelled so is read, unless memory runs out, and that only for the four kinds that take some: the files, a
        // piece of the map, and a line of chat both ways.
        ensures only { (m : GameMsg) → Spells m kind body.now → (result ≡ Ok m) ⊎ (result ≡ Err Memory) }
        ensures memory { result ≡ Err Memory → TakesMemory kind }

        // It is malformed only where nothing is spelled, and the place is that of the first field that isn't there, or of
        // the first byte behind the last field, or 0 where no message has the number.
        ensures nothing { (at : ℕ) (m : GameMsg) → result ≡ Err (Malformed at) → Spells m kind body.now → ⊥ }
        ensures place { (at : ℕ) → result ≡ Err (Malformed at) → StopsBy messages kind body.now at }

        // All of this in one: the answer is what reading the body by the table gives.
        ensures exact { MessageReadOrMemory result (read_by messages kind (whole body.now)) }
    {
        read(alloc, kind, body)
    }

    /// Tells the message's head and its parts, in order: what a writer writes for them stands behind what stood there.
    pub fn tell<W: PartWriter>(&self, to: &mut W) -> Result<(), OutOfMemory>
        ensures ok { OnOk result (W.text to.new ≡ W.text to.old ++ each_said W.word (family_said game_family self.now)) }
        ensures err { OnErr result (take (length (W.text to.old)) (W.text to.new) ≡ W.text to.old) }
    {
        tell_parts(self, to)
    }

    /// Appends the packet of the message, or nothing where memory is refused.
    pub fn encode(&self, out: &mut Vec<u8>) -> Result<(), OutOfMemory>
        // What is appended is one packet, whose number and body spell the message.
        ensures ok { OnOk result (out.new.items ≡ out.old.items ++ packet (kind_of self.now) (body_bytes self.now)) }
        ensures spelled { Spells self.now (kind_of self.now) (body_bytes self.now) }
        ensures size { length (body_bytes self.now) + 3 ≤ largest_packet }

        ensures err { OnErr result (out.new.items ≡ out.old.items) }
    {
        let start = out.len();
        let written = tell_parts(self, out);
        finish(out, start, written)
    }
}
