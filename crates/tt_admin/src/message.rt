//! The messages between an admin and the server.
ghost use Rattle.std.specs.Prelude.{◌≡◌, ◌⊎◌, ℕ, ◌≤◌, ◌+◌, ◌++◌, length, take, IfOk, OnOk, OnErr, Ok, Err};
ghost use Rattle.tt_frame.specs.declared.bad.Bad.TheVariants.{Malformed, Memory};
ghost use Rattle.tt_frame.specs.Packet.{packet, largest_packet};
ghost use Rattle.tt_frame.specs.Unread.{whole};
ghost use Rattle.tt_frame.specs.Tables.{MessageReadOrMemory, StopsBy, name_by, read_by};
ghost use Rattle.tt_frame.specs.Said.{each_said};
ghost use Rattle.tt_frame.specs.Families.{family_said};
ghost use Rattle.tt_admin.specs.Messages.{messages, Spells, TakesMemory};
ghost use Rattle.tt_admin.specs.Apart.{admin_family, kind_of, body_bytes};

use crate::items::{CommandNames, UpdateTypes};
use crate::kinds::{name_of, read, tell_parts};
use std::alloc::Global;
use tt_frame::{Bad, LongText, OutOfMemory, PartWriter, Text, UpTo, finish};

/// A message between an admin and the server. Each field's type holds exactly the values that have a spelling.
#[derive(Debug, PartialEq, Eq, Drop)]
pub enum AdminMsg {
    /// 0, from an admin: it asks to be let in, with the password, and tells its name and its version.
    AdminJoin {
        password: Text<32>,
        application: Text<31>,
        version: Text<31>,
    },
    /// 1, from an admin: it leaves.
    AdminQuit,
    /// 2, from an admin: it wants to be told of this type as the bits say.
    AdminUpdateFrequency {
        kind: u16,
        bits: u16,
    },
    /// 3, from an admin: it asks for this type once, of the client or company `id`, or of all (4,294,967,295).
    AdminPoll {
        kind: u8,
        id: u32,
    },
    /// 4, from an admin: a line for all (scope 0), for the company `to` (1), or for the client `to` (2).
    AdminChat {
        scope: UpTo<2>,
        to: u32,
        text: LongText<899>,
    },
    /// 5, from an admin: a line for the server's console.
    AdminRcon {
        text: LongText<899>,
    },
    /// 6, from an admin: a line for a script of the game.
    AdminGamescript {
        text: LongText<899>,
    },
    /// 7, from an admin: it asks for a pong with this number.
    AdminPing {
        id: u32,
    },
    /// 8, from an admin: a line that a user said somewhere else, the source, and the colour to show it in.
    AdminExternalChat {
        source: Text<31>,
        colour: u16,
        user: Text<31>,
        text: LongText<899>,
    },
    /// 100, from the server: it has no room for the admin, and the connection ends.
    ServerFull,
    /// 101, from the server: the admin may not join. It is never sent.
    ServerBanned,
    /// 102, from the server: the connection ends, for this reason.
    ServerError {
        code: UpTo<20>,
    },
    /// 103, from the server: its version of this protocol, and what may be asked for of each type.
    ServerProtocol {
        version: u8,
        items: UpdateTypes,
    },
    /// 104, from the server: the admin is let in. The game's name and revision, whether the server is dedicated, and its
    /// map: a name, the seed, the landscape, the first day, and its width and height in tiles.
    ServerWelcome {
        name: Text<31>,
        revision: Text<31>,
        dedicated: bool,
        map: Text<31>,
        seed: u32,
        landscape: u8,
        day: u32,
        width: u16,
        height: u16,
    },
    /// 105, from the server: another game begins. It is never sent.
    ServerNewgame,
    /// 106, from the server: the game is over.
    ServerShutdown,
    /// 107, from the server: the day of the game.
    ServerDate {
        day: u32,
    },
    /// 108, from the server: this client plays now.
    ServerClientJoin {
        id: u32,
    },
    /// 109, from the server: a client, its name and its company.
    ServerClientInfo {
        client: u32,
        name: Text<24>,
        company: u8,
    },
    /// 110, from the server: a client's name or company is now this.
    ServerClientUpdate {
        client: u32,
        name: Text<24>,
        company: u8,
    },
    /// 111, from the server: this client left.
    ServerClientQuit {
        id: u32,
    },
    /// 112, from the server: this client was ended, for this reason.
    ServerClientError {
        id: u32,
        code: UpTo<20>,
    },
    /// 113, from the server: this company was founded.
    ServerCompanyNew {
        id: u8,
    },
    /// 114, from the server: a company, its name, its president, and whether it wants a password.
    ServerCompanyInfo {
        company: u8,
        name: Text<31>,
        president: Text<31>,
        password: bool,
    },
    /// 115, from the server: a company's name, president or password is now this.
    ServerCompanyUpdate {
        company: u8,
        name: Text<31>,
        president: Text<31>,
        password: bool,
    },
    /// 116, from the server: this company is no more, for this reason. It is never sent.
    ServerCompanyRemove {
        id: u8,
        reason: u8,
    },
    /// 117, from the server: a company's money, a negative amount in two's complement, and its loan.
    ServerCompanyEconomy {
        company: u8,
        money: u64,
        loan: u32,
    },
    /// 118, from the server: how many signs a company owns.
    ServerCompanyStats {
        company: u8,
        signs: u16,
    },
    /// 119, from the server: a line that this client said, in that scope.
    ServerChat {
        scope: UpTo<2>,
        client: u32,
        text: LongText<899>,
    },
    /// 120, from the server: a line that the console answers, and the colour to show it in.
    ServerRcon {
        colour: u16,
        text: LongText<899>,
    },
    /// 121, from the server: a line on its console, and where it comes from.
    ServerConsole {
        origin: Text<31>,
        text: LongText<899>,
    },
    /// 122, from the server: the commands of a game, by code and name.
    ServerCmdNames {
        items: CommandNames,
    },
    /// 123, from the server. It is never sent.
    ServerCmdLoggingOld,
    /// 124, from the server: a line from a script of the game. It is never sent.
    ServerGamescript {
        text: LongText<899>,
    },
    /// 125, from the server: the console has answered this line.
    ServerRconEnd {
        text: LongText<899>,
    },
    /// 126, from the server: the answer to the ping with this number.
    ServerPong {
        id: u32,
    },
    /// 127, from the server: a command was given, by a client for its company, to be run at this frame.
    ServerCmdLogging {
        client: u32,
        company: u8,
        code: u16,
        frame: u32,
    },
}

impl AdminMsg {
    /// The name of the message of that number, or no letters where no message has it.
    pub fn name_of(kind: u8) -> &'static [u8]
        ensures { result.now ≡ name_by messages kind }
    {
        name_of(kind)
    }

    /// The message that a packet of this number and body spells, or why it spells none.
    pub fn decode(alloc: Global, kind: u8, body: &[u8]) -> Result<AdminMsg, Bad>
        // What is read is spelled so.
        ensures found { IfOk result (λ m. Spells m kind body.now) }
        // What is spelled so is read, unless memory runs out, and that only for the kinds that take some: those with a list or
        // with a text of up to 899 bytes.
        ensures only { (m : AdminMsg) → Spells m kind body.now → (result ≡ Ok m) ⊎ (result ≡ Err Memory) }
        ensures memory { result ≡ Err Memory → TakesMemory kind }

        // It is malformed only where nothing is spelled, and the place is that of the first field that isn't there, or of
        // the first byte behind the last field, or 0 where no message has the number.
        ensures nothing { (at : ℕ) (m : AdminMsg) → result ≡ Err (Malformed at) → Spells m kind body.now → ⊥ }
        ensures place { (at : ℕ) → result ≡ Err (Malformed at) → StopsBy messages kind body.now at }

        // All of this in one: the answer is what reading the body by the table gives.
        ensures exact { MessageReadOrMemory result (read_by messages kind (whole body.now)) }
    {
        read(alloc, kind, body)
    }

    /// Tells the message's head and its parts, in order: what a writer writes for them stands behind what stood there.
    pub fn tell<W: PartWriter>(&self, to: &mut W) -> Result<(), OutOfMemory>
        ensures ok { OnOk result (W.text to.new ≡ W.text to.old ++ each_said W.word (family_said admin_family self.now)) }
        ensures err { OnErr result (take (length (W.text to.old)) (W.text to.new) ≡ W.text to.old) }
    {
        tell_parts(self, to)
    }

    /// Appends the packet of the message, or nothing where memory is refused.
    pub fn encode(&self, out: &mut Vec<u8>) -> Result<(), OutOfMemory>
        // What is appended is one packet, whose number and body spell the message.
        ensures ok { OnOk result (out.new.items ≡ out.old.items ++ packet (kind_of self.now) (body_bytes self.now)) }
        ensures spelled { Spells self.now (kind_of self.now) (body_bytes self.now) }
        ensures size { length (body_bytes self.now) + 3 ≤ largest_packet }

        ensures err { OnErr result (out.new.items ≡ out.old.items) }
    {
        let start = out.len();
        let written = tell_parts(self, out);
        finish(out, start, written)
    }
}
