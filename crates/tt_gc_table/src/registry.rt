//! The registered servers and the drawn codes: found by key, room taken before any change.
ghost use Rattle.std.specs.Prelude.{◌≡◌, ◌≤◌, false, [], ◌∷◌, ◌++◌, length, OnOk, filter, not, find, option_map, is_some};
ghost use Rattle.std.specs.Str.{bytes_eq};
ghost use Rattle.std.specs.Prelude.{map, cond, Some};
ghost use Rattle.std.specs.Option.{option_copied};
ghost use Rattle.std.specs.Prelude.{ℕ, List, IfSome, IfOk};
ghost use Rattle.tt_coord.specs.declared.coord.CoordMsg.TheVariants.{GcListing};
ghost use Rattle.tt_attempts.specs.Codes.{words_behind, drawn_characters};
ghost use Rattle.tt_gc_table.specs.Table.{NoneTwice};
ghost use Rattle.tt_gc_table.specs.Deed.{each};
ghost use Rattle.tt_gc_table.specs.Told.{bytes_to};
ghost use Rattle.tt_gc_table.specs.Tells.{told_to};
ghost use Rattle.tt_gc_table.specs.PacketRules.{is_known, is_listed, tells_server, listed_item};
ghost use Rattle.tt_gc_table.specs.Registry.{IsSame, servers_of, drawn_of, server_at, drawn_at};

use crate::codes::code_text;
use crate::parts::Parts;
use crate::tells::Tells;
use indexmap::IndexMap;
use std::alloc::Global;
use std::marker::Model;
use tt_attempts::{InviteCode, draw_characters};
use tt_coord::{CoordMsg, Info, Listed};
use tt_frame::{Items, OutOfMemory, Text};
use tt_world::Random;

/// A registered server, but for its code.
#[derive(Debug, PartialEq, Eq, Drop)]
pub struct Served {
    pub conn: u32,
    pub kind: u8,
    pub port: u16,
    /// What it said last of its game.
    pub info: Option<Info>,
}

/// The secret of a drawn code.
#[derive(Clone, Copy, Debug, PartialEq, Eq)]
pub struct Secret {
    text: [u8; 32],
}

impl Model for Secret {
    ghost use Rattle.std.specs.Prelude.{List, ℕ, ◌≡◌, true};
    ghost use Rattle.std.specs.List.{list_all};
    ghost use Rattle.tt_attempts.specs.Codes.{is_character};

    ghost Value = { List ℕ };

    ghost view = { λ s. s.text };

    ghost invariant = { λ s. list_all is_character s.text ≡ true };

    ghost inverse = { λ bytes. record { text = bytes } };
}

impl Secret {
    /// Draws a secret: 32 characters.
    pub fn draw(random: &mut Random) -> Secret
        ensures words { random.new ≡ words_behind 32 random.old }
        ensures drawn { result ≡ drawn_characters 32 random.old }
    {
        let mut text = [0; 32];
        draw_characters(random, &mut text);
        Secret { text }
    }

    /// Its characters, as a text.
    pub fn text(&self) -> Text<32>
        ensures { result ≡ self.now }
    {
        let bytes = &self.text;
        match Text::new(bytes.as_slice()) {
            Some(text) => text,
            None => unreachable!(),
        }
    }

    /// Whether it is these bytes.
    pub fn is(&self, bytes: &[u8]) -> bool
        ensures { result ≡ bytes_eq bytes.now self.now }
    {
        bytes == self.text.as_slice()
    }
}

/// Whether a server is public, and its game is of this revision.
fn is_listed(served: &Served, revision: &[u8]) -> bool
    ensures { (code : List ℕ) → is_listed revision.now (server_at (code, served.now)) ≡ result }
{
    match &served.info {
        Some(info) => served.kind == 1 && revision == info.revision.bytes(),
        None => false,
    }
}

/// Plans what tells a server in a listing, if it is listed.
fn tell_row(
    alloc: Global,
    out: &mut Tells,
    parts: &Parts,
    conn: u32,
    revision: &[u8],
    code: &InviteCode,
    served: &Served,
) -> Result<(), OutOfMemory>
    ensures told { OnOk result ((c : ℕ) → told_to c out.new ≡ told_to c out.old
        ++ bytes_to c (each (filter (is_listed revision.now) (server_at (code.now, served.now) ∷ [])) (tells_server conn) parts.now).told) }
{
    if !is_listed(served, revision) {
        return Ok(());
    }
    let Some(info) = &served.info else {
        return Ok(());
    };
    let message = one_row(alloc, code, info)?;
    out.tell(alloc, parts, conn, &message)?;
    Ok(())
}

/// The message that lists one server.
fn one_row(alloc: Global, code: &InviteCode, info: &Info) -> Result<CoordMsg, OutOfMemory>
    ensures { IfOk result (λ m. m ≡ GcListing (listed_item code.now info.now ∷ [])) }
{
    let mut items = Items::new(alloc);
    items.push(row(code, info))?;
    Ok(CoordMsg::GcListing { items })
}

/// A server as a listing tells it.
fn row(code: &InviteCode, info: &Info) -> Listed
    ensures { result ≡ listed_item code.now info.now }
{
    Listed {
        code: code_text(code),
        info: Info {
            name: info.name.copy(),
            revision: info.revision.copy(),
            clients: info.clients,
            max: info.max,
            companies: info.companies,
            password: info.password,
            frame: info.frame,
        },
    }
}

/// What is registered, in order of registration, and what was drawn.
#[derive(Drop)]
pub struct Registry {
    servers: IndexMap<InviteCode, Served>,
    drawn: IndexMap<InviteCode, Secret>,
}

impl Model for Registry {
    ghost use Rattle.std.specs.Prelude.{min};
    ghost use Rattle.indexmap.specs.IndexMap.{spare};
    ghost use Rattle.std.specs.Prelude.{map, cond, Some};
    ghost use Rattle.std.specs.Option.{option_copied};
    ghost use Rattle.tt_gc_table.specs.Registry.{RegistryState, AreCodes};

    ghost Value = { RegistryState };

    ghost view = { λ r. record { servers = r.servers.entries; drawn = r.drawn.entries; room = min (spare r.servers) (spare r.drawn) } };

    ghost invariant = { λ r. AreCodes r.servers.entries × AreCodes r.drawn.entries };
}

impl Registry {
    /// Takes room for one more of each.
    pub fn reserve(&mut self) -> Result<(), OutOfMemory>
        ensures same { IsSame self.old self.new }
        ensures room { OnOk result (1 ≤ self.new.room) }
    {
        self.servers.reserve(1)?;
        self.drawn.reserve(1)?;
        Ok(())
    }

    /// Nothing is registered, and nothing was drawn. It takes no memory.
    pub fn new(alloc: Global) -> Registry
        ensures servers { result.servers ≡ [] }
        ensures drawn { result.drawn ≡ [] }
    {
        Registry {
            servers: IndexMap::new(alloc),
            drawn: IndexMap::new(alloc),
        }
    }

    /// The live server whose code these bytes are.
    pub fn server_named(&self, text: &[u8]) -> Option<&Served>
        ensures { option_map (λ v. server_at (text.now, v)) (option_copied result)
            ≡ find (λ v. bytes_eq text.now v.code) (servers_of self.now) }
    {
        let servers = &self.servers;
        let Some(code) = InviteCode::parse(text) else {
            return None;
        };
        servers.get(&code)
    }

    /// The secret of the drawn code that these bytes are.
    pub fn secret_named(&self, text: &[u8]) -> Option<Secret>
        ensures { option_map (λ secret. drawn_at (text.now, secret)) result ≡ find (λ d. bytes_eq text.now d.code) (drawn_of self.now) }
    {
        let drawn = &self.drawn;
        let Some(code) = InviteCode::parse(text) else {
            return None;
        };
        drawn.get(&code).copied()
    }

    /// The drawn code that these bytes are, where its secret is this one.
    pub fn known(&self, text: &[u8], secret: &[u8]) -> Option<InviteCode>
        ensures known { is_some result ≡ is_known secret.now (find (λ d. bytes_eq text.now d.code) (drawn_of self.now)) }
        ensures same { IfSome result (λ code. code ≡ text.now) }
    {
        let _drawn = &self.drawn;
        let kept = self.secret_named(text)?;
        if !kept.is(secret) {
            return None;
        }
        InviteCode::parse(text)
    }

    /// How many codes were drawn. No code was drawn twice.
    pub fn drawn_count(&self) -> usize
        ensures count { result ≡ length (drawn_of self.now) }
        ensures none_twice { NoneTwice (drawn_of self.now) }
    {
        self.drawn.len()
    }

    /// Plans what tells the servers that are listed, in order of registration, each in a packet of its own.
    pub fn tell_listed(
        &self,
        alloc: Global,
        out: &mut Tells,
        parts: &Parts,
        conn: u32,
        revision: &[u8],
    ) -> Result<(), OutOfMemory>
        ensures told { OnOk result ((c : ℕ) → told_to c out.new ≡ told_to c out.old
            ++ bytes_to c (each (filter (is_listed revision.now) (servers_of self.now)) (tells_server conn) parts.now).told) }
    {
        for (code, served) in self.servers.iter() {
            tell_row(alloc, out, parts, conn, revision, code, served)?;
        }
        Ok(())
    }

    /// The server with this code, if there is one, says this of its game.
    pub fn update(&mut self, code: &InviteCode, info: Info)
        ensures servers { servers_of self.new ≡ map (λ v. cond (bytes_eq code.now v.code) (record v { info = Some info }) v)
            (servers_of self.old) }
        ensures drawn { drawn_of self.new ≡ drawn_of self.old }
    {
        let Some(served) = self.servers.get_mut(code) else {
            return;
        };
        served.info = Some(info);
    }

    /// How many servers are registered.
    pub fn count(&self) -> usize
        ensures { result ≡ length (servers_of self.now) }
    {
        self.servers.len()
    }

    /// Keeps a code that is drawn now, with its secret, and registers a server by it. No memory is taken.
    pub fn draw(&mut self, code: InviteCode, secret: Secret, served: Served)
        requires room { 1 ≤ self.old.room }
        requires not_drawn { is_some (find (λ d. bytes_eq code d.code) (drawn_of self.old)) ≡ false }
        requires not_live { is_some (find (λ v. bytes_eq code v.code) (servers_of self.old)) ≡ false }
        ensures drawn { drawn_of self.new ≡ drawn_of self.old ++ drawn_at (code, secret) ∷ [] }
        ensures servers { servers_of self.new ≡ servers_of self.old ++ server_at (code, served) ∷ [] }
    {
        // By this call the check knows that it is a code.
        let _text = code.text();
        if self.drawn.insert(code, secret).is_err() {
            unreachable!();
        }
        if self.servers.insert(code, served).is_err() {
            unreachable!();
        }
    }

    /// The server with this code isn't registered any more; those after it move up.
    pub fn leave(&mut self, code: &InviteCode)
        ensures servers { servers_of self.new ≡ filter (λ v. not (bytes_eq code.now v.code)) (servers_of self.old) }
        ensures drawn { drawn_of self.new ≡ drawn_of self.old }
    {
        let _gone = self.servers.shift_remove(code);
    }

    /// Registers a server by a code that isn't live. No memory is taken.
    pub fn register(&mut self, code: InviteCode, served: Served)
        requires room { 1 ≤ self.old.room }
        requires not_live { is_some (find (λ v. bytes_eq code v.code) (servers_of self.old)) ≡ false }
        ensures servers { servers_of self.new ≡ servers_of self.old ++ server_at (code, served) ∷ [] }
        ensures drawn { drawn_of self.new ≡ drawn_of self.old }
    {
        // By this call the check knows that it is a code.
        let _text = code.text();
        if self.servers.insert(code, served).is_err() {
            unreachable!();
        }
    }
}
