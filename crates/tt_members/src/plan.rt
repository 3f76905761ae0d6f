//! A plan: what changes, and what is told.
ghost use Rattle.std.specs.Prelude.{◌≡◌, ◌++◌, ◌∷◌, [], Some, None, true, OnOk, option_map};
ghost use Rattle.tt_members.specs.Planned.{nothing, IsPlain};
ghost use Rattle.tt_members.specs.Steps.{says};
ghost use Rattle.tt_members.specs.declared.step.Audience.TheVariants.{One};

use crate::edit::{Beat, Edit, Offer};
use crate::member::Member;
use crate::step::{Audience, Step, Steps};
use std::alloc::Global;
use std::marker::Model;
use tt_frame::{Digest, OutOfMemory, Text};
use tt_log::deed::What;
use tt_world::Command;

/// What an event will do: another name of a member, a command that waits, changes of members and queue in order, who stands
/// last in the queue from then on, whether a client number more is given, who is a member from then on, what goes on the
/// server's own list, the password of a company, the random words of the tokens, the frame that is run, and the steps.
///
/// Its lists can be kept and filled again. Contracts see all that it holds as plain data.
#[derive(Drop)]
pub struct Plan {
    pub(crate) names: Option<(u32, Text<24>)>,
    pub(crate) offers: Option<Offer>,
    pub(crate) edits: Vec<Edit>,
    pub(crate) asks: Option<u32>,
    pub(crate) counts: bool,
    pub(crate) arrives: Option<Member>,
    pub(crate) orders: Option<Command>,
    pub(crate) locks: Option<(u8, Option<Digest>)>,
    pub(crate) words: Option<(u32, u32)>,
    pub(crate) beat: Option<Beat>,
    pub(crate) steps: Steps,
}

impl Model for Plan {
    ghost use Rattle.tt_members.specs.Planned.{Planned};

    ghost Value = { Planned };

    ghost view = { λ p. record {
      names = p.names;
      offers = p.offers;
      edits = p.edits.items;
      asks = p.asks;
      counts = p.counts;
      arrives = p.arrives;
      orders = p.orders;
      locks = p.locks;
      words = p.words;
      beat = p.beat;
      steps = p.steps;
    } };
}

impl Plan {
    /// Nothing is done. It takes no memory yet.
    pub fn new(alloc: Global) -> Plan
        ensures nothing { result ≡ nothing }
    {
        Plan {
            names: None,
            offers: None,
            edits: Vec::new(alloc),
            asks: None,
            counts: false,
            arrives: None,
            orders: None,
            locks: None,
            words: None,
            beat: None,
            steps: Steps::new(alloc),
        }
    }

    /// Nothing is done by it any more. The memory of its lists is kept.
    pub fn clear(&mut self)
        ensures nothing { self.new ≡ nothing }
    {
        self.names = None;
        self.offers = None;
        self.edits.clear();
        self.asks = None;
        self.counts = false;
        self.arrives = None;
        self.orders = None;
        self.locks = None;
        self.words = None;
        self.beat = None;
        self.steps.clear();
    }

    /// What is told, in order.
    pub fn steps(&self) -> &[Step]
        ensures steps { result.now ≡ self.now.steps }
    {
        let steps = &self.steps;
        steps.list()
    }

    /// The changes so far.
    pub fn edits(&self) -> &[Edit]
        ensures edits { result.now ≡ self.now.edits }
    {
        self.edits.as_slice()
    }

    /// The company whose password changes, and its digest from then on, or that it has none.
    pub fn locks(&self) -> &Option<(u8, Option<Digest>)>
        ensures locks { result.now ≡ self.now.locks }
    {
        &self.locks
    }

    /// One change more.
    pub fn change(&mut self, edit: Edit) -> Result<(), OutOfMemory>
        ensures edits { OnOk result (self.new.edits ≡ self.old.edits ++ edit ∷ []) }
        ensures steps { self.new.steps ≡ self.old.steps }
        ensures plain { IsPlain self.old self.new }
    {
        self.edits.push(edit)?;
        Ok(())
    }

    /// One step more.
    pub fn tell(&mut self, to: Audience, what: What) -> Result<(), OutOfMemory>
        ensures steps { OnOk result (self.new.steps ≡ self.old.steps ++ says to what ∷ []) }
        ensures edits { self.new.edits ≡ self.old.edits }
        ensures plain { IsPlain self.old self.new }
    {
        self.steps.tell(to, what)
    }

    /// One connection is told something.
    pub fn tell_one(&mut self, conn: u32, what: What) -> Result<(), OutOfMemory>
        ensures steps { OnOk result (self.new.steps ≡ self.old.steps ++ says (One conn) what ∷ []) }
        ensures edits { self.new.edits ≡ self.old.edits }
        ensures plain { IsPlain self.old self.new }
    {
        self.steps.tell_one(conn, what)
    }

    /// A member has another name from then on.
    pub fn rename(&mut self, conn: u32, name: Text<24>)
        ensures { self.new ≡ record self.old { names = Some (conn, name) } }
    {
        self.names = Some((conn, name));
    }

    /// A command of a member waits from then on.
    pub fn offer(&mut self, offer: Offer)
        ensures { self.new ≡ record self.old { offers = Some offer } }
    {
        self.offers = Some(offer);
    }

    /// A connection stands last in the queue from then on.
    pub fn ask(&mut self, conn: u32)
        ensures { self.new ≡ record self.old { asks = Some conn } }
    {
        self.asks = Some(conn);
    }

    /// A client number more is given.
    pub fn count(&mut self)
        ensures { self.new ≡ record self.old { counts = true } }
    {
        self.counts = true;
    }

    /// A member comes in.
    pub fn bring(&mut self, member: Member)
        ensures { self.new ≡ record self.old { arrives = Some member } }
    {
        self.arrives = Some(member);
    }

    /// A command goes on the server's own list.
    pub fn order(&mut self, command: Command)
        ensures { self.new ≡ record self.old { orders = Some command } }
    {
        self.orders = Some(command);
    }

    /// A company has this digest from then on, or none.
    pub fn lock(&mut self, company: u8, digest: Option<Digest>)
        ensures { self.new ≡ record self.old { locks = Some (company, digest) } }
    {
        self.locks = Some((company, digest));
    }

    /// These are the random words of the tokens from then on.
    pub fn draw(&mut self, words: (u32, u32))
        ensures { self.new ≡ record self.old { words = Some words } }
    {
        self.words = Some(words);
    }

    /// A frame is run.
    pub fn run(&mut self, beat: Beat)
        ensures { self.new ≡ record self.old { beat = Some beat } }
    {
        self.beat = Some(beat);
    }
}
