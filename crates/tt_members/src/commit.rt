//! Puts a plan in force, part by part. It takes no memory: each list has room for what comes behind it.
ghost use Rattle.std.specs.Prelude.{◌≡◌, ◌≤◌, ◌<◌, ◌+◌, ◌-◌, ◌^◌, ◌++◌, ◌∷◌, [], None, filter, length, not, nat_lt, ◌==◌};
ghost use Rattle.std.specs.Prelude.{vec_len, vec_capacity};
ghost use Rattle.tt_log.specs.Table.{option_list};
ghost use Rattle.tt_members.specs.Crew.{founders_in};
ghost use Rattle.tt_members.specs.Done.{behind, counted, digests_behind, founders_behind, in_place, members_behind, own_behind, renamed};
ghost use Rattle.tt_members.specs.Edits.{queue_after};
ghost use Rattle.tt_members.specs.Rules.{Rise, HasRoom};
ghost use Rattle.tt_members.specs.Steps.{stamped_in};

use crate::member::Member;
use crate::order::{apply_all, offer, rename};
use crate::plan::Plan;
use crate::queue::Queue;
use crate::step::Step;
use tt_frame::Digest;
use tt_log::deed::What;
use tt_world::{Code, Command};

impl Plan {
    /// Puts in force what concerns members and queue.
    pub fn put_members(&mut self, members: &mut Vec<Member>, queue: &mut Queue)
        requires rise { Rise members.old.items }
        requires waits { HasRoom self.old.offers (renamed self.old.names members.old.items) }
        requires room { 1 ≤ vec_capacity members.old - vec_len members.old }
        requires queue_room { 1 ≤ queue.old.room }
        ensures members { members.new.items ≡ members_behind self.old members.old.items }
        ensures queue { queue.new.conns ≡ behind self.old.asks (queue_after self.old.edits queue.old.conns) }
        ensures rest { self.new ≡ record self.old { names = None; offers = None; asks = None; arrives = None } }
    {
        rename(members, self.names.take());
        offer(members, self.offers.take());
        apply_all(&self.edits, members, queue);
        ask(queue, self.asks.take());
        put_last(members, self.arrives.take());
    }

    /// Puts in force what concerns the passwords of companies.
    pub fn put_digests(&self, digests: &mut Vec<(u8, Digest)>)
        requires { 1 ≤ vec_capacity digests.old - vec_len digests.old }
        ensures { digests.new.items ≡ digests_behind self.now.locks digests.old.items }
    {
        let Some((company, digest)) = self.locks else {
            return;
        };
        unlock(digests, company);
        put_last(digests, digest.map(|digest| (company, digest)));
    }

    /// Puts in force what concerns the server's own list.
    pub fn put_orders(&mut self, own: &mut Vec<Command>)
        requires { 1 ≤ vec_capacity own.old - vec_len own.old }
        ensures own { own.new.items ≡ own_behind self.old.beat self.old.orders own.old.items }
        ensures rest { self.new ≡ record self.old { orders = None } }
    {
        if self.beat.is_some() {
            own.clear();
        }
        put_last(own, self.orders.take());
    }

    /// Puts in force what concerns the founders.
    pub fn put_founders(&self, founders: &mut Vec<(u32, u32)>)
        requires { length (founders_in (stamped_in self.now.steps)) ≤ vec_capacity founders.old - vec_len founders.old }
        ensures { founders.new.items ≡ founders_behind self.now.beat (founders.old.items ++ founders_in (stamped_in self.now.steps)) }
    {
        add_founders(founders, self.steps());
        if let Some(beat) = self.beat {
            drop_founders(founders, beat.frame);
        }
    }

    /// The random words of the tokens behind it.
    pub fn words_behind(&self, words: (u32, u32)) -> (u32, u32)
        ensures words { result ≡ in_place self.now.words words }
    {
        self.words.unwrap_or(words)
    }

    /// The last client number given behind it.
    pub fn clients_behind(&self, clients: u32) -> u32
        requires { counted self.now.counts clients < 2 ^ 32 }
        ensures clients { result ≡ counted self.now.counts clients }
    {
        if self.counts { clients + 1 } else { clients }
    }
}

/// One more behind a list that has room, or none.
fn put_last<T: Drop>(list: &mut Vec<T>, last: Option<T>)
    requires { 1 ≤ vec_capacity list.old - vec_len list.old }
    ensures items { list.new.items ≡ behind last list.old.items }
{
    if let Some(item) = last {
        let _ = list.push(item);
    }
}

/// A connection stands last in the queue, if there is one.
fn ask(queue: &mut Queue, last: Option<u32>)
    requires { 1 ≤ queue.old.room }
    ensures conns { queue.new.conns ≡ behind last queue.old.conns }
{
    if let Some(conn) = last {
        let _ = queue.ask(conn);
    }
}

/// A company has no digest any more.
fn unlock(digests: &mut Vec<(u8, Digest)>, company: u8)
    ensures digests { digests.new.items ≡ filter (λ d. not (d.0 == company)) digests.old.items }
    ensures room { vec_capacity digests.old - vec_len digests.old ≤ vec_capacity digests.new - vec_len digests.new }
{
    digests.retain(|digest| {
        let digest: &(u8, Digest) = digest;
        digest.0 != company
    });
}

/// Whose company is founded by now is a founder no longer.
fn drop_founders(founders: &mut Vec<(u32, u32)>, frame: u32)
    ensures founders { founders.new.items ≡ filter (λ f. nat_lt frame f.0) founders.old.items }
{
    founders.retain(|founder| {
        let founder: &(u32, u32) = founder;
        frame < founder.0
    });
}

/// Each that ordered a company which is stamped is a founder from now on.
fn add_founders(founders: &mut Vec<(u32, u32)>, steps: &[Step])
    requires { length (founders_in (stamped_in steps.now)) ≤ vec_capacity founders.old - vec_len founders.old }
    ensures { founders.new.items ≡ founders.old.items ++ founders_in (stamped_in steps.now) }
{
    for step in steps.iter() {
        if let Some(founder) = founder_in(step) {
            let _ = founders.push(founder);
        }
    }
}

/// The founder of a step that stamps the order of a company: the frame, and the client.
fn founder_in(step: &Step) -> Option<(u32, u32)>
    ensures founder { option_list result ≡ founders_in (stamped_in (step.now ∷ [])) }
{
    match &step.what {
        What::Stamp(entry) => match entry.command.code {
            Code::NewCompany => Some((entry.frame, entry.command.number)),
            _ => None,
        },
        _ => None,
    }
}

/// How many founders some steps stamp.
pub fn count_founders(steps: &[Step]) -> usize
    ensures count { result ≡ length (founders_in (stamped_in steps.now)) }
{
    let mut count = 0;
    for step in steps.iter() {
        if founder_in(step).is_some() {
            count += 1;
        }
    }
    count
}
