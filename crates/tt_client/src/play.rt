//! What a client in the game makes of what it hears, worked out beside it before anything changes.
ghost use Rattle.std.specs.Prelude.{◌≡◌, ◌++◌, ◌≤◌, ◌<◌, ◌^◌, ◌||◌, not, is_some, ℕ, Bool, true, Option, Some, None, IfOk, OnOk};
ghost use Rattle.std.specs.Prelude.{drop, length};
ghost use Rattle.tt_client.specs.Cutting.{cut_at};
ghost use Rattle.tt_log.specs.Shown.{goes_on};
ghost use Rattle.tt_game.specs.declared.message.GameMsg.{GameMsg};
ghost use Rattle.tt_client.specs.declared.login.Login.{Login};
ghost use Rattle.tt_client.specs.Player.{heard, heard_all, learnt, token_in};
ghost use Rattle.tt_client.specs.Runs.{running};
ghost use Rattle.tt_client.specs.Held.{phase_of};
ghost use Rattle.tt_client.specs.declared.stage.Phase.TheVariants.{Loaded};
ghost use Rattle.tt_client.specs.Hearing.{Sound, with_news};
ghost use Rattle.tt_client.specs.Planned.{PlayStands, in_play, later_token, played};
ghost use Rattle.tt_client.specs.Saying.{Saying};

use crate::items::{Item, Read, message_of};
use crate::news::News;
use crate::running::{Mismatch, Running};
use crate::stage::{Phase, end_of, goes_on};
use crate::verdict::Verdict;
use std::alloc::Global;
use tt_frame::{LARGEST_PACKET, Next, OutOfMemory, first_of};
use tt_game::GameMsg;

/// What a client in the game has made of what it heard.
#[derive(Drop)]
pub struct Play {
    pub(crate) news: News,
    pub(crate) phase: Phase,
    pub(crate) off: Option<Mismatch>,
    pub(crate) number: u32,
    pub(crate) company: u8,
    /// The last token that came, 0 for none.
    pub(crate) token: u8,
}

/// The company of a client behind a message.
pub(crate) fn company_behind(msg: &GameMsg, number: u32, company: u8) -> u8
    ensures company { result ≡ (learnt (Some msg.now) number company).company }
{
    match msg {
        GameMsg::ServerClientInfo {
            client,
            company: told,
            ..
        }
        | GameMsg::ServerMove {
            client,
            company: told,
        } => { if *client == number { *told } else { company } }
        _ => company,
    }
}

/// The number of a client behind a message.
pub(crate) fn number_behind(msg: &GameMsg, number: u32) -> u32
    ensures number { (company : ℕ) → result ≡ (learnt (Some msg.now) number company).client }
{
    match msg {
        GameMsg::ServerWelcome { client, .. } => *client,
        _ => number,
    }
}

/// The token that a message brings, 0 for none.
fn token_of(msg: &GameMsg) -> u8
    ensures token { result ≡ token_in (Some msg.now) }
{
    match msg {
        GameMsg::ServerFrame { token, .. } => *token,
        _ => 0,
    }
}

/// The later of two tokens, where 0 is none.
fn later_token(old: u8, new: u8) -> u8
    ensures later { result ≡ later_token old new }
{
    if new == 0 { old } else { new }
}

impl Play {
    /// Nothing was heard yet.
    pub(crate) fn begin(alloc: Global, base: &Running, number: u32, company: u8) -> Play
        ensures none { (saying : Saying) (acked : Option ℕ)
            → played base.now result saying acked ≡ in_play base.now number company saying acked }
        ensures sound { Sound (with_news base.now result.news) }
        ensures stands { PlayStands result.phase result.off }
    {
        Play {
            news: base.news(alloc),
            phase: Phase::Loaded,
            off: None,
            number,
            company,
            token: 0,
        }
    }

    /// Whether it has ended, or is out of step.
    fn is_over(&self) -> bool
        ensures over { result ≡ (not (goes_on (phase_of self.now.phase)) || is_some self.now.off) }
    {
        self.off.is_some() || !matches!(self.phase, Phase::Joining | Phase::Loaded)
    }

    /// What begins next in its stream.
    fn hear(&mut self, base: &Running, item: &Item) -> Result<(), OutOfMemory>
        requires stands { PlayStands self.old.phase self.old.off }
        ensures heard { OnOk result ((login : Login) (saying : Saying) (acked : Option ℕ)
            → played base.now self.new saying acked ≡ heard running login item.now (played base.now self.old saying acked)) }
        ensures sound { OnOk result (Sound (with_news base.now self.old.news) → Sound (with_news base.now self.new.news)) }
        ensures stands { OnOk result (PlayStands self.new.phase self.new.off) }
    {
        if self.is_over() {
            return Ok(());
        }
        let Some(msg) = &item.msg else {
            self.phase = Phase::Wrong { at: item.at };
            return Ok(());
        };
        match base.hear(&mut self.news, msg)? {
            Verdict::Goes => {
                self.company = company_behind(msg, self.number, self.company);
                self.number = number_behind(msg, self.number);
                self.token = later_token(self.token, token_of(msg));
            }
            Verdict::Ends => self.phase = end_of(msg),
            Verdict::Strays => self.phase = Phase::Wrong { at: item.at },
            Verdict::Off { mismatch } => self.off = Some(mismatch),
        }
        Ok(())
    }

    /// What begins in its stream, one behind the other.
    pub(crate) fn hear_all(&mut self, base: &Running, items: &[Item]) -> Result<(), OutOfMemory>
        requires stands { PlayStands self.old.phase self.old.off }
        requires sound { Sound (with_news base.now self.old.news) }
        ensures heard { OnOk result ((login : Login) (saying : Saying) (acked : Option ℕ)
            → played base.now self.new saying acked ≡ heard_all running login items.now (played base.now self.old saying acked)) }
        ensures sound { OnOk result (Sound (with_news base.now self.new.news)) }
        ensures stands { OnOk result (PlayStands self.new.phase self.new.off) }
    {
        for item in items {
            self.hear(base, item)?;
        }
        Ok(())
    }

    /// What is whole of these bytes, of which the first stands at a place of the stream, one packet behind the other.
    pub(crate) fn hear_bytes(
        &mut self,
        alloc: Global,
        base: &Running,
        bytes: &[u8],
        at: u64,
    ) -> Result<Read, OutOfMemory>
        requires stands { PlayStands self.old.phase self.old.off }
        requires sound { Sound (with_news base.now self.old.news) }
        ensures heard { OnOk result ((login : Login) (saying : Saying) (acked : Option ℕ)
            → played base.now self.new saying acked
            ≡ heard_all running login (cut_at at bytes.now).items (played base.now self.old saying acked)) }
        ensures read { IfOk result (λ read. record { items = (cut_at at bytes.now).items; rest = drop read.end bytes.now; at = read.at }
            ≡ cut_at at bytes.now) }
        ensures within { IfOk result (λ read. read.end ≤ length bytes.now) }
        ensures sound { OnOk result (Sound (with_news base.now self.new.news)) }
        ensures stands { OnOk result (PlayStands self.new.phase self.new.off) }
    {
        let mut end = 0;
        let mut place = at;
        'packets: while end < bytes.len() {
            match first_of(&bytes[end..], LARGEST_PACKET) {
                Next::Packet { kind, body } => {
                    let msg = message_of(alloc, kind, body)?;
                    self.hear(base, &Item { at: place, msg })?;
                    place = place.saturating_add(body.len() as u64 + 3);
                    end += body.len() + 3;
                }
                Next::Partial => return Ok(Read { end, at: place }),
                Next::BadSize(_) => {
                    self.hear(
                        base,
                        &Item {
                            at: place,
                            msg: None,
                        },
                    )?;
                    return Ok(Read {
                        end: bytes.len(),
                        at: place,
                    });
                }
            }
        }
        Ok(Read { end, at: place })
    }
}
