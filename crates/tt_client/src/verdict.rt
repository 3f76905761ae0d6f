//! What a client makes of each message at each place of its dialogue.
ghost use Rattle.std.specs.Prelude.{◌≡◌, Bool, true, false, IfOk, OnOk};
ghost use Rattle.tt_lockstep.specs.Runner.{Kept, RunnerRunning, runner_hears};
ghost use Rattle.tt_world.specs.World.{WorldState};
ghost use Rattle.tt_world.specs.declared.command.Entry.{Entry};
ghost use Rattle.tt_log.specs.Shown.{told_asking, told_begun, told_greeted, told_in_play};
ghost use Rattle.tt_client.specs.Known.{known};
ghost use Rattle.tt_client.specs.Frames.{runner_by};
ghost use Rattle.tt_client.specs.Hearing.{Sound, fine_or_wrong, with_news};
ghost use Rattle.tt_client.specs.Verdicts.{runner_as, told_as};

use crate::news::News;
use crate::running::{Mismatch, Running};
use tt_frame::OutOfMemory;
use tt_game::GameMsg;
use tt_rules::command_of;
use tt_world::Entry;

/// How a client goes on behind a message.
#[derive(Clone, Copy, Debug, PartialEq, Eq)]
pub enum Verdict {
    /// It goes on.
    Goes,
    /// It was told its end.
    Ends,
    /// It was told what is not permitted there.
    Strays,
    /// It is out of step.
    Off { mismatch: Mismatch },
}

/// It goes on, or was told what is not permitted.
fn goes_if(fine: bool) -> Verdict
    ensures runs { (k : Kept WorldState Entry) → runner_as result k ≡ fine_or_wrong fine k }
{
    if fine { Verdict::Goes } else { Verdict::Strays }
}

/// It goes on, or is out of step.
fn goes_unless(off: Option<Mismatch>) -> Verdict
    ensures runs { (k : Kept WorldState Entry) → runner_as result k ≡ runner_by off k }
{
    match off {
        None => Verdict::Goes,
        Some(mismatch) => Verdict::Off { mismatch },
    }
}

/// Before the welcome.
pub(crate) fn asking(msg: &GameMsg) -> Verdict
    ensures told { told_as result ≡ told_asking msg.now }
{
    match msg {
        GameMsg::ServerFull
        | GameMsg::ServerBanned
        | GameMsg::ServerError { .. }
        | GameMsg::ServerShutdown => Verdict::Ends,
        GameMsg::ServerGameInfo { .. } | GameMsg::ServerWelcome { .. } => Verdict::Goes,
        GameMsg::ServerCheckNewgrfs { items } => {
            if items.as_slice().is_empty() {
                Verdict::Goes
            } else {
                Verdict::Strays
            }
        }
        GameMsg::ServerNeedGamePassword { id, .. }
        | GameMsg::ServerNeedCompanyPassword { id, .. } => {
            if id.bytes().is_empty() {
                Verdict::Strays
            } else {
                Verdict::Goes
            }
        }
        _ => Verdict::Strays,
    }
}

/// Behind the welcome.
pub(crate) fn greeted(msg: &GameMsg) -> Verdict
    ensures told { told_as result ≡ told_greeted msg.now }
{
    match msg {
        GameMsg::ServerWait { .. } | GameMsg::ServerMapBegin { .. } => Verdict::Goes,
        GameMsg::ServerError { .. } | GameMsg::ServerShutdown => Verdict::Ends,
        _ => Verdict::Strays,
    }
}

/// Behind the begin of the map.
pub(crate) fn begun(msg: &GameMsg) -> Verdict
    ensures told { told_as result ≡ told_begun msg.now }
{
    match msg {
        GameMsg::ServerMapSize { size } => {
            if *size <= 65536 {
                Verdict::Goes
            } else {
                Verdict::Strays
            }
        }
        GameMsg::ServerError { .. } | GameMsg::ServerShutdown => Verdict::Ends,
        _ => Verdict::Strays,
    }
}

impl Running {
    /// In the game: what is heard is gathered. The client itself stays as it is.
    pub(crate) fn hear(&self, news: &mut News, msg: &GameMsg) -> Result<Verdict, OutOfMemory>
        ensures heard { IfOk result (λ v. runner_hears known (RunnerRunning (with_news self.now news.old)) (told_in_play msg.now)
            ≡ runner_as v (with_news self.now news.new)) }
        ensures sound { OnOk result (Sound (with_news self.now news.old) → Sound (with_news self.now news.new)) }
    {
        match msg {
            GameMsg::ServerFrame { frame, max, .. } => Ok(goes_if(news.max(*frame, *max))),
            GameMsg::ServerSync { frame, word } => {
                let off = self.sync(news, *frame, *word)?;
                Ok(goes_unless(off))
            }
            GameMsg::ServerCommand {
                company,
                code,
                number,
                to,
                text,
                frame,
                sender,
            } => {
                match command_of(*code, *number, *to, text) {
                    None => Ok(Verdict::Strays),
                    Some(command) => {
                        let entry = Entry {
                            frame: *frame,
                            sender: *sender,
                            company: *company,
                            command,
                        };
                        let fine = news.entry(entry)?;
                        Ok(goes_if(fine))
                    }
                }
            }
            GameMsg::ServerClientInfo { .. }
            | GameMsg::ServerJoin { .. }
            | GameMsg::ServerChat { .. }
            | GameMsg::ServerMove { .. }
            | GameMsg::ServerErrorQuit { .. }
            | GameMsg::ServerQuit { .. } => Ok(Verdict::Goes),
            GameMsg::ServerError { .. } | GameMsg::ServerShutdown => Ok(Verdict::Ends),
            _ => Ok(Verdict::Strays),
        }
    }
}
