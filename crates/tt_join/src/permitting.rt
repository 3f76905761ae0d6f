//! A frame more: where it would pass the greatest permitted one, those that play are told how far they may run.
ghost use Rattle.std.specs.Prelude.{◌≡◌, ◌<◌, ◌+◌, ◌^◌, ◌==◌, ◌++◌, cond, OnOk, IfOk};
ghost use Rattle.tt_game.specs.declared.message.GameMsg.TheVariants.{ServerFrame};
ghost use Rattle.tt_log.specs.Member.{is_playing};
ghost use Rattle.tt_members.specs.Edits.{words_by, words_after};
ghost use Rattle.tt_members.specs.Planned.{IsPlain};
ghost use Rattle.tt_members.specs.Steps.{says_one};
ghost use Rattle.tt_world.specs.Random.{next_random};
ghost use Rattle.tt_join.specs.Ticking.{permitting, step_if, token_told};

use tt_frame::OutOfMemory;
use tt_game::GameMsg;
use tt_members::{Member, Plan, What, fresh_token};
use tt_world::Random;

/// The token that a member is told, and the random words behind it: a fresh one where none is open.
fn token_for(held: u8, words: (u32, u32)) -> (u8, (u32, u32))
    ensures token { result.0 ≡ token_told (held == 0) words }
    ensures words { result.1 ≡ cond (held == 0) (next_random words) words }
{
    if held != 0 {
        return (0, words);
    }
    let mut random = Random::of(words.0, words.1);
    let token = fresh_token(&mut random);
    (token, random.words())
}

/// A member that plays is told how far it may run: the random words behind it.
fn permit_one(
    frame: u32,
    top: u32,
    words: (u32, u32),
    m: &Member,
    plan: &mut Plan,
) -> Result<(u32, u32), OutOfMemory>
    ensures steps { OnOk result (plan.new.steps ≡ plan.old.steps
        ++ step_if (is_playing m.now) (says_one m.now.conn (ServerFrame frame top (token_told (m.now.token == 0) words)))) }
    ensures words { IfOk result (λ behind. behind ≡ words_by m.now words) }
    ensures edits { plan.new.edits ≡ plan.old.edits }
    ensures plain { IsPlain plan.old plan.new }
{
    if !m.is_playing() {
        return Ok(words);
    }
    let marks = m.marks();
    let (token, behind) = token_for(marks.token, words);
    let said = GameMsg::ServerFrame {
        frame,
        max: top,
        token,
    };
    plan.tell_one(m.conn(), What::Msg(said))?;
    Ok(behind)
}

/// Those that play are told how far they may run: the random words behind them.
pub fn permit(
    frame: u32,
    top: u32,
    words: (u32, u32),
    members: &[Member],
    plan: &mut Plan,
) -> Result<(u32, u32), OutOfMemory>
    ensures steps { OnOk result (plan.new.steps ≡ plan.old.steps ++ permitting frame top words members.now) }
    ensures words { IfOk result (λ behind. behind ≡ words_after members.now words) }
    ensures edits { plan.new.edits ≡ plan.old.edits }
    ensures plain { IsPlain plan.old plan.new }
{
    let mut words = words;
    for m in members.iter() {
        words = permit_one(frame, top, words, m, plan)?;
    }
    Ok(words)
}
