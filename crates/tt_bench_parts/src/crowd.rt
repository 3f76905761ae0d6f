//! The members of a game by themselves: what comes to them is planned and put in force, and no bytes are made of it.
//!
//! `crowd_of` makes a game in which so many members play, and `gone_on` lets one kind of thing come to them so many times.
ghost use Rattle.std.specs.Prelude.{◌≡◌, true};
ghost use Rattle.tt_join.specs.Inputs.{IsAbove, IsTaken};
ghost use Rattle.tt_join.specs.declared.input.Input.TheVariants.{Open};

use crate::fault::Fault;
use std::alloc::Global;
use tt_frame::{LongText, Text, UpTo};
use tt_game::GameMsg;
use tt_join::{Input, Member, Members, Now};
use tt_rules::Live;
use tt_world::Setup;

/// The greatest permitted frame of a game stays below this one.
const LAST_TOP: u32 = 4_000_000_064;

/// All acknowledge after so many ticks, long before they are taken to be too slow.
const TICKS_OF_SILENCE: u32 = 256;

/// A line of chat, which all members are told.
const CHAT: &[u8] =
    b"Four lorries wait at the coal mine, as the train that should come stands before a red light";

/// A game's members, and its time.
#[derive(Drop)]
pub struct Crowd {
    members: Members,
    now: Now,
    size: u8,
}

/// What comes to members.
#[derive(Clone, Copy)]
pub enum Course {
    /// Each of them in turn acknowledges the frame.
    Acknowledgements,
    /// Each of them in turn says a line to all.
    Chats,
    /// A frame more.
    Ticks,
}

/// A game in which so many members play, none of them for a company.
pub fn crowd_of(alloc: Global, size: u8) -> Result<Crowd, Fault> {
    let mut setup = Setup::plain();
    setup.max_clients = u8::MAX;
    let mut crowd = Crowd {
        members: Members::new(alloc, &setup),
        now: Now {
            frame: 0,
            top: 0,
            live: Live::none(),
            left: 0,
        },
        size,
    };
    for number in 1..=size {
        admit(&mut crowd, number)?;
    }
    Ok(crowd)
}

/// Lets so much come to the members of a game; answers how many steps were told of it.
pub fn gone_on(alloc: Global, crowd: &mut Crowd, course: Course, count: u32) -> Result<u64, Fault> {
    match course {
        Course::Acknowledgements => acknowledged(crowd, count),
        Course::Chats => chatted(alloc, crowd, count),
        Course::Ticks => ticked(crowd, count),
    }
}

/// The members acknowledge the frame, one after the other.
fn acknowledged(crowd: &mut Crowd, count: u32) -> Result<u64, Fault> {
    let mut steps = 0u64;
    for turn in 0..count {
        let conn = turn % u32::from(crowd.size.max(1)) + 1;
        steps = steps.saturating_add(acknowledge(crowd, conn)?);
    }
    Ok(steps)
}

/// The members say a line to all, one after the other.
fn chatted(alloc: Global, crowd: &mut Crowd, count: u32) -> Result<u64, Fault> {
    let mut steps = 0u64;
    for turn in 0..count {
        let conn = turn % u32::from(crowd.size.max(1)) + 1;
        steps = steps.saturating_add(say(crowd, conn, chat(alloc)?)?);
    }
    Ok(steps)
}

/// Time goes on; now and then all acknowledge.
fn ticked(crowd: &mut Crowd, count: u32) -> Result<u64, Fault> {
    let mut steps = 0u64;
    for turn in 0..count {
        steps = steps.saturating_add(tick(crowd)?);
        if turn % TICKS_OF_SILENCE == 0 {
            all_acknowledge(crowd)?;
        }
    }
    Ok(steps)
}

fn all_acknowledge(crowd: &mut Crowd) -> Result<(), Fault> {
    for conn in 1..=crowd.size {
        acknowledge(crowd, u32::from(conn))?;
    }
    Ok(())
}

/// A further member: it joins, gets its map and plays.
fn admit(crowd: &mut Crowd, number: u8) -> Result<(), Fault> {
    let conn = u32::from(number);
    open(crowd, conn)?;
    say(crowd, conn, join(number)?)?;
    say(crowd, conn, GameMsg::ClientGetmap)?;
    tick(crowd)?;
    say(crowd, conn, GameMsg::ClientMapOk)?;
    tick(crowd)?;
    all_acknowledge(crowd)
}

/// A connection above all others is opened.
fn open(crowd: &mut Crowd, conn: u32) -> Result<u64, Fault> {
    if is_above(crowd.members.all(), conn) {
        come(crowd, Input::Open { conn })
    } else {
        Err(Fault::Apart)
    }
}

/// Whether a connection's number is above those of all members.
fn is_above(members: &[Member], conn: u32) -> bool
    ensures above { result ≡ true → IsAbove members.now (Open conn) }
{
    conn > 0 && members.iter().all(|member| member.conn() < conn)
}

/// A member says a message.
fn say(crowd: &mut Crowd, conn: u32, msg: GameMsg) -> Result<u64, Fault> {
    come(crowd, Input::Msg { conn, msg })
}

/// A member acknowledges the frame, and gives back the token that it was told.
fn acknowledge(crowd: &mut Crowd, conn: u32) -> Result<u64, Fault> {
    let token = token_of(crowd.members.all(), conn);
    let frame = crowd.now.frame;
    say(crowd, conn, GameMsg::ClientAck { frame, token })
}

/// The open token of a member; members stand in order of their connections, which are 1, 2, 3 and so on.
fn token_of(members: &[Member], conn: u32) -> u8 {
    match members.get((conn as usize).saturating_sub(1)) {
        Some(member) => member.marks().token,
        None => 0,
    }
}

/// A frame more, which all are told.
fn tick(crowd: &mut Crowd) -> Result<u64, Fault> {
    let Now { frame, top, .. } = crowd.now;
    if frame > top || top >= LAST_TOP {
        return Err(Fault::Apart);
    }
    let steps = come(crowd, Input::Tick)?;
    crowd.now.frame = frame + 1;
    crowd.now.top = top.max(frame + 1);
    Ok(steps)
}

/// Something comes to the members, and is put in force; answers how many steps are told of it.
fn come(crowd: &mut Crowd, input: Input) -> Result<u64, Fault>
    requires taken { IsTaken crowd.old.members.crew.members crowd.old.now input }
{
    let plan = crowd.members.plan(&crowd.now, input)?;
    let steps = plan.steps().len() as u64;
    crowd.members.commit(plan);
    Ok(steps)
}

/// The join of a member whose name is its number.
fn join(number: u8) -> Result<GameMsg, Fault> {
    let name = [
        b'0' + number / 100,
        b'0' + number / 10 % 10,
        b'0' + number % 10,
    ];
    Ok(GameMsg::ClientJoin {
        revision: Text::new(b"13.4").ok_or(Fault::Apart)?,
        grf: 13,
        name: Text::new(&name).ok_or(Fault::Apart)?,
        company: u8::MAX,
    })
}

/// A line of chat for all.
fn chat(alloc: Global) -> Result<GameMsg, Fault> {
    Ok(GameMsg::ClientChat {
        scope: UpTo::new(0).ok_or(Fault::Apart)?,
        to: 0,
        text: LongText::new(alloc, CHAT)?.ok_or(Fault::Apart)?,
    })
}
