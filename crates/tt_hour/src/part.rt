//! The parts of the hour: each is a few lines, and says which part stands behind it.
ghost use Rattle.std.specs.Prelude.{◌≡◌, ◌++◌, ◌-◌, ◌≤◌, ℕ, suc, [], IfSome};
ghost use Rattle.std.specs.List.{slice_get};
ghost use Rattle.tt_hour.specs.Hour.{enter, turn, acting, idle, entered};
ghost use Rattle.tt_hour.specs.Left.{number_of, command_of, idle_ticks, lines_of, played_out, behind_entering, behind_idle, behind};

use crate::player::Player;
use crate::turn::Turn;
use tt_frame::Line;
use tt_log::Line1;
use tt_world::Random;

/// The round in which the last client enters.
const LATE: u16 = 1_000;

/// The last round.
const LAST: u16 = 1_999;

/// As many bytes as there are.
const ALL: u32 = 4_294_967_295;

/// A part of the hour.
#[derive(Clone, Copy)]
pub enum Part {
    /// A client enters.
    Enter(Player),
    /// A round, with what was drawn for it, but for a client's entering.
    Round(u16, Turn),
    /// Frames go by, and so often 60 more are still to come.
    Idle(u8),
    /// Nothing.
    Over,
}

impl Part {
    /// The line at a place, if there is one.
    pub fn line(&self, at: u8) -> Option<Line1>
        ensures line { result ≡ slice_get (lines_of self.now) at }
        ensures few { IfSome result (λ _. at ≤ 7) }
    {
        match self {
            Part::Enter(player) => entering_line(*player, at),
            Part::Round(round, drawn) => turn_line(entered(*round), drawn, at),
            Part::Idle(more) => idle_line(*more, at),
            Part::Over => None,
        }
    }

    /// The part behind it, for which words may be drawn.
    pub fn following(&self, random: &mut Random) -> Part
        ensures { behind self.now random.old ≡ lines_of result ++ behind result random.new }
    {
        match self {
            Part::Enter(player) => behind_entering(*player, random),
            Part::Round(round, _) => behind_round(*round, random),
            Part::Idle(more) => behind_idle(*more),
            Part::Over => Part::Over,
        }
    }
}

/// The part behind a client's entering.
fn behind_entering(player: Player, random: &mut Random) -> Part
    ensures { behind_entering player random.old ≡ lines_of result ++ behind result random.new }
{
    match player {
        Player::First => Part::Enter(Player::Second),
        Player::Second => Part::Enter(Player::Third),
        Player::Third => Part::Round(0, Turn::draw(random)),
        Player::Fourth => Part::Round(LATE, Turn::draw(random)),
    }
}

/// The part behind a round.
fn behind_round(round: u16, random: &mut Random) -> Part
    ensures { played_out (1999 - round) (suc round) random.old ≡ lines_of result ++ behind result random.new }
{
    if round >= LAST {
        return Part::Idle(33);
    }
    let next = round + 1;
    if next == LATE {
        return Part::Enter(Player::Fourth);
    }
    Part::Round(next, Turn::draw(random))
}

/// The part behind a while in which nobody acts. No word is drawn any more.
fn behind_idle(more: u8) -> Part
    ensures { (words : ℕ × ℕ) → behind_idle more ≡ lines_of result ++ behind result words }
{
    if more == 0 {
        Part::Over
    } else {
        Part::Idle(more - 1)
    }
}

/// How many clients have entered.
fn entered(round: u16) -> u8
    ensures entered { result ≡ entered round }
    ensures few { result ≤ 4 }
{
    if round < LATE { 3 } else { 4 }
}

/// A line of a client's entering.
fn entering_line(player: Player, at: u8) -> Option<Line1>
    ensures line { result ≡ slice_get (enter (number_of player)) at }
    ensures few { IfSome result (λ _. at ≤ 7) }
{
    match at {
        0 => Some(Line1::Join(player.name(), 254, none(), none())),
        1 => Some(Line1::Pump(player.number())),
        2 => Some(Line1::Pump(player.number())),
        3 => Some(Line1::Tick(1)),
        4 => Some(Line1::Pump(player.number())),
        5 => Some(Line1::Pump(player.number())),
        6 => Some(Line1::Tick(1)),
        _ => None,
    }
}

/// A line of a round in which so many clients are there.
fn turn_line(there: u8, drawn: &Turn, at: u8) -> Option<Line1>
    requires { there ≤ 4 }
    ensures line { result ≡ slice_get (turn there drawn.now.client (command_of drawn.now.order)) at }
    ensures few { IfSome result (λ _. at ≤ 7) }
{
    if at < there {
        return Some(Line1::Pump(u32::from(at) + 1));
    }
    acting_line(drawn, at - there)
}

/// A line behind the pumps of a round.
fn acting_line(drawn: &Turn, at: u8) -> Option<Line1>
    ensures line { result ≡ slice_get (acting drawn.now.client (command_of drawn.now.order)) at }
    ensures few { IfSome result (λ _. at ≤ 2) }
{
    match at {
        0 => Some(Line1::Do(drawn.client, drawn.order.command())),
        1 => Some(Line1::Up(drawn.client, ALL)),
        2 => Some(Line1::Tick(59)),
        _ => None,
    }
}

/// A line of a while in which nobody acts.
fn idle_line(more: u8, at: u8) -> Option<Line1>
    ensures line { result ≡ slice_get (idle (idle_ticks more)) at }
    ensures few { IfSome result (λ _. at ≤ 7) }
{
    match at {
        0 => Some(Line1::Tick(idle_ticks(more))),
        1 => Some(Line1::Pump(1)),
        2 => Some(Line1::Pump(2)),
        3 => Some(Line1::Pump(3)),
        4 => Some(Line1::Pump(4)),
        _ => None,
    }
}

/// How many frames go by while nobody acts.
fn idle_ticks(more: u8) -> u32
    ensures { result ≡ idle_ticks more }
{
    if more == 0 { 12 } else { 60 }
}

/// No password.
fn none() -> Line
    ensures { result ≡ [] }
{
    match Line::new(b"") {
        Some(line) => line,
        None => unreachable!(),
    }
}
