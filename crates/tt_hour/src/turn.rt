//! What is drawn for a round: the client that acts, and what it is told to do.
ghost use Rattle.std.specs.Prelude.{◌≡◌, ◌<◌, ◌≤◌, true, [], length};
ghost use Rattle.tt_frame.specs.Text.{is_plain};
ghost use Rattle.tt_world.specs.Random.{next_random, below};
ghost use Rattle.tt_hour.specs.Hour.{client_of, order_of, order_by, gift, command};
ghost use Rattle.tt_hour.specs.Left.{command_of};

use tt_frame::Short;
use tt_world::{Code, Command, Random};

/// What a client is told to do.
#[derive(Clone, Copy)]
pub enum Order {
    /// It borrows 10,000.
    Borrow,
    /// It pays back 10,000.
    Repay,
    /// It gives such a sum to a company.
    Give(u32, u8),
    /// It puts up a sign at a tile.
    Sign(u32),
    /// It names its president.
    Name,
}

/// What is drawn for a round.
#[derive(Clone, Copy)]
pub struct Turn {
    /// The client that acts.
    pub client: u32,
    /// What it is told to do.
    pub order: Order,
}

impl Turn {
    /// Draws a round's client and its order.
    pub fn draw(random: &mut Random) -> Turn
        ensures client { result.client ≡ client_of random.old }
        ensures order { command_of result.order ≡ (order_of random.old).0 }
        ensures words { random.new ≡ (order_of random.old).1 }
    {
        let client = 1 + draw_below(random, 3);
        let kind = draw_below(random, 5);
        let order = draw_order(kind, random);
        Turn { client, order }
    }
}

/// Draws a number below a limit.
fn draw_below(random: &mut Random, limit: u32) -> u32
    requires { 0 < limit }
    ensures words { random.new ≡ next_random random.old }
    ensures drawn { result ≡ below random.new limit }
    ensures small { result < limit }
{
    random.next_below(limit)
}

/// Draws what an order of this kind takes.
fn draw_order(kind: u32, random: &mut Random) -> Order
    ensures order { command_of result ≡ (order_by kind random.old).0 }
    ensures words { random.new ≡ (order_by kind random.old).1 }
{
    match kind {
        0 => Order::Borrow,
        1 => Order::Repay,
        2 => draw_gift(random),
        3 => Order::Sign(draw_below(random, 65_536)),
        _ => Order::Name,
    }
}

/// Draws a gift: its sum, and the company that gets it.
fn draw_gift(random: &mut Random) -> Order
    ensures order { command_of result ≡ (gift random.old).0 }
    ensures words { random.new ≡ (gift random.old).1 }
{
    let sum = 1 + draw_below(random, 1_000);
    let receiver = draw_below(random, 3) as u8;
    Order::Give(sum, receiver)
}

impl Order {
    /// The command that it is.
    pub fn command(self) -> Command
        ensures { result ≡ command_of self }
    {
        match self {
            Order::Borrow => command(Code::IncreaseLoan, 10_000, 0, b""),
            Order::Repay => command(Code::DecreaseLoan, 10_000, 0, b""),
            Order::Give(sum, to) => command(Code::Give, sum, to, b""),
            Order::Sign(tile) => command(Code::PlaceSign, tile, 0, b"s"),
            Order::Name => command(Code::RenamePresident, 0, 0, b"p"),
        }
    }
}

/// A command with a text of printable ASCII.
fn command(code: Code, number: u32, to: u8, text: &[u8]) -> Command
    requires plain { is_plain text.now ≡ true }
    requires few { length text.now ≤ 31 }
    ensures { result ≡ command code number to text.now }
{
    match Short::new(text) {
        Some(text) => Command {
            code,
            number,
            to,
            text,
        },
        None => unreachable!(),
    }
}
