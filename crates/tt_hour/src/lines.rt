//! The lines of the hour script, one after the other.
ghost use Rattle.std.specs.Prelude.{◌≡◌, ◌∷◌, [], MatchOption};
ghost use Rattle.tt_hour.specs.Hour.{hour_lines};

use crate::part::Part;
use crate::player::Player;
use std::marker::Model;
use tt_log::Line1;
use tt_world::Random;

/// The lines of the hour script of a number, one after the other: `new`, and then `next` until it answers None.
///
/// It holds no line, and takes no memory. Contracts see it as the list of the lines that are left.
#[derive(Drop)]
pub struct HourLines {
    random: Random,
    part: Part,
    at: u8,
}

impl Model for HourLines {
    ghost use Rattle.std.specs.Prelude.{List};
    ghost use Rattle.tt_log.specs.declared.script.line.Line1.{Line1};
    ghost use Rattle.tt_hour.specs.Left.{left};

    ghost Value = { List Line1 };

    ghost view = { λ h. left h.part h.at h.random };
}

impl HourLines {
    /// All lines of the hour script of a number.
    pub fn new(number: u32) -> HourLines
        ensures { result ≡ hour_lines number }
    {
        HourLines {
            random: Random::seeded(number),
            part: Part::Enter(Player::First),
            at: 0,
        }
    }

    /// The next line. None exactly where none is left, and then it stays so.
    pub fn next(&mut self) -> Option<Line1>
        ensures { MatchOption result ((self.old ≡ []) × (self.new ≡ [])) (λ line. self.old ≡ line ∷ self.new) }
    {
        match self.part.line(self.at) {
            Some(line) => {
                self.at += 1;
                Some(line)
            }
            None => {
                self.part = self.part.following(&mut self.random);
                match self.part.line(0) {
                    Some(line) => {
                        self.at = 1;
                        Some(line)
                    }
                    None => {
                        self.at = 0;
                        None
                    }
                }
            }
        }
    }
}
