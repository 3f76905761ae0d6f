//! What follows from the definition of the hour script.
ghost use Rattle.std.specs.Prelude.{ℕ, ◌<◌, ◌^◌};
ghost use Rattle.tt_log.specs.Printing.{IsScript};
ghost use Rattle.tt_hour.specs.Hour.{hour_script};

/// The hour script is a script, whatever the number: each value is in its range. So it can be printed, and its text is
/// parsed to it and to no other (`tt_log`, `printed_is_parsed` and `one_script`).
pub fn hour_is_script()
    ensures { (n : ℕ) → n < 2 ^ 32 → IsScript (hour_script n) }
{}
