//! A file of commands, read to its end.
ghost use Rattle.std.specs.Prelude.{◌≡◌, ◌≤◌, ◌<◌, ◌⊎◌, length, IfOk, IfSome, OnOk, OnErr, IsErrOf};
ghost use Rattle.std.specs.Io.KnownBytes.{Consumes};
ghost use Rattle.tt_edge.specs.Count.{Rose};
ghost use Rattle.tt_edge.specs.Link.{Rises};
ghost use Rattle.tt_edge.specs.Source.{ConsumesAtMost, ConsumesCount};
ghost use Rattle.tt_rounds.specs.Commands.{commands_limit, IsReading};

use std::alloc::Global;
use tt_edge::{ReadAllError, Source, read_all};

/// The status where the source fails.
const SOURCE_FAULT: u8 = 4;

/// The status for want of memory.
const NO_MEMORY: u8 = 6;

/// The status where there are more bytes than the limit.
const TOO_LONG: u8 = 7;

/// The most bytes of a file of commands: 1 MiB.
const LIMIT: u32 = 1 << 20;

/// All bytes of a file of commands, or the status with which a program ends that can't have them: 4 where the source failed, 6
/// where memory ran out, 7 where there are more than 1,048,576.
pub fn read_commands<S: Source>(alloc: Global, commands: &mut S) -> Result<Vec<u8>, u8>
    // At Ok the answer is all that was left, it was taken, and the end was told.
    ensures whole { IfOk result (λ bytes. IfSome (S.left commands.old) (λ left. bytes.items ≡ left)) }
    ensures within { IfOk result (λ bytes. length bytes.items ≤ commands_limit) }
    ensures ended { OnOk result (Rose (S.ends commands.old) (S.ends commands.new)) }
    ensures kept { OnOk result (S.faults commands.new ≡ S.faults commands.old) }

    // An error is one of the three statuses. The source failed exactly at 4.
    ensures status { IsReading result }
    ensures failed { IsErrOf result 4 → Rises (S.faults commands.old) (S.faults commands.new) }
    ensures kept_too_long { IsErrOf result 7 → S.faults commands.new ≡ S.faults commands.old }
    ensures kept_memory { IsErrOf result 6 → S.faults commands.new ≡ S.faults commands.old }

    // More than the limit was read at 7, and at no other answer but for want of memory.
    ensures too_long { IsErrOf result 7 → IfSome (S.left commands.old) (λ left. commands_limit < length left) }
    ensures over { IsErrOf result 7 → ConsumesCount 1048577 (S.left commands.old) (S.left commands.new) }
    ensures taken { IfOk result (λ bytes. Consumes (S.left commands.old) (S.left commands.new) bytes.items) }
    ensures under { IsErrOf result 4 → ConsumesAtMost commands_limit (S.left commands.old) (S.left commands.new) }
    ensures at_most { ConsumesAtMost 1048577 (S.left commands.old) (S.left commands.new) }
{
    match read_all(alloc, commands, LIMIT) {
        Ok(bytes) => Ok(bytes),
        Err(ReadAllError::Failed) => Err(SOURCE_FAULT),
        Err(ReadAllError::Memory) => Err(NO_MEMORY),
        Err(ReadAllError::TooLong) => Err(TOO_LONG),
    }
}
