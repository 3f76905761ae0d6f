//! The replay program's top call: words, a source and a sink in, a status out.
ghost use Rattle.std.specs.Prelude.{◌≡◌, ◌⊎◌, ◌≢◌, ◌<◌, ◌≤◌, ◌↔◌, ◌+◌, List, ℕ, Some, None, length, IfSome, IsSome};
ghost use Rattle.std.specs.Io.KnownBytes.{Appends};
ghost use Rattle.tt_lines.specs.Lines.{lines_of};
ghost use Rattle.tt_edge.specs.Count.{Rose};
ghost use Rattle.tt_edge.specs.Sink.{AppendsPart};
ghost use Rattle.tt_edge.specs.Source.{ConsumesAtMost, ConsumesCount};
ghost use Rattle.tt_hour_run.specs.declared.made.Made.{Made};
ghost use Rattle.tt_hour_run.specs.Made.{IsMadeForm, made_text};
ghost use Rattle.tt_replay.specs.declared.form.Form.{Form};
ghost use Rattle.tt_replay.specs.declared.form.Form.TheVariants.{Check};
ghost use Rattle.tt_replay.specs.Statuses.{form_of, input_limit, IsOfForm, IsWritten, IsPartlyWritten, IsRefused, IsDiffering};

use crate::replay::answer_input;
use std::alloc::Global;
use tt_edge::{Sink, Source};
use tt_frame::Line;
use tt_hour_run::{made_of, write_made};

/// Does what the words ask for, and answers the status.
///
/// `run`, `check` and `show` read the source to its end, and write what `answer_input` says. `make N` writes the hour script
/// of a number, and `hour N` plays it line by line and writes its summary; both leave the source unread.
///
/// It waits for nobody, and returns over every source that answers its calls: at most one byte past the limit is
/// read, and each read takes at least one.
pub fn replay_main<S: Source, K: Sink>(
    alloc: Global,
    args: &[Line],
    source: &mut S,
    sink: &mut K,
) -> u8
    ensures status { result ≤ 7 }

    // The words are looked at first. Where they are no form, or one that is made from a number, nothing was read.
    ensures words { (result ≡ 2) ↔ ((form_of args.now ≡ None) × ((made : Made) → IsMadeForm args.now made → ⊥)) }
    ensures unread { result ≡ 2 → source.new ≡ source.old }
    ensures made_unread { (made : Made) → IsMadeForm args.now made → source.new ≡ source.old }

    // A fault is told only where it happened.
    ensures source_fault { result ≡ 4 → Rose (S.faults source.old) (S.faults source.new) }
    ensures sink_fault { result ≡ 5 → Rose (K.faults sink.old) (K.faults sink.new) }

    // It is told exactly where more than the limit was read, and then that was one byte more. Where memory ran out it
    // may have been as many.
    ensures too_long { result ≡ 7 → IfSome (S.left source.old) (λ input. input_limit < length input) }
    ensures over { result ≡ 7 → ConsumesCount (input_limit + 1) (S.left source.old) (S.left source.new) }

    // No more than that was read.
    ensures under { (result ≢ 7) × (result ≢ 6) → ConsumesAtMost input_limit (S.left source.old) (S.left source.new) }
    ensures at_most { ConsumesAtMost (input_limit + 1) (S.left source.old) (S.left source.new) }

    // The source was read to its end. Its bytes are not of the form, and the first bad line was told: whole, unless
    // the sink failed.
    ensures refused { result ≡ 3 → IfSome (S.left source.old)
        (IsRefused args.now (Rose (K.faults sink.old) (K.faults sink.new)) (K.held sink.old) (K.held sink.new)) }
    ensures ended { IsSome (form_of args.now) → (result ≡ 0) ⊎ (result ≡ 1) ⊎ (result ≡ 3) ⊎ (result ≡ 5)
        → Rose (S.ends source.old) (S.ends source.new) }

    // The source was read to its end. Its report is not as it expects, and the first such place was told: whole, unless
    // the sink failed.
    ensures differs { result ≡ 1 → IfSome (S.left source.old)
        (IsDiffering args.now (Rose (K.faults sink.old) (K.faults sink.new)) (K.held sink.old) (K.held sink.new)) }

    // The answer was written, whole or in part, and nothing else.
    ensures done { IsSome (form_of args.now) → result ≡ 0
        → IfSome (S.left source.old) (IsWritten args.now (K.held sink.old) (K.held sink.new)) }
    ensures partly { IsSome (form_of args.now) → result ≡ 5
        → IfSome (S.left source.old) (IsPartlyWritten args.now (K.held sink.old) (K.held sink.new)) }
    ensures unwritten { (result ≢ 0) × (result ≢ 1) × (result ≢ 3) × (result ≢ 5) → sink.new ≡ sink.old }

    // The same of what is made from a number. Where nothing fails it is done, unless memory runs out.
    ensures made_status { (made : Made) → IsMadeForm args.now made → (result ≡ 0) ⊎ (result ≡ 5) ⊎ (result ≡ 6) }
    ensures made_done { (made : Made) → IsMadeForm args.now made → result ≡ 0
        → Appends (K.held sink.old) (K.held sink.new) (made_text made) }
    ensures made_partly { (made : Made) → IsMadeForm args.now made → result ≡ 5
        → AppendsPart (K.held sink.old) (K.held sink.new) (made_text made) }

    // Where nothing fails and the input is of the form, it is done, unless memory runs out, or it is checked and differs.
    ensures complete { (form : Form) (input : List ℕ) → form_of args.now ≡ Some form → S.left source.old ≡ Some input
        → length input ≤ input_limit → IsOfForm form (lines_of input)
        → (Rose (S.faults source.old) (S.faults source.new) → ⊥) → (Rose (K.faults sink.old) (K.faults sink.new) → ⊥) → (result ≡ 0)
        ⊎ (result ≡ 6) ⊎ ((result ≡ 1) × (form ≡ Check)) }
{
    match made_of(args) {
        Some(made) => write_made(alloc, made, sink),
        None => answer_input(alloc, args, source, sink),
    }
}
