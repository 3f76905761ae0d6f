//! What follows from the tables of lines, and from what a script is.
ghost use Rattle.std.specs.Prelude.{◌≡◌, ◌≤◌, [], List, ℕ, take};
ghost use Rattle.tt_lines.specs.Lines.{lines_of, IsFirstBad};
ghost use Rattle.tt_log.specs.Steps.{IsStep, step_text};
ghost use Rattle.tt_log.specs.Contents.{Contents};
ghost use Rattle.tt_log.specs.Script.{Spells, IsScriptText, contents_of};
ghost use Rattle.tt_log.specs.Printing.{IsScript, script_text};
ghost use Rattle.tt_log.specs.Standing.{Standing};
ghost use Rattle.tt_log.specs.Reader.{IsAt};
ghost use Rattle.tt_log.specs.declared.script.step.Step.{Step as Said};

/// A text spells at most one line.
pub fn one_line()
    ensures { (a b : Said) → IsStep a → IsStep b → step_text a ≡ step_text b → a ≡ b }
{}

/// Lines spell at most one script.
pub fn one_script()
    ensures { (a b : Contents) (texts : List (List ℕ)) → Spells a texts → Spells b texts → a ≡ b }
{}

/// Each script of the grammar is spelled by the text that is printed for it; so that text is parsed to it, and to no other.
pub fn printed_is_parsed()
    ensures { (script : Contents) → IsScript script → Spells script (lines_of (script_text script)) }
{}

/// What lines spell is a script of the grammar, which can be printed.
pub fn parsed_can_be_printed()
    ensures { (script : Contents) (texts : List (List ℕ)) → Spells script texts → IsScript script }
{}

/// The first lines of a script are a script, and there is one first bad line at most.
pub fn one_first_bad_line()
    ensures front { (texts : List (List ℕ)) (n m : ℕ) → n ≤ m → IsScriptText (take m texts) → IsScriptText (take n texts) }
    ensures one { (texts : List (List ℕ)) (k l : ℕ) → IsFirstBad IsScriptText texts k → IsFirstBad IsScriptText texts l → k ≡ l }
{}

/// A reader that has nothing left has read the one script that the bytes spell.
pub fn reader_reads_all()
    ensures { (r : Standing) (bytes : List ℕ) (steps : List Said) → IsAt r bytes steps → r.rest ≡ []
        → Spells (contents_of steps) (lines_of bytes) }
{}
