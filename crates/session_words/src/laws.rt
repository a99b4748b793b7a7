//! The laws of lines. The calls do nothing.
ghost use Rattle.std.specs.Prelude.{◌≡◌, ℕ, Bool, List};
ghost use Rattle.session_lines.specs.declared.command.Command.{Command};
ghost use Rattle.session_words.specs.declared.line.Line.{Line};
ghost use Rattle.session_words.specs.Lines.{IsLine, AreLines};
ghost use Rattle.session_words.specs.Reading.{Left, GivesNoLine, ReadsLines};

use step_items::one_hint;

/// A command says one thing.
pub fn one_line()
    ensures { (command : Command) (a b : Line) → IsLine command a → IsLine command b → a ≡ b }
{
    one_hint();
}

/// Bytes have one list of lines.
pub fn one_list()
    ensures { (bytes : List ℕ) (ended : Bool) (a b : List Line)
        → AreLines bytes ended a → AreLines bytes ended b → a ≡ b }
{
    one_hint();
}

/// The lines that a reader gave until it gave none are those of the bytes that it was fed, however these were cut into pieces.
pub fn gives_all_lines()
    ensures { (bytes : List ℕ) (lines : List Line) (left new : Left)
        → ReadsLines bytes lines left → GivesNoLine left new → AreLines bytes left.fed.ended lines }
{}
