//! Sections of names and of labelled formulas.

ghost use Rattle.std.specs.Prelude.{◌≡◌, ◌++◌, string_bytes, OnOk};
ghost use Rattle.component_print.specs.Printed.{names_line, labelled_line, section};

use formula_core::{OutOfMemory, Ref};
use model_core::RawLabelled;
use raw_print::print_formula;

/// Adds a line of these words and the names, where there are names.
pub fn print_names(words: &str, names: &[Ref], out: &mut String) -> Result<(), OutOfMemory>
    ensures { OnOk result (string_bytes out.new ≡ string_bytes out.old ++ names_line words.now names.now) }
{
    if names.is_empty() {
        return Ok(());
    }
    out.push_str(words)?;
    for reference in names {
        out.push_str(" ")?;
        out.push_str(reference.name.as_text())?;
    }
    out.push_str("\n")?;
    Ok(())
}

fn print_labelled(margin: &str, line: &RawLabelled, out: &mut String) -> Result<(), OutOfMemory>
    ensures { OnOk result (string_bytes out.new ≡ string_bytes out.old ++ labelled_line margin.now line.now) }
{
    out.push_str(margin)?;
    if line.theorem {
        out.push_str("theorem ")?;
    }
    out.push_str("@")?;
    out.push_str(line.label.as_text())?;
    out.push_str(" ")?;
    print_formula(out, &line.formula)?;
    out.push_str("\n")?;
    Ok(())
}

/// Adds a line of these words and one for each formula, behind the margin, where there are formulas.
pub fn print_section(
    words: &str,
    margin: &str,
    lines: &[RawLabelled],
    out: &mut String,
) -> Result<(), OutOfMemory>
    ensures { OnOk result (string_bytes out.new ≡ string_bytes out.old ++ section words.now margin.now lines.now) }
{
    if lines.is_empty() {
        return Ok(());
    }
    out.push_str(words)?;
    out.push_str("\n")?;
    for line in lines {
        print_labelled(margin, line, out)?;
    }
    Ok(())
}
