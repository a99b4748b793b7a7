//! The parts of machines.

ghost use Rattle.std.specs.Prelude.{◌≡◌, ◌++◌, string_bytes, OnOk};
ghost use Rattle.component_print.specs.Printed.{step_line, steps_section, convergence_text, abstract_words, event_heading, event_text, events_section, variant_line};

use crate::sections::{print_names, print_section};
use formula_core::OutOfMemory;
use model_core::{Convergence, RawEvent, RawStep, RawVariant};
use raw_print::{print_action, print_formula};

fn print_step(step: &RawStep, out: &mut String) -> Result<(), OutOfMemory>
    ensures { OnOk result (string_bytes out.new ≡ string_bytes out.old ++ step_line step.now) }
{
    out.push_str("      @")?;
    out.push_str(step.label.as_text())?;
    out.push_str(" ")?;
    print_action(out, &step.action)?;
    out.push_str("\n")?;
    Ok(())
}

fn print_steps(steps: &[RawStep], out: &mut String) -> Result<(), OutOfMemory>
    ensures { OnOk result (string_bytes out.new ≡ string_bytes out.old ++ steps_section steps.now) }
{
    if steps.is_empty() {
        return Ok(());
    }
    out.push_str("    then\n")?;
    for step in steps {
        print_step(step, out)?;
    }
    Ok(())
}

fn convergence_word(convergence: Convergence) -> &'static str
    ensures { result.now ≡ convergence_text convergence }
{
    match convergence {
        Convergence::Ordinary => "",
        Convergence::Convergent => "convergent ",
        Convergence::Anticipated => "anticipated ",
    }
}

fn abstract_words(extended: bool) -> &'static str
    ensures { result.now ≡ abstract_words extended }
{
    if extended {
        "    extends"
    } else {
        "    refines"
    }
}

fn print_event_heading(event: &RawEvent, out: &mut String) -> Result<(), OutOfMemory>
    ensures { OnOk result (string_bytes out.new ≡ string_bytes out.old ++ event_heading event.now) }
{
    out.push_str("  ")?;
    out.push_str(convergence_word(event.convergence))?;
    out.push_str("event ")?;
    out.push_str(event.name.name.as_text())?;
    out.push_str("\n")?;
    Ok(())
}

fn print_event(event: &RawEvent, out: &mut String) -> Result<(), OutOfMemory>
    ensures { OnOk result (string_bytes out.new ≡ string_bytes out.old ++ event_text event.now) }
{
    print_event_heading(event, out)?;
    print_names(abstract_words(event.extended), event.refines.items(), out)?;
    print_names("    any", event.params.items(), out)?;
    print_section("    where", "      ", event.guards.items(), out)?;
    print_section("    with", "      ", event.witnesses.items(), out)?;
    print_steps(event.actions.items(), out)?;
    out.push_str("  end\n")?;
    Ok(())
}

/// Adds the events, where there are some.
pub fn print_events(events: &[RawEvent], out: &mut String) -> Result<(), OutOfMemory>
    ensures { OnOk result (string_bytes out.new ≡ string_bytes out.old ++ events_section events.now) }
{
    if events.is_empty() {
        return Ok(());
    }
    out.push_str("events\n")?;
    for event in events {
        print_event(event, out)?;
    }
    Ok(())
}

/// Adds the variant, if there is one.
pub fn print_variant(variant: &Option<RawVariant>, out: &mut String) -> Result<(), OutOfMemory>
    ensures { OnOk result (string_bytes out.new ≡ string_bytes out.old ++ variant_line variant.now) }
{
    if let Some(variant) = variant {
        out.push_str("variant ")?;
        print_formula(out, &variant.formula)?;
        out.push_str("\n")?;
    }
    Ok(())
}
