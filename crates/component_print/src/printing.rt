//! The text of components.

ghost use Rattle.std.specs.Prelude.{◌≡◌, ◌++◌, string_bytes, OnOk, IfOk};
ghost use Rattle.component_print.specs.Printed.{heading_text, context_sections, machine_sections, component_text};
ghost use Rattle.component_print.specs.Back.{IsReadable, IsReread};

use crate::machine::{print_events, print_variant};
use crate::sections::{print_names, print_section};
use component_tokens::pieces_one_way;
use formula_core::{OutOfMemory, Ref};
use formula_parse::one_formula;
use math_action::one_action;
use model_core::{RawComponent, RawEvent, RawLabelled, RawVariant};
use std::alloc::Global;

fn print_context_sections(
    extends: &[Ref],
    sets: &[Ref],
    constants: &[Ref],
    axioms: &[RawLabelled],
    out: &mut String,
) -> Result<(), OutOfMemory>
    ensures { OnOk result (string_bytes out.new
        ≡ string_bytes out.old ++ context_sections extends.now sets.now constants.now axioms.now) }
{
    print_names("extends", extends, out)?;
    print_names("sets", sets, out)?;
    print_names("constants", constants, out)?;
    print_section("axioms", "  ", axioms, out)
}

fn print_machine_sections(
    refines: &Option<Ref>,
    sees: &[Ref],
    variables: &[Ref],
    invariants: &[RawLabelled],
    variant: &Option<RawVariant>,
    events: &[RawEvent],
    out: &mut String,
) -> Result<(), OutOfMemory>
    ensures { OnOk result (string_bytes out.new ≡ string_bytes out.old
        ++ machine_sections refines.now sees.now variables.now invariants.now variant.now events.now) }
{
    print_names("refines", refines.as_slice(), out)?;
    print_names("sees", sees, out)?;
    print_names("variables", variables, out)?;
    print_section("invariants", "  ", invariants, out)?;
    print_variant(variant, out)?;
    print_events(events, out)
}

fn print_onto(component: &RawComponent, out: &mut String) -> Result<(), OutOfMemory>
    ensures { OnOk result (string_bytes out.new ≡ string_bytes out.old ++ component_text component.now) }
{
    match component {
        RawComponent::Context {
            name,
            extends,
            sets,
            constants,
            axioms,
        } => {
            print_heading("context ", name, out)?;
            print_context_sections(
                extends.items(),
                sets.items(),
                constants.items(),
                axioms.items(),
                out,
            )?;
        }
        RawComponent::Machine {
            name,
            refines,
            sees,
            variables,
            invariants,
            variant,
            events,
        } => {
            print_heading("machine ", name, out)?;
            print_machine_sections(
                refines,
                sees.items(),
                variables.items(),
                invariants.items(),
                variant,
                events.items(),
                out,
            )?;
        }
    }
    out.push_str("end\n")?;
    Ok(())
}

fn print_heading(word: &str, name: &Ref, out: &mut String) -> Result<(), OutOfMemory>
    ensures { OnOk result (string_bytes out.new ≡ string_bytes out.old ++ heading_text word.now name.now) }
{
    out.push_str(word)?;
    out.push_str(name.name.as_text())?;
    out.push_str("\n")?;
    Ok(())
}

/// The text of a component, with one labelled formula a line and parentheses round each operand that doesn't stand alone.
pub fn print(alloc: Global, component: &RawComponent) -> Result<String, OutOfMemory>
    // It is one that `component_text::read` can give.
    requires { IsReadable component.now }
    ensures text { IfOk result (λ text. string_bytes text ≡ component_text component.now) }
    // What is read of the text is the same component but for places, or that the added parentheses make a formula too large.
    ensures reads_back { IfOk result (λ text. IsReread component.now (string_bytes text)) }
{
    one_formula();
    one_action();
    pieces_one_way();
    let mut out = String::new(alloc);
    print_onto(component, &mut out)?;
    Ok(out)
}
