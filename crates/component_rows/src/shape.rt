//! A component as words and byte places.

use crate::pieces::{Piece, add};
use formula_core::Ref;
use model_core::{Convergence, RawComponent, RawEvent, RawLabelled, RawStep, RawVariant};
use std::alloc::AllocError;

/// Adds a name or label with its place.
fn add_placed<'x>(
    word: &'x str,
    name: &'x str,
    place: u32,
    out: &mut String,
) -> Result<(), AllocError> {
    let place = Piece::Number(place as usize);
    add(
        &[
            Piece::Word(word),
            Piece::Word(name),
            Piece::Word(" "),
            place,
        ],
        out,
    )
}

fn add_refs(word: &str, names: &[Ref], out: &mut String) -> Result<(), AllocError> {
    out.push_str(word)?;
    for name in names {
        add_placed(" ", name.name.as_text(), name.place, out)?;
    }
    Ok(())
}

/// Adds each label with its place and that of the formula's first token.
fn add_lines(word: &str, lines: &[RawLabelled], out: &mut String) -> Result<(), AllocError> {
    out.push_str(word)?;
    for line in lines {
        let mark = if line.theorem { " theorem @" } else { " @" };
        add_placed(mark, line.label.as_text(), line.place, out)?;
        add_placed("", "", line.first, out)?;
    }
    Ok(())
}

fn add_steps(word: &str, steps: &[RawStep], out: &mut String) -> Result<(), AllocError> {
    out.push_str(word)?;
    for step in steps {
        add_placed(" @", step.label.as_text(), step.place, out)?;
    }
    Ok(())
}

fn convergence_words(convergence: Convergence) -> &'static str {
    match convergence {
        Convergence::Ordinary => " ordinary event ",
        Convergence::Convergent => " convergent event ",
        Convergence::Anticipated => " anticipated event ",
    }
}

fn add_event(event: &RawEvent, out: &mut String) -> Result<(), AllocError> {
    let words = convergence_words(event.convergence);
    let abstracts = if event.extended {
        " extends"
    } else {
        " refines"
    };
    add_placed(words, event.name.name.as_text(), event.name.place, out)?;
    add_refs(abstracts, event.refines.items(), out)?;
    add_refs(" any", event.params.items(), out)?;
    add_lines(" where", event.guards.items(), out)?;
    add_lines(" with", event.witnesses.items(), out)?;
    add_steps(" then", event.actions.items(), out)
}

fn add_events(events: &[RawEvent], out: &mut String) -> Result<(), AllocError> {
    for event in events {
        add_event(event, out)?;
    }
    Ok(())
}

fn add_variant(variant: &Option<RawVariant>, out: &mut String) -> Result<(), AllocError> {
    match variant {
        Some(variant) => add_placed(" variant", "", variant.first, out),
        None => Ok(()),
    }
}

/// Adds the words of a component with the byte place behind each name and label, and behind that of a label the place of
/// the first token of its formula.
pub fn add_shape(component: &RawComponent, out: &mut String) -> Result<(), AllocError> {
    match component {
        RawComponent::Context {
            name,
            extends,
            sets,
            constants,
            axioms,
        } => {
            add_placed("context ", name.name.as_text(), name.place, out)?;
            add_refs(" extends", extends.items(), out)?;
            add_refs(" sets", sets.items(), out)?;
            add_refs(" constants", constants.items(), out)?;
            add_lines(" axioms", axioms.items(), out)
        }
        RawComponent::Machine {
            name,
            refines,
            sees,
            variables,
            invariants,
            variant,
            events,
        } => {
            add_placed("machine ", name.name.as_text(), name.place, out)?;
            add_refs(" refines", refines.as_slice(), out)?;
            add_refs(" sees", sees.items(), out)?;
            add_refs(" variables", variables.items(), out)?;
            add_lines(" invariants", invariants.items(), out)?;
            add_variant(variant, out)?;
            add_events(events.items(), out)
        }
    }
}
