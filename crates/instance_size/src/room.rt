//! The room that antecedents have for their formulas.
ghost use Rattle.std.specs.Prelude.{◌≡◌, map};
ghost use Rattle.std.specs.List.{AllByRecursion};
ghost use Rattle.formula_core.specs.Formulas.{joined};
ghost use Rattle.rule_table.specs.Rules.{antecedent_formulas};
ghost use Rattle.instance_size.specs.Extents.{HasRoom, room_for};
ghost use Rattle.instance_size.specs.Private.{room_over, widened};

use crate::extent::{Extent, no_parts};
use formula_core::Formula;
use rule_table::Antecedent;

/// The nodes of the largest formula of the antecedents, and the height of the highest.
#[tactic(auto, using(crate::proofs::AllFit::all_fit, crate::proofs::AllFit::least))]
pub fn room_of(antecedents: &[Antecedent]) -> Extent
    ensures least { result ≡ room_for (joined (map antecedent_formulas antecedents.now)) }
    ensures room { AllByRecursion (HasRoom result) (joined (map antecedent_formulas antecedents.now)) }
{
    room_over_left(no_parts(), antecedents)
}

fn room_over_left(room: Extent, antecedents: &[Antecedent]) -> Extent
    ensures { result ≡ room_over room (joined (map antecedent_formulas antecedents.now)) }
{
    let mut room = room;
    for antecedent in antecedents {
        room = room_over_antecedent(room, antecedent);
    }
    room
}

fn room_over_antecedent(room: Extent, antecedent: &Antecedent) -> Extent
    ensures { result ≡ room_over room (antecedent_formulas antecedent.now) }
{
    let room = room_over(room, antecedent.hyps.items());
    match &antecedent.goal {
        Some(goal) => widened(room, goal),
        None => room,
    }
}

fn room_over(room: Extent, formulas: &[Formula]) -> Extent
    ensures { result ≡ room_over room formulas.now }
{
    let mut room = room;
    for formula in formulas {
        room = widened(room, formula);
    }
    room
}

fn widened(room: Extent, f: &Formula) -> Extent
    ensures { result ≡ widened room f.now }
{
    Extent {
        nodes: room.nodes.max(f.node_count()),
        height: room.height.max(f.height()),
    }
}
