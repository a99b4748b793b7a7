//! The texts of sequents and trees.
ghost use Rattle.std.specs.Prelude.{◌≡◌, ◌++◌, ◌∷◌, OnOk, IsTrue, string_bytes, true, codes, []};
ghost use Rattle.std.specs.Fmt.{decimal};
ghost use Rattle.std.specs.List.{AllByRecursion, flat_map};
ghost use Rattle.std.specs.Option.{option_to_list};
ghost use Rattle.formula_core.specs.Wellness.{is_well};
ghost use Rattle.formula_print.specs.Printing.{formula_text};
ghost use Rattle.reply_text.specs.Printing.{goal_text, hyp_lines_after, sequent_text, dotted, path_text, node_word, node_goal, tree_line};
ghost use Rattle.formula_core.specs.Substitution.{AreWell};
ghost use Rattle.reply_text.specs.Replies.{goals_of};
ghost use Rattle.reply_text.specs.Statuses.{line};

use crate::pieces::{add_line, add_number, add_words};
use core_steps::NodeLine;
use formula_core::{Formula, OutOfMemory};
use formula_print::text;
use rule_words::rule_word;
use sequent_core::Sequent;
use std::alloc::Global;

/// Adds the text of a formula.
fn add_formula(alloc: Global, out: &mut String, formula: &Formula) -> Result<(), OutOfMemory>
    requires { is_well formula.now ≡ true }
    ensures { OnOk result (string_bytes out.new ≡ string_bytes out.old ++ formula_text formula.now) }
{
    let text = text(alloc, formula)?;
    add_words(out, text.as_str())
}

/// Adds a goal behind its sign.
fn add_goal(alloc: Global, out: &mut String, goal: &Formula) -> Result<(), OutOfMemory>
    requires { is_well goal.now ≡ true }
    ensures { OnOk result (string_bytes out.new ≡ string_bytes out.old ++ goal_text goal.now) }
{
    add_words(out, "⊢ ")?;
    add_formula(alloc, out, goal)
}

/// Adds a hypothesis with its number.
fn add_hyp(alloc: Global, out: &mut String, number: u64, hyp: &Formula) -> Result<(), OutOfMemory>
    requires { is_well hyp.now ≡ true }
    ensures { OnOk result (string_bytes out.new ≡ string_bytes out.old
        ++ line (decimal number ++ codes ": " ++ formula_text hyp.now)) }
{
    add_number(out, number)?;
    add_words(out, ": ")?;
    add_formula(alloc, out, hyp)?;
    add_words(out, "\n")
}

/// Adds the hypotheses, numbered from 1.
#[tactic(auto, using(crate::proofs::Hyps::hyp_added, crate::proofs::Hyps::well_at))]
fn add_hyps(alloc: Global, out: &mut String, hyps: &[Formula]) -> Result<(), OutOfMemory>
    requires { AreWell hyps.now }
    ensures { OnOk result (string_bytes out.new ≡ string_bytes out.old ++ hyp_lines_after 0 hyps.now) }
{
    for (index, hyp) in hyps.iter().enumerate() {
        add_hyp(alloc, out, index as u64 + 1, hyp)?;
    }
    Ok(())
}

/// Adds the hypotheses, numbered from 1, and the goal.
pub fn add_sequent(alloc: Global, out: &mut String, sequent: &Sequent) -> Result<(), OutOfMemory>
    requires { AreWell (sequent.now.goal ∷ sequent.now.hyps) }
    ensures { OnOk result (string_bytes out.new ≡ string_bytes out.old ++ sequent_text sequent.now) }
{
    add_hyps(alloc, out, sequent.hyps.items())?;
    add_goal(alloc, out, &sequent.goal)?;
    add_words(out, "\n")
}

/// Adds more numbers of a path, each behind a dot.
fn add_dotted(out: &mut String, path: &[u32]) -> Result<(), OutOfMemory>
    ensures { OnOk result (string_bytes out.new ≡ string_bytes out.old ++ dotted path.now) }
{
    for number in path {
        add_words(out, ".")?;
        add_number(out, *number as u64)?;
    }
    Ok(())
}

/// Adds a path as a step names it.
pub fn add_path(out: &mut String, path: &[u32]) -> Result<(), OutOfMemory>
    ensures { OnOk result (string_bytes out.new ≡ string_bytes out.old ++ path_text path.now) }
{
    match path {
        [] => add_words(out, "-"),
        [number, rest @ ..] => {
            add_number(out, *number as u64)?;
            add_dotted(out, rest)
        }
    }
}

/// What stands at a node.
fn node_word(kind: Option<u8>) -> &'static str
    ensures { result.now ≡ node_word kind }
{
    match kind {
        Some(kind) => rule_word(kind),
        None => "open",
    }
}

fn add_node_goal(alloc: Global, out: &mut String, goal: &Option<Formula>) -> Result<(), OutOfMemory>
    requires { AreWell (option_to_list goal.now) }
    ensures { OnOk result (string_bytes out.new ≡ string_bytes out.old ++ node_goal goal.now) }
{
    match goal {
        Some(goal) => {
            add_words(out, " ")?;
            add_goal(alloc, out, goal)
        }
        None => Ok(()),
    }
}

/// Adds the line of a node.
fn add_node(alloc: Global, out: &mut String, node: &NodeLine) -> Result<(), OutOfMemory>
    requires { AreWell (goals_of node.now) }
    ensures { OnOk result (string_bytes out.new ≡ string_bytes out.old ++ tree_line node.now) }
{
    add_path(out, node.path.items())?;
    add_words(out, " ")?;
    add_words(out, node_word(node.kind))?;
    add_node_goal(alloc, out, &node.goal)?;
    add_words(out, "\n")
}

/// Adds a line for each node.
#[tactic(auto, using(crate::proofs::Nodes::goals_at))]
pub fn add_nodes(alloc: Global, out: &mut String, nodes: &[NodeLine]) -> Result<(), OutOfMemory>
    requires { AreWell (flat_map goals_of nodes.now) }
    ensures { OnOk result (string_bytes out.new ≡ string_bytes out.old ++ flat_map tree_line nodes.now) }
{
    for node in nodes {
        add_node(alloc, out, node)?;
    }
    Ok(())
}
