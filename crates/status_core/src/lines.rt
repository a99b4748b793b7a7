// The nodes of trees, as they are shown.
ghost use Rattle.std.specs.Prelude.{◌≡◌, ◌++◌, ◌∷◌, [], map, Some, None, if◌then◌else◌, IfOk, OnOk};
ghost use Rattle.std.specs.Option.{option_copied};
ghost use Rattle.sequent_core.specs.Sequents.{IsSequent};
ghost use Rattle.core_steps.specs.declared.events.Event.{Event};
ghost use Rattle.core_steps.specs.declared.events.Question.{Question};
ghost use Rattle.core_steps.specs.Proving.{ShowsTree, goal_of, lines_below, node_lines};
ghost use Rattle.status_core.specs.PrivateParts.{ComesAs, Prepares};

use crate::core_state::Core;
use crate::proving::{does_apply, tree_of};
use core_steps::{NodeLine, Reply};
use formula_core::{Formula, List, OutOfMemory, PoName};
use prepared_events::Prepared;
use sequent_core::{Antecedent, Path, Sequent, Tree};
use std::alloc::Global;

impl Core {
    /// What comes of the question for a tree.
    pub(crate) fn prepare_tree(&self, name: &PoName) -> Result<Prepared, OutOfMemory>
        ensures { IfOk result (λ p. Prepares self.now (Event.Ask (Question.TreeOf name.now)) p) }
    {
        match self.find(name) {
            None => self.tell_none(name),
            Some(obligation) => self.show_tree(name, &obligation.sequent),
        }
    }

    // The nodes of the stored tree, whose leaves have goals where it applies.
    fn show_tree(&self, name: &PoName, sequent: &Sequent) -> Result<Prepared, OutOfMemory>
        requires { IsSequent sequent.now }
        ensures { IfOk result (λ p. ComesAs self.now (ShowsTree self.now name.now sequent.now) p) }
    {
        let stored = self.durable.proofs.get(name);
        let goal = goal_if(does_apply(stored, sequent), &sequent.goal);
        let bare = Tree::Leaf;
        let tree = tree_of(stored, &bare);
        let lines = lines_of(self.alloc, tree, goal)?;
        Ok(self.tell(Reply::Nodes(List::of(lines))))
    }
}

fn goal_if(is_wanted: bool, goal: &Formula) -> Option<&Formula>
    ensures { option_copied result ≡ (if is_wanted then Some goal.now else None) }
{
    if is_wanted { Some(goal) } else { None }
}

// The lines of a tree.
fn lines_of(
    alloc: Global,
    tree: &Tree,
    goal: Option<&Formula>,
) -> Result<Vec<NodeLine>, OutOfMemory>
    ensures { IfOk result (λ lines. lines.items ≡ node_lines tree.now [] (option_copied goal.entry)) }
{
    let mut lines = Vec::new(alloc);
    let root = List::of(Vec::new(alloc));
    add_lines(alloc, tree, root, goal, &mut lines)?;
    Ok(lines)
}

// Adds the lines of the tree at the path, parents first.
#[cycle(lines)]
fn add_lines(
    alloc: Global,
    tree: &Tree,
    path: Path,
    goal: Option<&Formula>,
    lines: &mut Vec<NodeLine>,
) -> Result<(), OutOfMemory>
    ensures { OnOk result (lines.new.items ≡ lines.old.items ++ node_lines tree.now path (option_copied goal.entry)) }
{
    match tree {
        Tree::Leaf => {
            let goal = copy_goal(alloc, goal)?;
            lines.push(NodeLine {
                path,
                kind: None,
                goal,
            })?;
            Ok(())
        }
        Tree::Node(rule, children) => {
            lines.push(NodeLine {
                path: copy_path(alloc, &path)?,
                kind: Some(rule.kind.number()),
                goal: None,
            })?;
            add_children(
                alloc,
                children.items(),
                rule.antecedents.items(),
                &path,
                goal,
                lines,
            )
        }
    }
}

// Adds the lines of the children below the path, each with the goal that its antecedent leaves.
#[cycle(lines)]
fn add_children(
    alloc: Global,
    children: &[Tree],
    antecedents: &[Antecedent],
    path: &Path,
    goal: Option<&Formula>,
    lines: &mut Vec<NodeLine>,
) -> Result<(), OutOfMemory>
    ensures { OnOk result (lines.new.items ≡ lines.old.items
        ++ lines_below 0 (map node_lines children.now) antecedents.now path.now (option_copied goal.entry)) }
{
    for at in 0..children.len() {
        let child = child_path(alloc, path, at)?;
        let left = goal_after(antecedents.get(at), goal);
        add_lines(alloc, &children[at], child, left, lines)?;
    }
    Ok(())
}

fn child_path(alloc: Global, path: &Path, at: usize) -> Result<Path, OutOfMemory>
    ensures { IfOk result (λ child. child ≡ path.now ++ at ∷ []) }
{
    let Ok(at) = u32::try_from(at) else {
        return Err(OutOfMemory);
    };
    let mut child = copy_path(alloc, path)?.into_vec();
    child.push(at)?;
    Ok(List::of(child))
}

fn copy_path(alloc: Global, path: &Path) -> Result<Path, OutOfMemory>
    ensures { IfOk result (λ copy. copy ≡ path.now) }
{
    let mut copy = Vec::new(alloc);
    for at in path.items() {
        copy.push(*at)?;
    }
    Ok(List::of(copy))
}

fn copy_goal(alloc: Global, goal: Option<&Formula>) -> Result<Option<Formula>, OutOfMemory>
    ensures { IfOk result (λ copy. copy ≡ option_copied goal.entry) }
{
    match goal {
        None => Ok(None),
        Some(goal) => Ok(Some(goal.copy(alloc)?)),
    }
}

// The goal that an antecedent leaves, if there is one, where the goal is told.
fn goal_after<'a>(
    antecedent: Option<&'a Antecedent>,
    goal: Option<&'a Formula>,
) -> Option<&'a Formula>
    ensures { option_copied result ≡ goal_of (option_copied antecedent.entry) (option_copied goal.entry) }
{
    let antecedent = antecedent?;
    let goal = goal?;
    match &antecedent.goal {
        None => Some(goal),
        Some(new) => Some(new),
    }
}
