// Proof trees as bytes.
ghost use Rattle.proof_codec.specs.Parts.{list_bytes, IsList};
ghost use Rattle.proof_codec.specs.ProofTrees.{tree_bytes, IsWritableTree, IsFitTree};
ghost use Rattle.proof_codec.specs.Private.{AreChildren, AreFitTrees, HasGoodRules, HasFitRules, ReadsBy, WritesAs, IsTreeWithin};

use crate::coded::Coded;
use crate::reader::{ReadFault, Reader};
use crate::writer::{write_byte, write_number};
use formula_core::{List, OutOfMemory};
use rule_table::Rule;
use sequent_core::Tree;
use std::alloc::Global;

/// The most nodes of a tree that has bytes.
const MOST_NODES: u64 = 2_048;

impl Coded for Tree {
    ghost IsGood = { IsWritableTree };

    ghost IsFit = { IsFitTree };

    ghost bytes_of = { tree_bytes };

    #[tactic(auto, using(crate::proofs::Heights::tree_read, crate::proofs::Heights::no_tree, crate::proofs::Heights::no_tree_there))]
    fn read(alloc: Global, from: &mut Reader<'_>) -> Result<Tree, ReadFault> {
        let tree = tree_within(alloc, from, 2_048)?;
        if tree.node_count() > MOST_NODES {
            return Err(ReadFault::Bad);
        }
        Ok(tree)
    }

    #[tactic(auto, using(crate::proofs::Growing::small_rules, crate::proofs::Growing::tree_written))]
    fn write(&self, out: &mut Vec<u8>) -> Result<(), OutOfMemory> {
        write_tree(self, out)
    }
}

/// Reads a tree of at most this height.
#[cycle(tree)]
#[tactic(auto, using(crate::proofs::Branches::leaf_read, crate::proofs::Branches::no_tree, crate::proofs::Branches::no_depth, crate::proofs::Branches::no_tag))]
fn tree_within(alloc: Global, from: &mut Reader<'_>, depth: u32) -> Result<Tree, ReadFault>
    ensures { ReadsBy (IsTreeWithin depth) tree_bytes from.old from.new result }
{
    if depth == 0 {
        return Err(ReadFault::Bad);
    }
    match from.byte()? {
        0 => Ok(Tree::Leaf),
        1 => {
            let rule = Rule::read(alloc, from)?;
            let children = children_of(alloc, from, rule.antecedents.items().len(), depth - 1)?;
            Ok(Tree::Node(rule, children))
        }
        _ => Err(ReadFault::Bad),
    }
}

// Reads so many trees of at most this height: their number, and them.
#[cycle(tree)]
#[tactic(auto, using(crate::proofs::Items::no_items, crate::proofs::Items::no_count, crate::proofs::Branches::other_number, crate::proofs::Branches::children_read, crate::proofs::Branches::no_children_there))]
fn children_of(
    alloc: Global,
    from: &mut Reader<'_>,
    wanted: usize,
    depth: u32,
) -> Result<List<Tree>, ReadFault>
    ensures { ReadsBy (AreChildren wanted depth) (list_bytes tree_bytes) from.old from.new result }
{
    let count = from.number()?;
    if count as usize != wanted {
        return Err(ReadFault::Bad);
    }
    let mut children = Vec::new(alloc);
    for _ in 0..count {
        children.push(tree_within(alloc, from, depth)?)?;
    }
    Ok(List::of(children))
}

#[cycle(write)]
#[tactic(auto, using(crate::proofs::Growing::leaf_written, crate::proofs::Growing::node_written, crate::proofs::Growing::small_rule, crate::proofs::Writing::front_behind))]
fn write_tree(tree: &Tree, out: &mut Vec<u8>) -> Result<(), OutOfMemory>
    requires { HasFitRules tree.now }
    ensures { WritesAs HasGoodRules tree_bytes tree.now out.old.items out.new.items result }
{
    match tree {
        Tree::Leaf => write_byte(out, 0),
        Tree::Node(rule, children) => {
            write_byte(out, 1)?;
            rule.write(out)?;
            write_children(children.items(), out)?;
            Ok(())
        }
    }
}

#[cycle(write)]
#[tactic(auto, using(crate::proofs::Writing::no_items_written, crate::proofs::Writing::one_more_written, crate::proofs::Writing::fitting_at, crate::proofs::Writing::list_written, crate::proofs::Writing::front_behind))]
fn write_children(children: &[Tree], out: &mut Vec<u8>) -> Result<(), OutOfMemory>
    requires { AreFitTrees children.now }
    ensures { WritesAs (IsList HasGoodRules) (list_bytes tree_bytes) children.now out.old.items out.new.items result }
{
    write_number(out, children.len() as u32)?;
    for child in children {
        write_tree(child, out)?;
    }
    Ok(())
}
