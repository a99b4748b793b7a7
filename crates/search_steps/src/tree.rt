//! The tree of a proof.
use crate::search::Search;
use formula_core::List;
use rule_kernel::used_if_sound;
use rule_table::{Body, Rule};
use sequent_core::Tree;
use term_bank::{Span, Stop};

impl Search {
    /// The tree of a proof, if each of its rules is right.
    #[cycle(tree)]
    pub fn tree(&self, proof: u32, levels: u32) -> Result<Tree, Stop> {
        if levels == 0 {
            return Err(Stop::Spent);
        }
        let proof = self.proof(proof);
        let rule = self.rule(proof.step)?;
        let kids = self.trees(proof.kids, levels - 1)?;
        Ok(Tree::Node(rule, kids))
    }

    #[cycle(tree)]
    fn trees(&self, proofs: Span, levels: u32) -> Result<List<Tree>, Stop> {
        let mut trees = Vec::new(self.alloc);
        if levels > 0 {
            for i in 0..proofs.count {
                let tree = self.tree(self.at(proofs, i), levels - 1)?;
                trees.push(tree)?;
            }
        }
        Ok(List::of(trees))
    }

    /// The rule of a step.
    fn rule(&self, step: u32) -> Result<Rule, Stop> {
        let step = self.step(step);
        let kind = self.rule_kind(step)?;
        let Some(body) = self.body(step)? else {
            return Err(Stop::Spent);
        };
        let Body {
            goal,
            hyps,
            antecedents,
        } = body;
        let mut rule = Rule {
            kind,
            needed_goal: goal,
            needed_hyps: hyps,
            used: List::of(Vec::new(self.alloc)),
            antecedents,
        };
        let Some(used) = used_if_sound(self.alloc, &rule)? else {
            return Err(Stop::Spent);
        };
        rule.used = used;
        Ok(rule)
    }
}
