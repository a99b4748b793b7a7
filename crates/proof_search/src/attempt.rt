//! Attempts to prove a sequent, each with more fuel.
use crate::finder::Finder;
use search_facts::{Counts, Facts, Limits, Normals};
use search_instances::tells_pairs;
use search_steps::{Id, Search, Stop};
use search_terms::{Branch, Comparisons};
use sequent_core::{Sequent, Tree};
use std::alloc::Global;

/// Which passes a search makes: whether it unfolds sets, and whether it reckons with integers.
#[derive(Clone, Copy, Debug, PartialEq, Eq)]
pub struct Passes {
    pub unfolds: bool,
    pub reckons: bool,
}

/// The fuel of an attempt.
#[derive(Clone, Copy)]
struct Attempt {
    only_near: bool,
    steps: u32,
    limits: Limits,
}

const FIRST: Attempt = Attempt {
    only_near: true,
    steps: 400,
    limits: Limits {
        splits: 2,
        rounds: 1,
    },
};

const SECOND: Attempt = Attempt {
    only_near: false,
    steps: 1500,
    limits: Limits {
        splits: 4,
        rounds: 3,
    },
};

const THIRD: Attempt = Attempt {
    only_near: false,
    steps: 5000,
    limits: Limits {
        splits: 8,
        rounds: 5,
    },
};

/// The greatest height of a tree that is built.
const HIGHEST: u32 = 4096;

/// How much fuel a search has: that of the first attempt, or that of those behind it.
#[derive(Clone, Copy, Debug, PartialEq, Eq)]
pub enum Effort {
    Small,
    Large,
}

/// A tree for the sequent that has at most `budget` rules, if the search finds one. Nothing is known of it yet. It ends with
/// `Stop::Spent` where more fuel might change what is found.
pub fn searched(
    alloc: Global,
    sequent: &Sequent,
    budget: u32,
    passes: Passes,
    effort: Effort,
) -> Result<Option<Tree>, Stop> {
    match effort {
        Effort::Small => attempted(alloc, sequent, budget, passes, FIRST),
        Effort::Large => match attempted(alloc, sequent, budget, passes, SECOND) {
            Err(Stop::Spent) => attempted(alloc, sequent, budget, passes, THIRD),
            other => other,
        },
    }
}

fn attempted(
    alloc: Global,
    sequent: &Sequent,
    budget: u32,
    passes: Passes,
    attempt: Attempt,
) -> Result<Option<Tree>, Stop> {
    let mut search = Search::new(alloc, &sequent.env)?;
    let hyps = search.hypotheses(sequent)?;
    let goal = search.formula_of(&sequent.goal)?;
    let near = search.bank.term(goal).names;
    let mut names = Vec::new(alloc);
    for i in 0..near.count {
        names.push(search.bank.at(near, i))?;
    }
    let near = search.list(&names)?;
    search.refuel(attempt.steps);
    let mut finder = Finder {
        facts: Facts {
            search,
            comparisons: Comparisons::new(alloc),
            counts: Counts::new(alloc),
            normals: Normals::new(alloc),
            near,
            unfolds: passes.unfolds,
            reckons: passes.reckons,
        },
        active: Vec::new(alloc),
        rounds: attempt.limits.rounds,
        held_back: false,
    };
    let mut branch = first_branch(alloc, &mut finder, &hyps, goal, attempt)?;
    match finder.solve(&mut branch, attempt.limits, 400)? {
        Some(proof) if finder.facts.search.proof(proof).size <= budget => {
            Ok(Some(finder.facts.search.tree(proof, HIGHEST)?))
        }
        None if !finder.held_back => Ok(None),
        _ => Err(Stop::Spent),
    }
}

fn first_branch(
    alloc: Global,
    finder: &mut Finder,
    hyps: &[Id],
    goal: Id,
    attempt: Attempt,
) -> Result<Branch, Stop> {
    let mut branch = Branch::new(alloc, goal);
    for hyp in hyps {
        if !attempt.only_near
            || finder.shares_name(*hyp)
            || tells_pairs(&finder.facts.search.bank, *hyp)
        {
            let _ = branch.add(*hyp)?;
        } else {
            finder.held_back = true;
        }
    }
    Ok(branch)
}

impl Finder {
    /// Whether a formula has a name of the goal.
    fn shares_name(&self, f: Id) -> bool {
        let names = self.facts.search.bank.term(f).names;
        for i in 0..names.count {
            if self.facts.is_near(self.facts.search.bank.at(names, i)) {
                return true;
            }
        }
        false
    }
}
