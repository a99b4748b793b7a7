// What was found of a tree so far.
ghost use Rattle.std.specs.Prelude.{◌≡◌, ◌∷◌, ◌++◌, [], None, OnOk, IsTrue, IfSome, Contains};
ghost use Rattle.std.specs.List.{AllByRecursion};
ghost use Rattle.formula_core.specs.Env.{type_in};
ghost use Rattle.formula_core.specs.Typed.{Stands};
ghost use Rattle.sequent_core.specs.declared.sequent.Sequent.{Sequent};
ghost use Rattle.sequent_core.specs.Trees.{Meets};
ghost use Rattle.proof_deps.specs.Private.{antecedents_on, Allows, Narrows};

use crate::print::print;
use crate::way::Way;
use formula_core::{Env, EnvFault, Formula, Name, OutOfMemory, Ty};
use sequent_core::Rule;
use std::alloc::Global;
use std::collections::BTreeMap;

/// What was found of a tree so far. It is not possible once no sequent can have all of it.
#[derive(Drop)]
pub struct Found {
    pub possible: bool,
    pub goal: Option<Formula>,
    pub hyps: Vec<Formula>,
    /// The last place of a hypothesis with this number.
    pub places: BTreeMap<u64, usize>,
    pub used: Env,
    pub fresh: Vec<Name>,
}

impl Found {
    pub fn new(alloc: Global) -> Found
        ensures { (s : Sequent) → Allows result s }
    {
        Found {
            possible: true,
            goal: None,
            hyps: Vec::new(alloc),
            places: BTreeMap::new(alloc),
            used: Env::new(alloc),
            fresh: Vec::new(alloc),
        }
    }

    /// What a rule at the end of the way asks for.
    pub fn need_rule(
        &mut self,
        alloc: Global,
        rule: &Rule,
        way: &Way<'_>,
    ) -> Result<(), OutOfMemory>
        ensures { OnOk result (Narrows (antecedents_on way.now) (Meets rule.now) self.old self.new) }
    {
        self.need_goal(alloc, &rule.needed_goal, way)?;
        self.need_hyps(alloc, rule.needed_hyps.items(), way)?;
        self.need_used(alloc, rule.used.items(), way)?;
        Ok(())
    }

    /// That what an antecedent adds at the end of the way isn't there.
    pub fn need_fresh(
        &mut self,
        alloc: Global,
        added: &[(Name, Ty)],
        way: &Way<'_>,
    ) -> Result<(), OutOfMemory>
        ensures { OnOk result (Narrows (antecedents_on way.now)
            (λ s. AllByRecursion (λ x. type_in s.env x.0 ≡ None) added.now) self.old self.new) }
    {
        for identifier in added {
            self.need_new(alloc, &identifier.0, way)?;
        }
        Ok(())
    }

    fn need_goal(
        &mut self,
        alloc: Global,
        wanted: &Option<Formula>,
        way: &Way<'_>,
    ) -> Result<(), OutOfMemory>
        ensures { OnOk result (Narrows (antecedents_on way.now)
            (λ s. IfSome wanted.now (λ g. g ≡ s.goal)) self.old self.new) }
    {
        let Some(goal) = wanted else {
            return Ok(());
        };
        if let Some(known) = way.goal() {
            if !goal.same(known) {
                self.possible = false;
            }
            return Ok(());
        }
        if let Some(old) = &self.goal {
            if !old.same(goal) {
                self.possible = false;
            }
            return Ok(());
        }
        self.goal = Some(goal.copy(alloc)?);
        Ok(())
    }

    fn need_hyps(
        &mut self,
        alloc: Global,
        wanted: &[Formula],
        way: &Way<'_>,
    ) -> Result<(), OutOfMemory>
        ensures { OnOk result (Narrows (antecedents_on way.now)
            (λ s. AllByRecursion (Contains s.hyps) wanted.now) self.old self.new) }
    {
        for formula in wanted {
            self.need_hyp(alloc, formula, way)?;
        }
        Ok(())
    }

    fn need_hyp(
        &mut self,
        alloc: Global,
        formula: &Formula,
        way: &Way<'_>,
    ) -> Result<(), OutOfMemory>
        ensures { OnOk result (Narrows (antecedents_on way.now) (λ s. Contains s.hyps formula.now) self.old self.new) }
    {
        if way.adds(formula) {
            return Ok(());
        }
        let print = print(formula);
        if self.has_hyp(print, formula) {
            return Ok(());
        }
        let at = self.hyps.len();
        self.hyps.push(formula.copy(alloc)?)?;
        self.places.insert(print, at)?;
        Ok(())
    }

    /// Whether the hypothesis is known to be there, from the place that its number has.
    fn has_hyp(&self, print: u64, formula: &Formula) -> bool
        ensures { IsTrue result → Contains self.now.hyps.items formula.now }
    {
        match self.places.get(&print) {
            Some(at) => match self.hyps.get(*at) {
                Some(hyp) => hyp.same(formula),
                None => false,
            },
            None => false,
        }
    }

    fn need_used(
        &mut self,
        alloc: Global,
        wanted: &[(Name, Ty)],
        way: &Way<'_>,
    ) -> Result<(), OutOfMemory>
        ensures { OnOk result (Narrows (antecedents_on way.now)
            (λ s. AllByRecursion (Stands s.env) wanted.now) self.old self.new) }
    {
        for identifier in wanted {
            self.need_type(alloc, &identifier.0, &identifier.1, way)?;
        }
        Ok(())
    }

    fn need_type(
        &mut self,
        alloc: Global,
        name: &Name,
        ty: &Ty,
        way: &Way<'_>,
    ) -> Result<(), OutOfMemory>
        ensures { OnOk result (Narrows (antecedents_on way.now)
            (λ s. Stands s.env (name.now, ty.now)) self.old self.new) }
    {
        if let Some(known) = way.type_of(name) {
            if !known.same(ty) {
                self.possible = false;
            }
            return Ok(());
        }
        if let Some(known) = self.used.get(name) {
            if !known.same(ty) {
                self.possible = false;
            }
            return Ok(());
        }
        add_used(alloc, &mut self.used, name, ty)?;
        Ok(())
    }

    fn need_new(&mut self, alloc: Global, name: &Name, way: &Way<'_>) -> Result<(), OutOfMemory>
        ensures { OnOk result (Narrows (antecedents_on way.now)
            (λ s. type_in s.env name.now ≡ None) self.old self.new) }
    {
        if way.type_of(name).is_some() {
            self.possible = false;
            return Ok(());
        }
        self.fresh.push(name.copy(alloc)?)?;
        Ok(())
    }
}

/// Adds a name that isn't there yet, so that only memory can be wanting.
fn add_used(alloc: Global, used: &mut Env, name: &Name, ty: &Ty) -> Result<(), OutOfMemory>
    requires { type_in used.old name.now ≡ None }
    ensures { OnOk result (used.new ≡ used.old ++ (name.now, ty.now) ∷ []) }
{
    let name = name.copy(alloc)?;
    match used.add(name, ty.copy(alloc)?) {
        Ok(()) => Ok(()),
        Err(EnvFault::OutOfMemory) => Err(OutOfMemory),
        Err(EnvFault::Taken) => unreachable!(),
    }
}
