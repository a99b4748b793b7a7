//! Equations of a branch, and what they rewrite.
use crate::facts::{Facts, LEVELS};
use formula_core::Op;
use rule_table::Law;
use search_steps::{Id, Kind, Link, NONE, Stop};
use search_terms::{Branch, Equation, State};
use std::alloc::Global;

/// What a formula is by the equations of one version, and the looks that it took to find it.
#[derive(Clone, Copy)]
struct Normal {
    version: u32,
    form: Id,
    looks: u32,
}

/// What formulas are by the equations of branches: of each formula what was found last.
#[derive(Drop)]
pub struct Normals {
    found: Vec<Normal>,
    versions: u32,
}

impl Normals {
    pub fn new(alloc: Global) -> Normals {
        Normals {
            found: Vec::new(alloc),
            versions: 0,
        }
    }

    fn of(&self, f: Id, version: u32) -> Option<Normal> {
        match self.found.get(f as usize) {
            Some(normal) if normal.version == version => Some(*normal),
            _ => None,
        }
    }

    fn note(&mut self, count: usize, f: Id, normal: Normal) -> Result<(), Stop> {
        for _ in self.found.len()..count {
            self.found.push(Normal {
                version: 0,
                form: NONE,
                looks: 0,
            })?;
        }
        if (f as usize) < self.found.len() {
            self.found[f as usize] = normal;
        }
        Ok(())
    }

    /// The version of equations that were never there.
    fn next(&mut self) -> u32 {
        self.versions = self.versions.saturating_add(1);
        self.versions
    }
}

impl Facts {
    /// Has an equation among the hypotheses as it rewrites, and gives it.
    pub fn use_equation(
        &mut self,
        b: &mut Branch,
        chain: &mut Vec<Link>,
        equation: Equation,
    ) -> Result<Id, Stop> {
        let wanted = self.search.bank.equal(equation.left, equation.right)?;
        if wanted != equation.hyp && !b.has(wanted) {
            let step = self.search.rewriting(equation.hyp, Law::EqualTurned, &[])?;
            self.quiet(b, chain, step)?;
        }
        Ok(wanted)
    }

    /// The equation of a branch at a place.
    pub fn equation_at(&self, b: &Branch, i: usize) -> Equation {
        match b.equations.get(i) {
            Some(found) => *found,
            None => Equation {
                left: NONE,
                right: NONE,
                hyp: NONE,
            },
        }
    }

    /// The first equation whose left side stands in a formula.
    pub fn equation_for(&self, b: &Branch, f: Id) -> Option<Equation> {
        for equation in &b.equations {
            if equation.hyp != f && self.search.bank.contains(f, equation.left, LEVELS) {
                return Some(*equation);
            }
        }
        None
    }

    /// Rewrites a hypothesis by an equation of the branch. Whether it did.
    pub fn rewritten(
        &mut self,
        b: &mut Branch,
        chain: &mut Vec<Link>,
        h: Id,
    ) -> Result<bool, Stop> {
        let Some(equation) = self.equation_for(b, h) else {
            return Ok(false);
        };
        let by = self.use_equation(b, chain, equation)?;
        b.set_state(h, State::Rewritten)?;
        let step = self.search.on_hyps(Kind::EqHyp, &[by, h])?;
        let _ = self.forward(b, chain, step)?;
        Ok(true)
    }

    /// Takes an equation among those that rewrite.
    pub fn take_equation(&mut self, b: &mut Branch, h: Id) -> Result<(), Stop> {
        let Some((left, right)) = self.oriented(h)? else {
            return Ok(());
        };
        self.drop_equations(b, left)?;
        b.equations.push(Equation {
            left,
            right,
            hyp: h,
        })?;
        b.version = self.normals.next();
        for i in 0..b.order.len() {
            let f = b.at(i);
            if f != h && self.is_to_renew(b, f) && self.search.bank.contains(f, left, LEVELS) {
                b.renew(f)?;
            }
        }
        Ok(())
    }

    /// Whether a new equation may say more of a hypothesis: one that is live, or `E ↦ F ∈ r`, from which names have gone.
    fn is_to_renew(&self, b: &Branch, f: Id) -> bool {
        if b.is_live(f) {
            return true;
        }
        let element = self.search.bank.part(f, 0);
        b.state(f) == State::Rewritten
            && self.search.bank.is(f, Op::Member)
            && self.search.bank.is(element, Op::Maplet)
    }

    /// Equations that have a left side inside are looked at again.
    fn drop_equations(&mut self, b: &mut Branch, left: Id) -> Result<(), Stop> {
        let mut kept = Vec::new(self.search.alloc());
        for i in 0..b.equations.len() {
            let equation = self.equation_at(b, i);
            if self.search.bank.contains(equation.hyp, left, LEVELS) {
                b.renew(equation.hyp)?;
            } else {
                kept.push(equation)?;
            }
        }
        b.equations = kept;
        Ok(())
    }

    /// A formula rewritten by the equations of the branch, on paper.
    pub fn normal(&mut self, b: &Branch, f: Id) -> Result<Id, Stop> {
        if b.equations.is_empty() {
            return Ok(f);
        }
        if let Some(normal) = self.normals.of(f, b.version) {
            self.search.look_again(normal.looks)?;
            return Ok(normal.form);
        }
        let mut looks: u32 = 0;
        let mut now = f;
        for _ in 0..12u32 {
            let before = now;
            now = self.once_rewritten(b, now, &mut looks)?;
            if now == before {
                break;
            }
        }
        let normal = Normal {
            version: b.version,
            form: now,
            looks,
        };
        self.normals.note(self.search.bank.len(), f, normal)?;
        Ok(now)
    }

    /// A formula rewritten by each equation of the branch, and so many looks more.
    fn once_rewritten(&mut self, b: &Branch, f: Id, looks: &mut u32) -> Result<Id, Stop> {
        let mut now = f;
        for equation in &b.equations {
            if self.search.bank.may_contain(now, equation.left) {
                self.search.look()?;
                *looks = looks.saturating_add(1);
                now = self
                    .search
                    .bank
                    .replaced(now, equation.left, equation.right, 4096)?;
            }
        }
        Ok(now)
    }
}
