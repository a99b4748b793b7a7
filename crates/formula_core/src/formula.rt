ghost use Rattle.std.specs.Prelude.{◌≡◌, ◌↔◌, IsTrue, IfOk, OnOk, ◌++◌, ◌∷◌};
ghost use Rattle.formula_core.specs.Formulas.{substituted, instantiated, instantiated_step, body, only};
ghost use Rattle.formula_core.specs.declared.formula.Formula.{Formula};
ghost use Rattle.formula_core.specs.declared.formula.Formula.TheOpen.{Bound as IndexStep};
ghost use Rattle.std.specs.Option.{option_copied};
ghost use Rattle.std.specs.Map.{lookup};
ghost use Rattle.std.specs.Prelude.{map, [], bytes_eq, ℕ, min, ◌^◌, ◌+◌, length, IsSome, IfSome};
ghost use Rattle.formula_core.specs.Wellness.{is_well, type_of};
ghost use Rattle.formula_core.specs.Same.{same_formula};
ghost use Rattle.formula_core.specs.Substitution.{HasWellTerms, TypesAgree, AreWell, bound_types};

use crate::list::List;
use crate::memory::OutOfMemory;
use crate::name::Name;
use crate::op::{Binder, Op};
use crate::ty::{Ty, copy_types, same_types};
use std::alloc::Global;

/// `Bound(0, _)` is the last identifier of the nearest binder.
pub enum Formula {
    Int(i128),
    Free(Name, Ty),
    Bound(u32, Ty),
    Node(Op, List<Formula>, Ty),
    Bind(Binder, List<Ty>, List<Formula>, Ty),
}

// One call drops a formula, where a derive would take each variant apart in every function that owns one.
impl Drop for Formula {
    fn drop(self) {
        match self {
            Formula::Int(_) => {}
            Formula::Free(_, _) => {}
            Formula::Bound(_, _) => {}
            Formula::Node(_, _, _) => {}
            Formula::Bind(_, _, _, _) => {}
        }
    }
}

impl Formula {
    /// Whether it is the same formula.
    pub fn same(&self, other: &Formula) -> bool
        ensures exact { IsTrue result ↔ (self.now ≡ other.now) }
        ensures test { result ≡ same_formula self.now other.now }
    {
        self.is_same(other)
    }

    #[cycle(same)]
    fn is_same(&self, other: &Formula) -> bool
        ensures { IsTrue result ↔ (self.now ≡ other.now) }
    {
        match self {
            Formula::Int(a) => match other {
                Formula::Int(b) => *a == *b,
                _ => false,
            },
            Formula::Free(a, t) => match other {
                Formula::Free(b, u) => a.same(b) && t.same(u),
                _ => false,
            },
            Formula::Bound(a, t) => match other {
                Formula::Bound(b, u) => *a == *b && t.same(u),
                _ => false,
            },
            Formula::Node(a, xs, t) => match other {
                Formula::Node(b, ys, u) => {
                    a.same(*b) && t.same(u) && same_formulas(xs.items(), ys.items())
                }
                _ => false,
            },
            Formula::Bind(a, xs, ps, t) => match other {
                Formula::Bind(b, ys, qs, u) => {
                    a.same(*b)
                        && t.same(u)
                        && same_types(xs.items(), ys.items())
                        && same_formulas(ps.items(), qs.items())
                }
                _ => false,
            },
        }
    }

    pub fn copy(&self, alloc: Global) -> Result<Formula, OutOfMemory>
        ensures { IfOk result (λ f. f ≡ self.now) }
    {
        let mut out = Vec::with_capacity(alloc, 1)?;
        self.copy_onto(alloc, &mut out)?;
        Ok(only_of(out))
    }

    /// Adds a copy at the end of a list. The lists in it have no room for more.
    #[cycle(copy)]
    pub fn copy_onto(&self, alloc: Global, out: &mut Vec<Formula>) -> Result<(), OutOfMemory>
        ensures { OnOk result (out.new.items ≡ out.old.items ++ self.now ∷ []) }
    {
        match self {
            Formula::Int(n) => add_number(*n, out),
            Formula::Free(name, ty) => add_identifier(alloc, name, ty, out),
            Formula::Bound(at, ty) => add_index(alloc, *at, ty, out),
            Formula::Node(op, parts, ty) => {
                let parts = parts.items();
                let mut copies = Vec::with_capacity(alloc, parts.len())?;
                copy_all(parts, alloc, &mut copies)?;
                add_node(alloc, *op, copies, ty, out)
            }
            Formula::Bind(binder, types, parts, ty) => {
                let parts = parts.items();
                let mut copies = Vec::with_capacity(alloc, parts.len())?;
                copy_all(parts, alloc, &mut copies)?;
                add_binder(alloc, *binder, types.items(), copies, ty, out)
            }
        }
    }
}

#[cycle(same)]
pub fn same_formulas(xs: &[Formula], ys: &[Formula]) -> bool
    ensures { IsTrue result ↔ (xs.now ≡ ys.now) }
{
    if xs.len() != ys.len() {
        return false;
    }
    for i in 0..xs.len() {
        if !xs[i].is_same(&ys[i]) {
            return false;
        }
    }
    true
}

pub fn copy_formulas(alloc: Global, items: &[Formula]) -> Result<List<Formula>, OutOfMemory>
    ensures { IfOk result (λ xs. xs ≡ items.now) }
{
    let mut copies = Vec::with_capacity(alloc, items.len())?;
    copy_all(items, alloc, &mut copies)?;
    Ok(List::of(copies))
}

#[cycle(copy)]
fn copy_all(items: &[Formula], alloc: Global, out: &mut Vec<Formula>) -> Result<(), OutOfMemory>
    ensures { OnOk result (out.new.items ≡ out.old.items ++ items.now) }
{
    for item in items {
        item.copy_onto(alloc, out)?;
    }
    Ok(())
}

// A recursion that makes formulas adds each at the end of a list, by one of these calls after it has come back: so its own frame is small, and high formulas need little stack.

pub(crate) fn add_number(n: i128, out: &mut Vec<Formula>) -> Result<(), OutOfMemory>
    ensures { OnOk result (out.new.items ≡ out.old.items ++ Formula.Int n ∷ []) }
{
    out.push(Formula::Int(n))?;
    Ok(())
}

pub(crate) fn add_identifier(
    alloc: Global,
    name: &Name,
    ty: &Ty,
    out: &mut Vec<Formula>,
) -> Result<(), OutOfMemory>
    ensures { OnOk result (out.new.items ≡ out.old.items ++ Formula.Free name.now ty.now ∷ []) }
{
    out.push(Formula::Free(name.copy(alloc)?, ty.copy(alloc)?))?;
    Ok(())
}

pub(crate) fn add_index(
    alloc: Global,
    at: u32,
    ty: &Ty,
    out: &mut Vec<Formula>,
) -> Result<(), OutOfMemory>
    ensures { OnOk result (out.new.items ≡ out.old.items ++ Formula.Bound at ty.now ∷ []) }
{
    out.push(Formula::Bound(at, ty.copy(alloc)?))?;
    Ok(())
}

pub(crate) fn add_node(
    alloc: Global,
    op: Op,
    parts: Vec<Formula>,
    ty: &Ty,
    out: &mut Vec<Formula>,
) -> Result<(), OutOfMemory>
    ensures { OnOk result (out.new.items ≡ out.old.items ++ Formula.Node op parts.items ty.now ∷ []) }
{
    out.push(Formula::Node(op, List::of(parts), ty.copy(alloc)?))?;
    Ok(())
}

pub(crate) fn add_binder(
    alloc: Global,
    binder: Binder,
    types: &[Ty],
    parts: Vec<Formula>,
    ty: &Ty,
    out: &mut Vec<Formula>,
) -> Result<(), OutOfMemory>
    ensures { OnOk result (out.new.items ≡ out.old.items ++ Formula.Bind binder types.now parts.items ty.now ∷ []) }
{
    let types = copy_types(alloc, types)?;
    out.push(Formula::Bind(binder, types, List::of(parts), ty.copy(alloc)?))?;
    Ok(())
}

/// The formula of a list of one.
pub(crate) fn only_of(made: Vec<Formula>) -> Formula
    requires { length made.items ≡ 1 }
    ensures { (f : Formula) → made.items ≡ f ∷ [] → result ≡ f }
{
    let mut made = made;
    match made.pop() {
        Some(f) => f,
        None => unreachable!(),
    }
}

impl Formula {
    /// The formula with its free identifiers replaced, all pairs at once.
    #[tactic(auto, using(crate::proofs::Substitution::kept_by_substitution))]
    pub fn substitute(
        &self,
        alloc: Global,
        pairs: &[(Name, Formula)],
    ) -> Result<Formula, OutOfMemory>
        requires terms { HasWellTerms pairs.now }
        requires types { TypesAgree pairs.now self.now }
        ensures value { IfOk result (λ f. f ≡ substituted pairs.now self.now) }
        ensures well { IsTrue (is_well self.now) → IfOk result (λ f. IsTrue (is_well f)) }
        ensures typed { IfOk result (λ f. type_of f ≡ type_of self.now) }
    {
        self.substitute_any(alloc, pairs)
    }

    /// The same, where the formulas need not be well.
    pub fn substitute_any(
        &self,
        alloc: Global,
        pairs: &[(Name, Formula)],
    ) -> Result<Formula, OutOfMemory>
        ensures { IfOk result (λ f. f ≡ substituted pairs.now self.now) }
    {
        let mut out = Vec::new(alloc);
        self.substitute_onto(alloc, pairs, &mut out)?;
        Ok(only_of(out))
    }

    #[cycle(substitute)]
    fn substitute_onto(
        &self,
        alloc: Global,
        pairs: &[(Name, Formula)],
        out: &mut Vec<Formula>,
    ) -> Result<(), OutOfMemory>
        ensures { OnOk result (out.new.items ≡ out.old.items ++ substituted pairs.now self.now ∷ []) }
    {
        match self {
            Formula::Int(n) => add_number(*n, out),
            Formula::Free(name, ty) => match term_at(pairs, name) {
                Some(term) => term.copy_onto(alloc, out),
                None => add_identifier(alloc, name, ty, out),
            },
            Formula::Bound(at, ty) => add_index(alloc, *at, ty, out),
            Formula::Node(op, parts, ty) => {
                let mut made = Vec::new(alloc);
                substitute_all(parts.items(), alloc, pairs, &mut made)?;
                add_node(alloc, *op, made, ty, out)
            }
            Formula::Bind(binder, types, parts, ty) => {
                let mut made = Vec::new(alloc);
                substitute_all(parts.items(), alloc, pairs, &mut made)?;
                add_binder(alloc, *binder, types.items(), made, ty, out)
            }
        }
    }
}

#[cycle(substitute)]
fn substitute_all(
    items: &[Formula],
    alloc: Global,
    pairs: &[(Name, Formula)],
    out: &mut Vec<Formula>,
) -> Result<(), OutOfMemory>
    ensures { OnOk result (out.new.items ≡ out.old.items ++ map (substituted pairs.now) items.now) }
{
    for item in items {
        item.substitute_onto(alloc, pairs, out)?;
    }
    Ok(())
}

fn term_at<'a>(pairs: &'a [(Name, Formula)], name: &Name) -> Option<&'a Formula>
    ensures { option_copied result ≡ lookup (bytes_eq name.now) pairs.now }
{
    for pair in pairs {
        if name.same(&pair.0) {
            return Some(&pair.1);
        }
    }
    None
}

impl Formula {
    /// The body of a quantifier with its identifiers replaced.
    pub fn instantiate(&self, alloc: Global, terms: &[Formula]) -> Result<Formula, OutOfMemory>
        requires quantifier { IsSome (body self.now) }
        requires terms { AreWell terms.now }
        requires types { bound_types self.now ≡ map type_of terms.now }
        ensures value { IfSome (body self.now) (λ b. IfOk result (λ f. f ≡ instantiated terms.now 0 b)) }
        ensures well { IsTrue (is_well self.now) → IfOk result (λ f. IsTrue (is_well f)) }
        ensures typed { IsTrue (is_well self.now) → IfOk result (λ f. type_of f ≡ type_of self.now) }
    {
        match self.body() {
            Some(part) => part.instantiate_any(alloc, terms),
            None => unreachable!(),
        }
    }

    /// The formula, as the body of a binder, with terms in the place of its identifiers. Neither needs to be well.
    pub fn instantiate_any(&self, alloc: Global, terms: &[Formula]) -> Result<Formula, OutOfMemory>
        ensures { IfOk result (λ f. f ≡ instantiated terms.now 0 self.now) }
    {
        let mut out = Vec::new(alloc);
        self.instantiate_onto(alloc, terms, 0, &mut out)?;
        Ok(only_of(out))
    }

    /// The body of a quantifier.
    pub fn body(&self) -> Option<&Formula>
        ensures { option_copied result ≡ body self.now }
    {
        match self {
            Formula::Bind(binder, _, parts, _) => match binder {
                Binder::ForAll | Binder::Exists => only(parts.items()),
                _ => None,
            },
            _ => None,
        }
    }

    /// The same below some identifiers that are bound inside, or 2^32 of them where there are more, which is above every index.
    #[cycle(instantiate)]
    fn instantiate_onto(
        &self,
        alloc: Global,
        terms: &[Formula],
        depth: u64,
        out: &mut Vec<Formula>,
    ) -> Result<(), OutOfMemory>
        ensures { (d : ℕ) → depth ≡ min d (2 ^ 32)
            → OnOk result (out.new.items ≡ out.old.items ++ instantiated terms.now d self.now ∷ []) }
    {
        match self {
            Formula::Int(n) => add_number(*n, out),
            Formula::Free(name, ty) => add_identifier(alloc, name, ty, out),
            Formula::Bound(at, ty) => instantiate_index(alloc, *at, ty, terms, depth, out),
            Formula::Node(op, parts, ty) => {
                let mut made = Vec::new(alloc);
                instantiate_all(parts.items(), alloc, terms, depth, &mut made)?;
                add_node(alloc, *op, made, ty, out)?;
                Ok(())
            }
            Formula::Bind(binder, types, parts, ty) => {
                let mut made = Vec::new(alloc);
                let depth = deeper(depth, types.items());
                instantiate_all(parts.items(), alloc, terms, depth, &mut made)?;
                add_binder(alloc, *binder, types.items(), made, ty, out)?;
                Ok(())
            }
        }
    }
}

#[cycle(instantiate)]
fn instantiate_all(
    items: &[Formula],
    alloc: Global,
    terms: &[Formula],
    depth: u64,
    out: &mut Vec<Formula>,
) -> Result<(), OutOfMemory>
    ensures { (d : ℕ) → depth ≡ min d (2 ^ 32)
        → OnOk result (out.new.items ≡ out.old.items ++ map (instantiated terms.now d) items.now) }
{
    for item in items {
        item.instantiate_onto(alloc, terms, depth, out)?;
    }
    Ok(())
}

fn instantiate_index(
    alloc: Global,
    at: u32,
    ty: &Ty,
    terms: &[Formula],
    depth: u64,
    out: &mut Vec<Formula>,
) -> Result<(), OutOfMemory>
    ensures { OnOk result (out.new.items
        ≡ out.old.items ++ instantiated_step terms.now (IndexStep at ty.now) depth ∷ []) }
{
    if (at as u64) < depth {
        return add_index(alloc, at, ty, out);
    }
    let from_last = (at as u64 - depth) as usize;
    if from_last < terms.len() {
        return terms[terms.len() - 1 - from_last].copy_onto(alloc, out);
    }
    add_index(alloc, (at as usize - terms.len()) as u32, ty, out)?;
    Ok(())
}

/// The depth below a binder, or 2^32 where it is greater.
pub(crate) fn deeper(depth: u64, types: &[Ty]) -> u64
    ensures { (d : ℕ) → depth ≡ min d (2 ^ 32) → result ≡ min (d + length types.now) (2 ^ 32) }
{
    depth.saturating_add(types.len() as u64).min(1 << 32)
}

/// The element of a list of one.
fn only(parts: &[Formula]) -> Option<&Formula>
    ensures { option_copied result ≡ only parts.now }
{
    match parts {
        [part] => Some(part),
        _ => None,
    }
}
