// The identifiers that are bound at a place of a formula.
ghost use Rattle.std.specs.Prelude.{◌≡◌, ◌+◌, ◌<◌, ◌++◌, length, reverse, drop, slice_get, false, IfSome};
ghost use Rattle.std.specs.Option.{option_copied, option_map_or};
ghost use Rattle.formula_core.specs.Types.{same_type};
ghost use Rattle.formula_core.specs.PrivateScopes.{types_below};

use crate::ty::Ty;
use std::marker::Model;

/// The identifiers that are bound at a place, the nearest binder first.
///
/// Each binder knows the next one and one further out, so that an index is found in steps in proportion to the logarithm
/// of the number of binders (as in a skew-binary list), and no memory is taken.
#[derive(Drop)]
pub struct Scope<'a> {
    types: &'a [Ty],
    outer: Option<&'a Scope<'a>>,
    further: Option<&'a Scope<'a>>,
    // How many identifiers are nearer than those of `further`, and how many binders.
    skipped: usize,
    binders: usize,
}

impl<'a> Model for Scope<'a> {
    ghost use Rattle.std.specs.Prelude.{◌≡◌, ◌++◌, ◌<◌, List, reverse, drop, length, IfSome};
    ghost use Rattle.std.specs.Option.{option_copied};
    ghost use Rattle.std.specs.Coded.{codes};
    ghost use Rattle.formula_core.specs.declared.ty.Ty.{Ty};
    ghost use Rattle.formula_core.specs.contracts.ty.Ty as ty;
    ghost use Rattle.formula_core.specs.PrivateScopes.{types_below};

    ghost Value = { List Ty };

    ghost coded = { Prim.hlevel (codes, ty.the_row.coded) };

    ghost view = { λ s. reverse s.types.now ++ types_below (option_copied s.outer) };

    ghost invariant = { λ s. (0 < length s.types.now)
        × IfSome s.further (λ f. (0 < s.skipped)
        × (f.now ≡ drop s.skipped (reverse s.types.now ++ types_below (option_copied s.outer)))) };

    ghost size = { length };

    ghost use Rattle.std.proofs.Common.{arith, length-append};
    ghost use Rattle.std.proofs.lemmas.List.{length-reverse, length-drop};

    ghost size_decreases = { λ a h. Prim.grind (arith, length-append, length-reverse, length-drop) };
}

/// A binder further out, and how many identifiers and binders are nearer.
#[derive(Clone, Copy)]
struct Jump<'a> {
    scope: &'a Scope<'a>,
    skipped: usize,
    binders: usize,
}

impl<'a> Scope<'a> {
    /// With the identifiers of one more binder, which has some.
    pub fn under(types: &'a [Ty], outer: Option<&'a Scope<'a>>) -> Scope<'a>
        requires { 0 < length types.now }
        ensures { result ≡ reverse types.now ++ types_below (option_copied outer.entry) }
    {
        match jump_from(types, outer) {
            Some(jump) => Scope {
                types,
                outer,
                further: Some(jump.scope),
                skipped: jump.skipped,
                binders: jump.binders,
            },
            None => Scope {
                types,
                outer,
                further: None,
                skipped: 0,
                binders: 1,
            },
        }
    }

    /// The type of the identifier with an index.
    #[tactic(auto, using(crate::proofs::Scopes::scopes))]
    pub fn get(&self, at: usize) -> Option<&Ty>
        ensures { option_copied result ≡ slice_get self.now at }
    {
        if at < self.types.len() {
            return from_last(self.types, at);
        }
        match self.further {
            Some(further) if at >= self.skipped => further.get(at - self.skipped),
            _ => match self.outer {
                Some(outer) => outer.get(at - self.types.len()),
                None => None,
            },
        }
    }

    /// Whether the identifier with an index is bound, with this type.
    pub fn has(&self, at: u32, ty: &Ty) -> bool
        ensures { result ≡ option_map_or (λ u. same_type u ty.now) (slice_get self.now at) false }
    {
        match self.get(at as usize) {
            Some(found) => found.same(ty),
            None => false,
        }
    }
}

/// From a binder of these types to one further out. None where it is the outermost one.
#[tactic(auto, using(crate::proofs::Scopes::scopes))]
fn jump_from<'a>(types: &[Ty], outer: Option<&'a Scope<'a>>) -> Option<Jump<'a>>
    requires { 0 < length types.now }
    ensures further { IfSome result (λ to. 0 < to.skipped) }
    ensures scope { IfSome result (λ to.
        to.scope.now ≡ drop to.skipped (reverse types.now ++ types_below (option_copied outer.entry))) }
{
    let near = outer?;
    match jump_over_two(types, near) {
        Some(jump) => Some(jump),
        None => Some(Jump {
            scope: near,
            skipped: types.len(),
            binders: 1,
        }),
    }
}

/// Over the next two jumps, if both are as long.
#[tactic(auto, using(crate::proofs::Scopes::scopes))]
fn jump_over_two<'a>(types: &[Ty], near: &'a Scope<'a>) -> Option<Jump<'a>>
    requires { 0 < length types.now }
    ensures further { IfSome result (λ to. 0 < to.skipped) }
    ensures scope { IfSome result (λ to. to.scope.now ≡ drop to.skipped (reverse types.now ++ near.now)) }
{
    let middle = near.further?;
    let scope = middle.further?;
    if near.binders != middle.binders {
        return None;
    }
    let skipped = skipped_over(types.len(), near.skipped, middle.skipped)?;
    let binders = near.binders.saturating_add(middle.binders);
    Some(Jump {
        scope,
        skipped,
        binders: binders.saturating_add(1),
    })
}

/// The sum, if it is a number.
fn skipped_over(own: usize, near: usize, middle: usize) -> Option<usize>
    ensures { IfSome result (λ sum. sum ≡ own + (near + middle)) }
{
    own.checked_add(near.checked_add(middle)?)
}

/// The element at a place, from the last one on.
fn from_last(types: &[Ty], at: usize) -> Option<&Ty>
    ensures { option_copied result ≡ slice_get (reverse types.now) at }
{
    if at < types.len() {
        Some(&types[types.len() - 1 - at])
    } else {
        None
    }
}
