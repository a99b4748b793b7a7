//! An overridden function at other arguments.
ghost use Rattle.std.specs.Prelude.{◌≡◌, IfOk, OnOk, ◌++◌, [], ◌∷◌, map};
ghost use Rattle.std.specs.Option.{option_map};
ghost use Rattle.formula_core.specs.declared.Formula.{Formula};
ghost use Rattle.formula_core.specs.Wellness.{type_of};
ghost use Rattle.rule_table.specs.Rewriting.{replaced_over, without_override};
ghost use Rattle.rule_table.specs.Shapes.{applied};

use crate::replace::{add_binder, add_copy, add_node};
use crate::words::two_copies;
use formula_core::{Formula, List, Op, OutOfMemory, Ty};
use rule_table::{operand, two_operands};
use std::alloc::Global;

/// The formula with `f(z)` in the place of each outermost `(f <+ {x ↦ y})(z)`.
pub(crate) fn replaced_over(
    alloc: Global,
    z: &Formula,
    x: &Formula,
    f: &Formula,
) -> Result<Formula, OutOfMemory>
    ensures formula { IfOk result (λ g. g ≡ replaced_over z.now x.now f.now) }
{
    let mut out = Vec::new(alloc);
    add_replaced_over(f, alloc, z, x, &mut out)?;
    match out.pop() {
        Some(g) => Ok(g),
        None => unreachable!(),
    }
}

#[cycle(over)]
fn add_replaced_over(
    f: &Formula,
    alloc: Global,
    z: &Formula,
    x: &Formula,
    out: &mut Vec<Formula>,
) -> Result<(), OutOfMemory>
    ensures { OnOk result (out.new.items ≡ out.old.items ++ replaced_over z.now x.now f.now ∷ []) }
{
    match f {
        Formula::Int(_) => add_copy(alloc, f, out),
        Formula::Free(_, _) => add_copy(alloc, f, out),
        Formula::Bound(_, _) => add_copy(alloc, f, out),
        Formula::Node(op, parts, ty) => match without_override(z, x, f) {
            Some(g) => add_applied(alloc, g, z, f, out),
            None => {
                let mut made = Vec::new(alloc);
                add_all_replaced_over(parts.items(), alloc, z, x, &mut made)?;
                add_node(alloc, *op, made, ty, out)
            }
        },
        Formula::Bind(binder, types, parts, ty) => {
            let mut made = Vec::new(alloc);
            add_all_replaced_over(parts.items(), alloc, z, x, &mut made)?;
            add_binder(alloc, *binder, types.items(), made, ty, out)
        }
    }
}

#[cycle(over)]
fn add_all_replaced_over(
    items: &[Formula],
    alloc: Global,
    z: &Formula,
    x: &Formula,
    out: &mut Vec<Formula>,
) -> Result<(), OutOfMemory>
    ensures { OnOk result (out.new.items ≡ out.old.items ++ map (replaced_over z.now x.now) items.now) }
{
    for item in items {
        add_replaced_over(item, alloc, z, x, out)?;
    }
    Ok(())
}

/// f, of `(f <+ {x ↦ y})(z)`.
fn without_override<'a>(z: &Formula, x: &Formula, h: &'a Formula) -> Option<&'a Formula>
    ensures { option_map (λ f. applied f.now z.now (type_of h.now)) result ≡ without_override z.now x.now h.now }
{
    let (g, e) = two_operands(Op::Apply, h)?;
    if !e.same(z) {
        return None;
    }
    let (f, s) = two_operands(Op::Overriding, g)?;
    let p = operand(Op::SetExtension, s)?;
    let (d, _) = two_operands(Op::Maplet, p)?;
    if !d.same(x) {
        return None;
    }
    Some(f)
}

/// `f(z)`, of the type of a formula.
fn add_applied(
    alloc: Global,
    f: &Formula,
    z: &Formula,
    of: &Formula,
    out: &mut Vec<Formula>,
) -> Result<(), OutOfMemory>
    ensures { OnOk result (out.new.items ≡ out.old.items ++ applied f.now z.now (type_of of.now) ∷ []) }
{
    let integer = Ty::Int;
    let parts = two_copies(alloc, f, z)?;
    let ty = of.type_of(&integer).copy(alloc)?;
    out.push(Formula::Node(Op::Apply, parts, ty))?;
    Ok(())
}
