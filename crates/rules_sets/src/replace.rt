//! One formula in the place of another.
ghost use Rattle.std.specs.Prelude.{◌≡◌, IfOk, OnOk, ◌++◌, [], ◌∷◌, map};
ghost use Rattle.formula_core.specs.declared.Formula.{Formula};
ghost use Rattle.rule_table.specs.Rewriting.{replaced};

use formula_core::{Binder, Formula, List, Op, OutOfMemory, Ty, copy_types};
use std::alloc::Global;

/// The formula with `new` in the place of each outermost occurrence of `old`.
pub fn replaced(
    alloc: Global,
    old: &Formula,
    new: &Formula,
    f: &Formula,
) -> Result<Formula, OutOfMemory>
    ensures formula { IfOk result (λ g. g ≡ replaced old.now new.now f.now) }
{
    let mut out = Vec::new(alloc);
    add_replaced(f, alloc, old, new, &mut out)?;
    match out.pop() {
        Some(g) => Ok(g),
        None => unreachable!(),
    }
}

#[cycle(replace)]
fn add_replaced(
    f: &Formula,
    alloc: Global,
    old: &Formula,
    new: &Formula,
    out: &mut Vec<Formula>,
) -> Result<(), OutOfMemory>
    ensures { OnOk result (out.new.items ≡ out.old.items ++ replaced old.now new.now f.now ∷ []) }
{
    if f.same(old) {
        return add_copy(alloc, new, out);
    }
    match f {
        Formula::Int(_) => add_copy(alloc, f, out),
        Formula::Free(_, _) => add_copy(alloc, f, out),
        Formula::Bound(_, _) => add_copy(alloc, f, out),
        Formula::Node(op, parts, ty) => {
            let mut made = Vec::new(alloc);
            add_all_replaced(parts.items(), alloc, old, new, &mut made)?;
            add_node(alloc, *op, made, ty, out)
        }
        Formula::Bind(binder, types, parts, ty) => {
            let mut made = Vec::new(alloc);
            add_all_replaced(parts.items(), alloc, old, new, &mut made)?;
            add_binder(alloc, *binder, types.items(), made, ty, out)
        }
    }
}

#[cycle(replace)]
fn add_all_replaced(
    items: &[Formula],
    alloc: Global,
    old: &Formula,
    new: &Formula,
    out: &mut Vec<Formula>,
) -> Result<(), OutOfMemory>
    ensures { OnOk result (out.new.items ≡ out.old.items ++ map (replaced old.now new.now) items.now) }
{
    for item in items {
        add_replaced(item, alloc, old, new, out)?;
    }
    Ok(())
}

// A recursion that makes formulas adds each by one of these calls after it has come back, so its own frame is small.

pub(crate) fn add_copy(
    alloc: Global,
    f: &Formula,
    out: &mut Vec<Formula>,
) -> Result<(), OutOfMemory>
    ensures { OnOk result (out.new.items ≡ out.old.items ++ f.now ∷ []) }
{
    out.push(f.copy(alloc)?)?;
    Ok(())
}

pub(crate) fn add_node(
    alloc: Global,
    op: Op,
    parts: Vec<Formula>,
    ty: &Ty,
    out: &mut Vec<Formula>,
) -> Result<(), OutOfMemory>
    ensures { OnOk result (out.new.items ≡ out.old.items ++ Formula.Node op parts.items ty.now ∷ []) }
{
    out.push(Formula::Node(op, List::of(parts), ty.copy(alloc)?))?;
    Ok(())
}

pub(crate) fn add_binder(
    alloc: Global,
    binder: Binder,
    types: &[Ty],
    parts: Vec<Formula>,
    ty: &Ty,
    out: &mut Vec<Formula>,
) -> Result<(), OutOfMemory>
    ensures { OnOk result (out.new.items ≡ out.old.items ++ Formula.Bind binder types.now parts.items ty.now ∷ []) }
{
    let types = copy_types(alloc, types)?;
    out.push(Formula::Bind(binder, types, List::of(parts), ty.copy(alloc)?))?;
    Ok(())
}
