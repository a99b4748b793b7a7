//! The linear form of an expression.
ghost use Rattle.std.specs.Prelude.{◌≡◌, ◌++◌, ◌∷◌, [], map, length, IfOk, OnOk, Ok};
ghost use Rattle.formula_core.specs.declared.Formula.{Formula};
ghost use Rattle.rule_table.specs.Linear.{constant_form, atom, linear, unary_form, binary_form, node_form, product_form, then_do, joined_by};
ghost use Rattle.rules_arith.specs.Private.{has_linear_parts};

use crate::joining::{
    Checked, Joining, LinearForm, joined_forms, of_atom, of_number, product_form,
};
use formula_core::{Formula, Op, OutOfMemory};
use std::alloc::Global;

/// The linear form of an integer expression.
pub(crate) fn linear(alloc: Global, f: &Formula) -> Result<Checked<LinearForm<'_>>, OutOfMemory>
    ensures { IfOk result (λ o. o ≡ linear f.now) }
{
    let mut out = Vec::new(alloc);
    add_form(f, alloc, &mut out)?;
    Ok(one_of(out))
}

// The recursion adds each form at the end of a list, by a call after it has come back: so its own frame is small, and high formulas need little stack.

/// Adds the form of an expression at the end of a list.
#[cycle(forms)]
#[tactic(auto, using(crate::proofs::Forms::equations, crate::proofs::Forms::lengths))]
fn add_form<'a>(
    f: &'a Formula,
    alloc: Global,
    out: &mut Vec<Checked<LinearForm<'a>>>,
) -> Result<(), OutOfMemory>
    ensures { OnOk result (out.new.items ≡ out.old.items ++ linear f.now ∷ []) }
{
    match f {
        Formula::Int(n) => add_number(alloc, *n, out),
        Formula::Free(_, _) | Formula::Bound(_, _) | Formula::Bind(_, _, _, _) => {
            add_atom(alloc, f, out)
        }
        Formula::Node(op, parts, _) => {
            if !has_linear_parts(*op) {
                return add_atom(alloc, f, out);
            }
            let mut forms = Vec::new(alloc);
            add_forms(parts.items(), alloc, &mut forms)?;
            add_node_form(alloc, *op, f, parts.items(), forms, out)
        }
    }
}

#[cycle(forms)]
fn add_forms<'a>(
    items: &'a [Formula],
    alloc: Global,
    out: &mut Vec<Checked<LinearForm<'a>>>,
) -> Result<(), OutOfMemory>
    ensures { OnOk result (out.new.items ≡ out.old.items ++ map linear items.now) }
{
    for item in items {
        add_form(item, alloc, out)?;
    }
    Ok(())
}

/// Whether an operator on expressions with linear forms may have one but as a whole.
fn has_linear_parts(op: Op) -> bool
    ensures { result ≡ has_linear_parts op }
{
    match op {
        Op::Negate | Op::Plus | Op::Minus | Op::Times => true,
        _ => false,
    }
}

fn add_number<'a>(
    alloc: Global,
    n: i128,
    out: &mut Vec<Checked<LinearForm<'a>>>,
) -> Result<(), OutOfMemory>
    ensures { OnOk result (out.new.items ≡ out.old.items ++ Ok (constant_form n) ∷ []) }
{
    out.push(Ok(of_number(alloc, n)))?;
    Ok(())
}

fn add_atom<'a>(
    alloc: Global,
    f: &'a Formula,
    out: &mut Vec<Checked<LinearForm<'a>>>,
) -> Result<(), OutOfMemory>
    ensures { OnOk result (out.new.items ≡ out.old.items ++ Ok (atom f.now) ∷ []) }
{
    out.push(Ok(of_atom(alloc, f)?))?;
    Ok(())
}

/// Adds the form of an operator on parts with these forms.
fn add_node_form<'a>(
    alloc: Global,
    op: Op,
    f: &'a Formula,
    parts: &[Formula],
    forms: Vec<Checked<LinearForm<'a>>>,
    out: &mut Vec<Checked<LinearForm<'a>>>,
) -> Result<(), OutOfMemory>
    requires { length forms.items ≡ length parts.now }
    ensures { OnOk result (out.new.items ≡ out.old.items ++ node_form op f.now forms.entry.items ∷ []) }
{
    out.push(node_form(alloc, op, f, parts, forms)?)?;
    Ok(())
}

/// The form of a list of one.
fn one_of<'a>(forms: Vec<Checked<LinearForm<'a>>>) -> Checked<LinearForm<'a>>
    requires { length forms.items ≡ 1 }
    ensures { forms.entry.items ≡ result ∷ [] }
{
    let mut forms = forms;
    match forms.pop() {
        Some(form) => form,
        None => unreachable!(),
    }
}

/// The forms of a list of two.
fn two_of<'a>(
    forms: Vec<Checked<LinearForm<'a>>>,
) -> (Checked<LinearForm<'a>>, Checked<LinearForm<'a>>)
    requires { length forms.items ≡ 2 }
    ensures { forms.entry.items ≡ result.0 ∷ result.1 ∷ [] }
{
    let mut forms = forms;
    match forms.pop() {
        Some(second) => (one_of(forms), second),
        None => unreachable!(),
    }
}

/// The form of an operator on parts with these forms.
fn node_form<'a>(
    alloc: Global,
    op: Op,
    f: &'a Formula,
    parts: &[Formula],
    forms: Vec<Checked<LinearForm<'a>>>,
) -> Result<Checked<LinearForm<'a>>, OutOfMemory>
    requires { length forms.items ≡ length parts.now }
    ensures { IfOk result (λ o. o ≡ node_form op f.now forms.entry.items) }
{
    match parts {
        [_] => unary_form(alloc, op, f, one_of(forms)),
        [_, _] => {
            let (a, b) = two_of(forms);
            binary_form(alloc, op, f, a, b)
        }
        _ => Ok(Ok(of_atom(alloc, f)?)),
    }
}

fn unary_form<'a>(
    alloc: Global,
    op: Op,
    f: &'a Formula,
    a: Checked<LinearForm<'a>>,
) -> Result<Checked<LinearForm<'a>>, OutOfMemory>
    ensures { IfOk result (λ o. o ≡ unary_form op f.now a.entry) }
{
    match op {
        Op::Negate => joined_forms(alloc, Joining::Difference, Ok(of_number(alloc, 0)), a),
        _ => Ok(Ok(of_atom(alloc, f)?)),
    }
}

fn binary_form<'a>(
    alloc: Global,
    op: Op,
    f: &'a Formula,
    a: Checked<LinearForm<'a>>,
    b: Checked<LinearForm<'a>>,
) -> Result<Checked<LinearForm<'a>>, OutOfMemory>
    ensures { IfOk result (λ o. o ≡ binary_form op f.now a.entry b.entry) }
{
    match op {
        Op::Plus => joined_forms(alloc, Joining::Sum, a, b),
        Op::Minus => joined_forms(alloc, Joining::Difference, a, b),
        Op::Times => match a {
            Ok(a) => match b {
                Ok(b) => product_form(alloc, f, a, b),
                Err(operands) => Ok(Err(operands)),
            },
            Err(operands) => Ok(Err(operands)),
        },
        _ => Ok(Ok(of_atom(alloc, f)?)),
    }
}
