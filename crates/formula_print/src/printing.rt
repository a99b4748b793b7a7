//! The printed text of a formula.
#![tactic(auto, using(crate::proofs::Equations::texts))]

ghost use Rattle.std.specs.Prelude.{◌≡◌, ◌++◌, ◌+◌, ◌<◌, ◌^◌, IfOk, OnOk, IsTrue, string_bytes, map, length, false};
ghost use Rattle.std.specs.Fmt.{signed_decimal};
ghost use Rattle.formula_print.specs.declared.levels.Side.TheVariants as side;
ghost use Rattle.formula_core.specs.Wellness.{is_well};
ghost use Rattle.token_text.specs.Pieces.{text_of, operator_piece, separated_pieces};
ghost use Rattle.formula_print.specs.Held.{IsHeld};
ghost use Rattle.formula_print.specs.Written.{IsTypedBack};
ghost use Rattle.formula_print.specs.Printing.{printed_operand, typed_constant, printed_constant, printed_unary, printed_second, printed_members, printed_operator, printed_node, name_at, printed_declaration, printed_declarations, binder_end_of, printed_body, printed_binder, printed_bind, printed, formula_text};
ghost use Rattle.formula_print.specs.Private.{printed_parts, comma_after};

use crate::levels::{Side, needs_parentheses};
use crate::names::bound_names;
use crate::signs::{closing_of, denied_op, opening_of};
use crate::types::print_type;
use formula_core::{Binder, Formula, Name, Op, OutOfMemory, RawOp, Ty};
use math_grammar::{binder_sign_of, raw_sign_of};
use std::alloc::Global;

/// What is bound around a place of a formula.
#[derive(Drop)]
struct Around<'a> {
    /// What the identifiers that are bound in the formula are called, from the outermost one on.
    names: &'a [Name],
    /// How many of them are bound around the place.
    depth: usize,
}

/// The printed text of a formula.
pub fn text(alloc: Global, formula: &Formula) -> Result<String, OutOfMemory>
    requires { IsTrue (is_well formula.now) }
    ensures exact { IfOk result (λ text. string_bytes text ≡ formula_text formula.now) }
    // What is written of the formula is typed as the formula.
    ensures typed { OnOk result (IsTypedBack formula.now) }
    ensures held { OnOk result (IsHeld formula.now) }
{
    let names = bound_names(alloc, formula)?;
    let mut out = String::new(alloc);
    let around = Around {
        names: names.as_slice(),
        depth: 0,
    };
    print(formula, false, &around, &mut out)?;
    Ok(out)
}

/// Adds the text of a formula, as it stands or denied, with what is bound around it.
#[cycle(printing)]
fn print(
    formula: &Formula,
    denied: bool,
    around: &Around<'_>,
    out: &mut String,
) -> Result<(), OutOfMemory>
    ensures { OnOk result (string_bytes out.new
        ≡ string_bytes out.old ++ text_of (printed around.now.names.now formula.now denied around.now.depth)) }
{
    match formula {
        Formula::Int(n) => print_number(*n, out),
        Formula::Free(name, _) => print_text(name.as_text(), out),
        Formula::Bound(at, _) => {
            let at = around.depth.saturating_sub(1).saturating_sub(*at as usize);
            print_name(around.names, at, out)
        }
        Formula::Node(op, parts, ty) => print_node(parts.items(), *op, ty, denied, around, out),
        Formula::Bind(binder, types, parts, _) => print_bind(
            parts.items(),
            *binder,
            types.items(),
            denied,
            around,
            out,
        ),
    }
}

fn print_text(text: &str, out: &mut String) -> Result<(), OutOfMemory>
    ensures { OnOk result (string_bytes out.new ≡ string_bytes out.old ++ text.now) }
{
    out.push_str(text)?;
    Ok(())
}

fn print_number(n: i128, out: &mut String) -> Result<(), OutOfMemory>
    ensures { OnOk result (string_bytes out.new ≡ string_bytes out.old ++ signed_decimal n) }
{
    write!(out, "{n}")?;
    Ok(())
}

/// Adds the name of a bound identifier.
fn print_name(names: &[Name], at: usize, out: &mut String) -> Result<(), OutOfMemory>
    ensures { OnOk result (string_bytes out.new ≡ string_bytes out.old ++ name_at names.now at) }
{
    match names.get(at) {
        Some(name) => print_text(name.as_text(), out),
        None => Ok(()),
    }
}

#[cycle(printing)]
fn print_node(
    parts: &[Formula],
    op: Op,
    ty: &Ty,
    denied: bool,
    around: &Around<'_>,
    out: &mut String,
) -> Result<(), OutOfMemory>
    ensures { OnOk result (string_bytes out.new ≡ string_bytes out.old ++ text_of (printed_node
        op (printed_parts around.now.names.now parts.now) ty.now denied around.now.depth)) }
{
    if denied {
        out.push_str(opening_of(op))?;
        print_operator(parts, op, denied_op(op), ty, around, out)?;
        out.push_str(closing_of(op))?;
        Ok(())
    } else {
        print_operator(parts, op, RawOp::Plain(op), ty, around, out)
    }
}

/// Adds the text of an operator with the sign with which it is written.
#[cycle(printing)]
fn print_operator(
    parts: &[Formula],
    op: Op,
    written: RawOp,
    ty: &Ty,
    around: &Around<'_>,
    out: &mut String,
) -> Result<(), OutOfMemory>
    ensures { OnOk result (string_bytes out.new ≡ string_bytes out.old ++ text_of (printed_operator
        op (operator_piece written) (printed_parts around.now.names.now parts.now) ty.now around.now.depth)) }
{
    match op {
        Op::SetExtension => print_members(parts, around, out),
        _ => match parts {
            [] => print_constant(op, written, ty, out),
            [a] => print_unary(a, op, written, around, out),
            [a, b] => {
                print_operand(a, op, Side::Left, around, out)?;
                print_second(b, op, written, around, out)
            }
            _ => Ok(()),
        },
    }
}

fn print_constant(op: Op, written: RawOp, ty: &Ty, out: &mut String) -> Result<(), OutOfMemory>
    ensures { OnOk result (string_bytes out.new
        ≡ string_bytes out.old ++ text_of (printed_constant op (operator_piece written) ty.now)) }
{
    match op {
        Op::EmptySet | Op::Identity | Op::FirstProjection | Op::SecondProjection => {
            print_typed(written, ty, out)
        }
        _ => print_text(raw_sign_of(written), out),
    }
}

/// Adds a constant with its type.
fn print_typed(written: RawOp, ty: &Ty, out: &mut String) -> Result<(), OutOfMemory>
    ensures { OnOk result (string_bytes out.new
        ≡ string_bytes out.old ++ text_of (typed_constant (operator_piece written) ty.now)) }
{
    out.push_str("(")?;
    out.push_str(raw_sign_of(written))?;
    out.push_str("⦂")?;
    print_type(ty, out)?;
    out.push_str(")")?;
    Ok(())
}

#[cycle(printing)]
fn print_unary(
    a: &Formula,
    op: Op,
    written: RawOp,
    around: &Around<'_>,
    out: &mut String,
) -> Result<(), OutOfMemory>
    ensures { OnOk result (string_bytes out.new ≡ string_bytes out.old ++ text_of (printed_unary
        op (operator_piece written) (a.now, printed around.now.names.now a.now) around.now.depth)) }
{
    match op {
        Op::Not => print(a, true, around, out),
        Op::Negate => {
            out.push_str(raw_sign_of(written))?;
            print_operand(a, op, Side::Right, around, out)
        }
        Op::Converse => {
            print_operand(a, op, Side::Left, around, out)?;
            print_text(raw_sign_of(written), out)
        }
        _ => {
            out.push_str(raw_sign_of(written))?;
            print_inside(a, "(", ")", around, out)
        }
    }
}

/// Adds what follows the first of two operands.
#[cycle(printing)]
fn print_second(
    b: &Formula,
    op: Op,
    written: RawOp,
    around: &Around<'_>,
    out: &mut String,
) -> Result<(), OutOfMemory>
    ensures { OnOk result (string_bytes out.new ≡ string_bytes out.old ++ text_of (printed_second
        op (operator_piece written) (b.now, printed around.now.names.now b.now) around.now.depth)) }
{
    match op {
        Op::Apply => print_inside(b, "(", ")", around, out),
        Op::Image => print_inside(b, "[", "]", around, out),
        _ => {
            out.push_str(" ")?;
            out.push_str(raw_sign_of(written))?;
            out.push_str(" ")?;
            print_operand(b, op, Side::Right, around, out)
        }
    }
}

/// Adds the text of an operand, in parentheses where it needs them.
#[cycle(printing)]
fn print_operand(
    part: &Formula,
    op: Op,
    side: Side,
    around: &Around<'_>,
    out: &mut String,
) -> Result<(), OutOfMemory>
    ensures { OnOk result (string_bytes out.new ≡ string_bytes out.old ++ text_of (printed_operand
        op side (part.now, printed around.now.names.now part.now) around.now.depth)) }
{
    if needs_parentheses(op, side, part) {
        print_inside(part, "(", ")", around, out)
    } else {
        print(part, false, around, out)
    }
}

/// Adds the text of a formula between brackets.
#[cycle(printing)]
fn print_inside(
    formula: &Formula,
    opening: &str,
    closing: &str,
    around: &Around<'_>,
    out: &mut String,
) -> Result<(), OutOfMemory>
    ensures { OnOk result (string_bytes out.new ≡ string_bytes out.old ++ (opening.now
        ++ (text_of (printed around.now.names.now formula.now false around.now.depth) ++ closing.now))) }
{
    out.push_str(opening)?;
    print(formula, false, around, out)?;
    out.push_str(closing)?;
    Ok(())
}

#[cycle(printing)]
fn print_members(
    parts: &[Formula],
    around: &Around<'_>,
    out: &mut String,
) -> Result<(), OutOfMemory>
    ensures { OnOk result (string_bytes out.new ≡ string_bytes out.old ++ text_of (printed_members
        (printed_parts around.now.names.now parts.now) around.now.depth)) }
{
    out.push_str("{")?;
    print_separated(parts, around, out)?;
    out.push_str("}")?;
    Ok(())
}

/// Adds the texts of formulas, with commas between them.
#[cycle(printing)]
fn print_separated(
    items: &[Formula],
    around: &Around<'_>,
    out: &mut String,
) -> Result<(), OutOfMemory>
    ensures { OnOk result (string_bytes out.new ≡ string_bytes out.old ++ text_of (separated_pieces
        (map (λ f. printed around.now.names.now f false around.now.depth) items.now))) }
{
    for (index, item) in items.iter().enumerate() {
        print_comma(index, out)?;
        print(item, false, around, out)?;
    }
    Ok(())
}

/// Adds a comma behind so many texts, if there are any.
fn print_comma(before: usize, out: &mut String) -> Result<(), OutOfMemory>
    ensures { OnOk result (string_bytes out.new ≡ string_bytes out.old ++ text_of (comma_after before)) }
{
    if before > 0 {
        out.push_str(", ")?;
    }
    Ok(())
}

fn binder_end_of(binder: Binder) -> &'static str
    ensures { result.now ≡ text_of (binder_end_of binder) }
{
    match binder {
        Binder::Comprehension => "}",
        _ => "",
    }
}

#[cycle(printing)]
fn print_bind(
    parts: &[Formula],
    binder: Binder,
    types: &[Ty],
    denied: bool,
    around: &Around<'_>,
    out: &mut String,
) -> Result<(), OutOfMemory>
    ensures { OnOk result (string_bytes out.new ≡ string_bytes out.old ++ text_of (printed_bind around.now.names.now
        binder types.now (printed_parts around.now.names.now parts.now) denied around.now.depth)) }
{
    if denied {
        out.push_str("¬(")?;
        print_binder(parts, binder, types, around, out)?;
        out.push_str(")")?;
        Ok(())
    } else {
        print_binder(parts, binder, types, around, out)
    }
}

#[cycle(printing)]
fn print_binder(
    parts: &[Formula],
    binder: Binder,
    types: &[Ty],
    around: &Around<'_>,
    out: &mut String,
) -> Result<(), OutOfMemory>
    ensures { OnOk result (string_bytes out.new ≡ string_bytes out.old ++ text_of (printed_binder around.now.names.now
        binder types.now (printed_parts around.now.names.now parts.now) around.now.depth)) }
{
    match around.depth.checked_add(types.len()) {
        Some(depth) => {
            let inside = Around {
                names: around.names,
                depth,
            };
            out.push_str(binder_sign_of(binder))?;
            print_declarations(types, around, out)?;
            out.push_str("·")?;
            print_body(parts, &inside, out)?;
            out.push_str(binder_end_of(binder))?;
            Ok(())
        }
        None => Err(OutOfMemory),
    }
}

/// Adds a predicate, or a predicate and an expression.
#[cycle(printing)]
fn print_body(parts: &[Formula], around: &Around<'_>, out: &mut String) -> Result<(), OutOfMemory>
    ensures { OnOk result (string_bytes out.new ≡ string_bytes out.old ++ text_of (printed_body
        (printed_parts around.now.names.now parts.now) around.now.depth)) }
{
    match parts {
        [p] => print(p, false, around, out),
        [p, e] => {
            print(p, false, around, out)?;
            out.push_str(" ∣ ")?;
            print(e, false, around, out)
        }
        _ => Ok(()),
    }
}

/// Adds bound identifiers with their types, with commas between them.
fn print_declarations(
    types: &[Ty],
    around: &Around<'_>,
    out: &mut String,
) -> Result<(), OutOfMemory>
    requires { around.now.depth + length types.now < 2 ^ 64 }
    ensures { OnOk result (string_bytes out.new ≡ string_bytes out.old ++ text_of (separated_pieces
        (printed_declarations around.now.names.now types.now around.now.depth))) }
{
    for (index, ty) in types.iter().enumerate() {
        print_comma(index, out)?;
        print_declaration(ty, around.names, around.depth + index, out)?;
    }
    Ok(())
}

fn print_declaration(
    ty: &Ty,
    names: &[Name],
    depth: usize,
    out: &mut String,
) -> Result<(), OutOfMemory>
    ensures { OnOk result (string_bytes out.new
        ≡ string_bytes out.old ++ text_of (printed_declaration (name_at names.now depth) ty.now)) }
{
    print_name(names, depth, out)?;
    out.push_str("⦂")?;
    print_type(ty, out)
}
