//! The printed text of formulas as they are written.
#![tactic(auto, using(crate::proofs::Equations::texts))]

ghost use Rattle.std.specs.Prelude.{◌≡◌, ◌++◌, ◌∷◌, [], OnOk, IfOk, string_bytes, map, drop};
ghost use Rattle.std.specs.Fmt.{signed_decimal};
ghost use Rattle.std.specs.Option.{option_map};
ghost use Rattle.token_text.specs.Pieces.{Token, text_of, behind_commas, separated_pieces};
ghost use Rattle.raw_print.specs.Printing.{PartWithPieces, is_atomic, stands_alone, operand_pieces, unary, second, operation_pieces, node_pieces, declaration, pattern_name_count, side, pattern, body_pieces, ending, scope, bind_pieces, pieces, raw_text};
ghost use Rattle.raw_print.specs.Private.{with_pattern, with_pieces, declared};

use formula_core::{OutOfMemory, Raw, RawBinder, RawBound, RawOp};
use math_grammar::{
    Bracket, Symbol, raw_binder_class_of, raw_binder_sign_of, raw_class_of, raw_sign_of,
};

/// Adds the printed text of a formula.
#[cycle(printing)]
pub fn print_formula(out: &mut String, formula: &Raw) -> Result<(), OutOfMemory>
    ensures { OnOk result (string_bytes out.new ≡ string_bytes out.old ++ raw_text formula.now) }
{
    match formula {
        Raw::Int(n, _) => print_number(out, *n),
        Raw::Name(name, _) => print_text(out, name.as_text()),
        Raw::Node(op, parts, _) => print_node(out, *op, parts.items()),
        Raw::Bind(binder, names, parts, _) => {
            out.push_str(raw_binder_sign_of(*binder))?;
            print_scope(out, *binder, names.items(), parts.items())?;
            print_ending(out, raw_binder_class_of(*binder))
        }
    }
}

fn print_text(out: &mut String, text: &str) -> Result<(), OutOfMemory>
    ensures { OnOk result (string_bytes out.new ≡ string_bytes out.old ++ text.now) }
{
    out.push_str(text)?;
    Ok(())
}

fn print_number(out: &mut String, n: i128) -> Result<(), OutOfMemory>
    ensures { OnOk result (string_bytes out.new ≡ string_bytes out.old ++ signed_decimal n) }
{
    write!(out, "{n}")?;
    Ok(())
}

/// Closes braces.
fn print_ending(out: &mut String, symbol: Symbol) -> Result<(), OutOfMemory>
    ensures { OnOk result (string_bytes out.new ≡ string_bytes out.old ++ text_of (ending symbol)) }
{
    match symbol {
        Symbol::Open(_) => print_text(out, "}"),
        _ => Ok(()),
    }
}

fn is_atomic(symbol: Symbol) -> bool
    ensures { result ≡ is_atomic symbol }
{
    matches!(
        symbol,
        Symbol::Truth(_) | Symbol::Constant(_) | Symbol::Call(_, _) | Symbol::Open(_)
    )
}

/// Whether it is printed without parentheses as an operand.
fn stands_alone(formula: &Raw) -> bool
    ensures { result ≡ stands_alone formula.now }
{
    match formula {
        Raw::Int(_, _) | Raw::Name(_, _) => true,
        Raw::Node(op, _, _) => is_atomic(raw_class_of(*op)),
        Raw::Bind(binder, _, _, _) => is_atomic(raw_binder_class_of(*binder)),
    }
}

#[cycle(printing)]
fn print_node(out: &mut String, op: RawOp, parts: &[Raw]) -> Result<(), OutOfMemory>
    ensures { OnOk result (string_bytes out.new
        ≡ string_bytes out.old ++ text_of (node_pieces op (map with_pieces parts.now))) }
{
    match raw_class_of(op) {
        Symbol::Call(_, _) => {
            out.push_str(raw_sign_of(op))?;
            print_list(out, "(", parts, ")")
        }
        Symbol::Open(Bracket::Brace) => print_list(out, "{", parts, "}"),
        symbol => print_operands(out, symbol, raw_sign_of(op), parts),
    }
}

/// Adds an operator with its operands.
#[cycle(printing)]
fn print_operands(
    out: &mut String,
    symbol: Symbol,
    sign: &str,
    parts: &[Raw],
) -> Result<(), OutOfMemory>
    ensures { OnOk result (string_bytes out.new ≡ string_bytes out.old
        ++ text_of (operation_pieces symbol (Token symbol sign.now) (map with_pieces parts.now))) }
{
    match parts {
        [] => print_text(out, sign),
        [a] => print_unary(out, symbol, sign, a),
        [a, b] => {
            print_operand(out, a)?;
            print_second(out, symbol, sign, b)
        }
        _ => Ok(()),
    }
}

/// Adds an operator with one operand.
#[cycle(printing)]
fn print_unary(out: &mut String, symbol: Symbol, sign: &str, a: &Raw) -> Result<(), OutOfMemory>
    ensures { OnOk result (string_bytes out.new
        ≡ string_bytes out.old ++ text_of (unary symbol (Token symbol sign.now) (with_pieces a.now))) }
{
    match symbol {
        Symbol::Converse => {
            print_operand(out, a)?;
            print_text(out, sign)
        }
        _ => {
            out.push_str(sign)?;
            print_operand(out, a)
        }
    }
}

/// Adds what follows the first of two operands.
#[cycle(printing)]
fn print_second(out: &mut String, symbol: Symbol, sign: &str, b: &Raw) -> Result<(), OutOfMemory>
    ensures { OnOk result (string_bytes out.new
        ≡ string_bytes out.old ++ text_of (second symbol (Token symbol sign.now) (with_pieces b.now))) }
{
    match symbol {
        Symbol::Open(Bracket::Round) => print_inside(out, "(", b, ")"),
        Symbol::Open(Bracket::Square) => print_inside(out, "[", b, "]"),
        _ => {
            out.push_str(" ")?;
            out.push_str(sign)?;
            out.push_str(" ")?;
            print_operand(out, b)
        }
    }
}

/// Adds an operand, in parentheses unless it stands alone.
#[cycle(printing)]
fn print_operand(out: &mut String, part: &Raw) -> Result<(), OutOfMemory>
    ensures { OnOk result (string_bytes out.new
        ≡ string_bytes out.old ++ text_of (operand_pieces (with_pieces part.now))) }
{
    if stands_alone(part) {
        print_formula(out, part)
    } else {
        print_inside(out, "(", part, ")")
    }
}

/// Adds a formula between brackets.
#[cycle(printing)]
fn print_inside(
    out: &mut String,
    opening: &str,
    formula: &Raw,
    closing: &str,
) -> Result<(), OutOfMemory>
    ensures { OnOk result (string_bytes out.new
        ≡ string_bytes out.old ++ (opening.now ++ (raw_text formula.now ++ closing.now))) }
{
    out.push_str(opening)?;
    print_formula(out, formula)?;
    out.push_str(closing)?;
    Ok(())
}

/// Adds formulas between brackets, with commas between them.
#[cycle(printing)]
fn print_list(
    out: &mut String,
    opening: &str,
    parts: &[Raw],
    closing: &str,
) -> Result<(), OutOfMemory>
    ensures { OnOk result (string_bytes out.new
        ≡ string_bytes out.old ++ (opening.now ++ (text_of (separated_pieces (map pieces parts.now)) ++ closing.now))) }
{
    out.push_str(opening)?;
    print_separated(out, parts)?;
    out.push_str(closing)?;
    Ok(())
}

/// Adds formulas with commas between them.
#[cycle(printing)]
pub(crate) fn print_separated(out: &mut String, parts: &[Raw]) -> Result<(), OutOfMemory>
    ensures { OnOk result (string_bytes out.new
        ≡ string_bytes out.old ++ text_of (separated_pieces (map pieces parts.now))) }
{
    if let Some((first, rest)) = parts.split_first() {
        print_formula(out, first)?;
        for part in rest {
            out.push_str(", ")?;
            print_formula(out, part)?;
        }
    }
    Ok(())
}

/// Adds what stands behind the sign of a binder.
#[cycle(printing)]
fn print_scope(
    out: &mut String,
    binder: RawBinder,
    names: &[RawBound],
    parts: &[Raw],
) -> Result<(), OutOfMemory>
    ensures { OnOk result (string_bytes out.new
        ≡ string_bytes out.old ++ text_of (scope binder (map declared names.now) (map with_pieces parts.now))) }
{
    match binder {
        RawBinder::Plain(_) => {
            print_declarations(out, names)?;
            out.push_str("·")?;
            print_body(out, parts)
        }
        RawBinder::Lambda => match parts.split_first() {
            Some((tree, parts)) => {
                print_pattern(out, tree, names)?;
                out.push_str("·")?;
                print_body(out, parts)
            }
            None => Ok(()),
        },
        RawBinder::Implicit(_) => print_body(out, parts),
    }
}

/// Adds a predicate, or two parts with a bar between them.
#[cycle(printing)]
fn print_body(out: &mut String, parts: &[Raw]) -> Result<(), OutOfMemory>
    ensures { OnOk result (string_bytes out.new
        ≡ string_bytes out.old ++ text_of (body_pieces (map with_pieces parts.now))) }
{
    match parts {
        [p] => print_formula(out, p),
        [p, e] => {
            print_formula(out, p)?;
            out.push_str(" ∣ ")?;
            print_formula(out, e)
        }
        _ => Ok(()),
    }
}

/// Adds names with their types, with commas between them.
#[cycle(printing)]
fn print_declarations(out: &mut String, names: &[RawBound]) -> Result<(), OutOfMemory>
    ensures { OnOk result (string_bytes out.new
        ≡ string_bytes out.old ++ text_of (separated_pieces (map declared names.now))) }
{
    if let Some((first, rest)) = names.split_first() {
        print_declaration(out, first)?;
        for name in rest {
            out.push_str(", ")?;
            print_declaration(out, name)?;
        }
    }
    Ok(())
}

/// Adds a name, with its type where that is written.
#[cycle(printing)]
fn print_declaration(out: &mut String, bound: &RawBound) -> Result<(), OutOfMemory>
    ensures { OnOk result (string_bytes out.new ≡ string_bytes out.old ++ text_of (declared bound.now)) }
{
    out.push_str(bound.name.as_text())?;
    if let Some(ty) = &bound.ty {
        out.push_str("⦂")?;
        print_operand(out, ty.get())?;
    }
    Ok(())
}

/// Adds the pattern of λ, whose names stand at the front, and answers the names behind them.
#[cycle(printing)]
fn print_pattern<'a>(
    out: &mut String,
    tree: &Raw,
    names: &'a [RawBound],
) -> Result<&'a [RawBound], OutOfMemory>
    ensures text { OnOk result (string_bytes out.new
        ≡ string_bytes out.old ++ text_of (pattern tree.now (map declared names.now))) }
    ensures left { IfOk result (λ rest. rest.now ≡ drop (pattern_name_count tree.now) names.now) }
{
    match tree {
        Raw::Name(_, _) => match names.split_first() {
            Some((first, rest)) => {
                print_declaration(out, first)?;
                Ok(rest)
            }
            None => Ok(names),
        },
        Raw::Node(_, parts, _) => {
            let parts = parts.items();
            if parts.len() != 2 {
                return Ok(names);
            }
            let names = print_side(out, &parts[0], names)?;
            out.push_str(" ↦ ")?;
            print_side(out, &parts[1], names)
        }
        Raw::Int(_, _) => Ok(names),
        Raw::Bind(_, _, _, _) => Ok(names),
    }
}

/// Adds one side of ↦ in a pattern.
#[cycle(printing)]
fn print_side<'a>(
    out: &mut String,
    tree: &Raw,
    names: &'a [RawBound],
) -> Result<&'a [RawBound], OutOfMemory>
    ensures text { OnOk result (string_bytes out.new
        ≡ string_bytes out.old ++ text_of (side (with_pattern tree.now) (map declared names.now))) }
    ensures left { IfOk result (λ rest. rest.now ≡ drop (pattern_name_count tree.now) names.now) }
{
    if stands_alone(tree) {
        return print_pattern(out, tree, names);
    }
    out.push_str("(")?;
    let rest = print_pattern(out, tree, names)?;
    out.push_str(")")?;
    Ok(rest)
}
