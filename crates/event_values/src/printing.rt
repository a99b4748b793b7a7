//! The texts of values.
ghost use Rattle.std.specs.Prelude.{◌≡◌, ◌++◌, IfOk, OnOk, false, map};
ghost use Rattle.std.specs.String.{string_bytes};
ghost use Rattle.std.specs.Fmt.{signed_decimal};
ghost use Rattle.event_values.specs.Text.{value_text, truth_text, element_text, with_commas, comma};

use crate::value::Value;
use formula_core::OutOfMemory;
use std::alloc::Global;

/// The text of a value, without blanks. The members of a set ascend.
pub fn value_text(alloc: Global, value: &Value) -> Result<String, OutOfMemory>
    ensures { IfOk result (λ text. string_bytes text ≡ value_text value.now) }
{
    let mut out = String::new(alloc);
    print_value(value, &mut out)?;
    Ok(out)
}

#[cycle(printing)]
fn print_value(value: &Value, out: &mut String) -> Result<(), OutOfMemory>
    ensures { OnOk result (string_bytes out.new ≡ string_bytes out.old ++ value_text value.now) }
{
    match value {
        Value::Int(n) => print_number(*n, out),
        Value::Truth(b) => print_truth(*b, out),
        Value::Elem(set, k) => print_element(set.as_text(), *k, out),
        Value::Pair(left, right) => {
            out.push_str("(")?;
            print_value(left.get(), out)?;
            out.push_str(",")?;
            print_value(right.get(), out)?;
            out.push_str(")")?;
            Ok(())
        }
        Value::Set(members) => {
            out.push_str("{")?;
            print_members(members.items(), out)?;
            out.push_str("}")?;
            Ok(())
        }
    }
}

#[cycle(printing)]
fn print_members(members: &[Value], out: &mut String) -> Result<(), OutOfMemory>
    ensures { OnOk result (string_bytes out.new ≡ string_bytes out.old ++ with_commas false (map value_text members.now)) }
{
    let mut begun = false;
    for member in members {
        print_comma(begun, out)?;
        print_value(member, out)?;
        begun = true;
    }
    Ok(())
}

fn print_comma(begun: bool, out: &mut String) -> Result<(), OutOfMemory>
    ensures { OnOk result (string_bytes out.new ≡ string_bytes out.old ++ comma begun) }
{
    if begun {
        out.push_str(",")?;
    }
    Ok(())
}

fn print_number(n: i128, out: &mut String) -> Result<(), OutOfMemory>
    ensures { OnOk result (string_bytes out.new ≡ string_bytes out.old ++ signed_decimal n) }
{
    write!(out, "{n}")?;
    Ok(())
}

fn print_truth(b: bool, out: &mut String) -> Result<(), OutOfMemory>
    ensures { OnOk result (string_bytes out.new ≡ string_bytes out.old ++ truth_text b) }
{
    if b {
        out.push_str("TRUE")?;
    } else {
        out.push_str("FALSE")?;
    }
    Ok(())
}

fn print_element(set: &str, k: u32, out: &mut String) -> Result<(), OutOfMemory>
    ensures { OnOk result (string_bytes out.new ≡ string_bytes out.old ++ element_text set.now k) }
{
    out.push_str(set)?;
    write!(out, "#{k}")?;
    Ok(())
}
