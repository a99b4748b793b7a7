// The texts of the models.
ghost use Rattle.std.specs.Prelude.{◌≡◌, ◌≤◌, ◌++◌, IfOk, string_bytes};
ghost use Rattle.demo_models.specs.Models.{three_digits, extends_line, context_with, machine_with};
ghost use Rattle.demo_models.specs.Private.{third_line};

use formula_core::OutOfMemory;
use std::alloc::Global;
use std::fmt::Write;

/// A number below 1,000, with three digits.
pub fn three_digits(alloc: Global, i: u64) -> Result<String, OutOfMemory>
    ensures { IfOk result (λ text. string_bytes text ≡ three_digits i) }
{
    let hundreds = i / 100;
    let tens = i / 10 % 10;
    let ones = i % 10;
    Ok(format!(in alloc; "{hundreds}{tens}{ones}")?)
}

// The line by which a context extends the one before.
fn extends_line(alloc: Global, i: u64) -> Result<String, OutOfMemory>
    ensures { IfOk result (λ text. string_bytes text ≡ extends_line i) }
{
    if i <= 1 {
        return Ok(String::new(alloc));
    }
    let before = three_digits(alloc, i - 1)?;
    Ok(format!(in alloc; "extends c{before}\n")?)
}

fn context_with(
    alloc: Global,
    digits: &str,
    extends: &str,
    value: u64,
) -> Result<String, OutOfMemory>
    requires { 1 ≤ value }
    ensures { IfOk result (λ text. string_bytes text ≡ context_with digits.now extends.now value) }
{
    let less = value - 1;
    let mut text = format!(in alloc; "context c{digits}\n{extends}constants k{digits}\naxioms\n")?;
    write!(text, "  @a{digits} k{digits} = {value}\n")?;
    write!(text, "  theorem @t{digits} {less} < k{digits}\nend\n")?;
    Ok(text)
}

/// The text of a context, by its number and its value.
pub fn context_text(alloc: Global, i: u64, value: u64) -> Result<String, OutOfMemory>
    requires { 1 ≤ value }
    ensures { IfOk result (λ text. string_bytes text ≡ context_with (three_digits i) (extends_line i) value) }
{
    let digits = three_digits(alloc, i)?;
    let extends = extends_line(alloc, i)?;
    context_with(alloc, &digits, &extends, value)
}

// The line of the third invariant, or nothing.
fn third_line(alloc: Global, third: bool, digits: &str) -> Result<String, OutOfMemory>
    ensures { IfOk result (λ text. string_bytes text ≡ third_line third digits.now) }
{
    if !third {
        return Ok(String::new(alloc));
    }
    Ok(format!(in alloc; "  @inv3 n{digits} : INT\n")?)
}

fn machine_with(alloc: Global, digits: &str, more: &str) -> Result<String, OutOfMemory>
    ensures { IfOk result (λ text. string_bytes text ≡ machine_with digits.now more.now) }
{
    let mut text = format!(in alloc;
        "machine m{digits}\nsees c{digits}\nvariables n{digits}\ninvariants\n"
    )?;
    write!(
        text,
        "  @inv1 n{digits} : NAT\n  @inv2 n{digits} <= k{digits}\n{more}events\n"
    )?;
    write!(
        text,
        "  event INITIALISATION\n  then\n    @act1 n{digits} := 0\n  end\n"
    )?;
    write!(
        text,
        "  event up\n  where\n    @grd1 n{digits} < k{digits}\n  then\n"
    )?;
    write!(text, "    @act1 n{digits} := n{digits} + 1\n  end\nend\n")?;
    Ok(text)
}

/// The text of a machine, by its number, with the third invariant or without.
pub fn machine_text(alloc: Global, i: u64, third: bool) -> Result<String, OutOfMemory>
    ensures { IfOk result (λ text.
        string_bytes text ≡ machine_with (three_digits i) (third_line third (three_digits i))) }
{
    let digits = three_digits(alloc, i)?;
    let more = third_line(alloc, third, &digits)?;
    machine_with(alloc, &digits, &more)
}
