// The components of the models.
ghost use Rattle.std.specs.Prelude.{◌≡◌, ◌≤◌, ◌<◌, ◌+◌, ◌*◌, ◌%◌, IfOk, string_bytes};
ghost use Rattle.demo_models.specs.Models.{three_digits, extends_line, context_with, machine_with, context_name, machine_name, models, edited_machine};
ghost use Rattle.demo_models.specs.Private.{third_line, letter, name_of_kind};

use crate::texts::{context_text, machine_text, three_digits};
use formula_core::{Name, NameFault, OutOfMemory, Text};
use std::alloc::Global;

const MODULUS: u64 = 2_147_483_648;

// The number after this one.
fn next_number(number: u64) -> u64
    requires { number < 2147483648 }
    ensures { result ≡ (number * 1103515245 + 12345) % 2147483648 }
{
    (number * 1_103_515_245 + 12_345) % MODULUS
}

/// What a component is.
#[derive(Clone, Copy)]
enum Kind {
    Context,
    Machine,
}

fn letter(kind: Kind) -> &'static str
    ensures { result.now ≡ letter kind }
{
    match kind {
        Kind::Context => "c",
        Kind::Machine => "m",
    }
}

// The letter of the kind, and three digits.
fn name_text(alloc: Global, kind: Kind, i: u64) -> Result<String, OutOfMemory>
    ensures { IfOk result (λ text. string_bytes text ≡ name_of_kind kind i) }
{
    let mut text = String::from_str(alloc, letter(kind))?;
    let digits = three_digits(alloc, i)?;
    text.push_str(&digits)?;
    Ok(text)
}

fn name_of(alloc: Global, kind: Kind, i: u64) -> Result<Name, OutOfMemory>
    requires { i ≤ 128 }
    ensures { IfOk result (λ name. name ≡ name_of_kind kind i) }
{
    let text = name_text(alloc, kind, i)?;
    match Name::read(alloc, &text) {
        Ok(name) => Ok(name),
        Err(NameFault::BadName) => unreachable!(),
        Err(NameFault::OutOfMemory) => Err(OutOfMemory),
    }
}

fn context(alloc: Global, i: u64, value: u64) -> Result<(Name, Text), OutOfMemory>
    requires number { i ≤ 128 }
    requires value { 1 ≤ value }
    ensures { IfOk result (λ made. made ≡ (context_name i, context_with (three_digits i) (extends_line i) value)) }
{
    let name = name_of(alloc, Kind::Context, i)?;
    let text = context_text(alloc, i, value)?;
    let text = Text::of(alloc, &text)?;
    Ok((name, text))
}

fn machine(alloc: Global, i: u64, third: bool) -> Result<(Name, Text), OutOfMemory>
    requires { i ≤ 128 }
    ensures { IfOk result (λ made.
        made ≡ (machine_name i, machine_with (three_digits i) (third_line third (three_digits i)))) }
{
    let name = name_of(alloc, Kind::Machine, i)?;
    let text = machine_text(alloc, i, third)?;
    let text = Text::of(alloc, &text)?;
    Ok((name, text))
}

/// The models of this seed: so many contexts, each with its machine behind it.
pub fn models(alloc: Global, seed: u64, n: u64) -> Result<Vec<(Name, Text)>, OutOfMemory>
    requires { n ≤ 128 }
    ensures { IfOk result (λ made. made.items ≡ models seed n) }
{
    let mut models = Vec::new(alloc);
    let mut number = seed % MODULUS;
    for i in 0..n {
        number = next_number(number);
        models.push(context(alloc, i + 1, number % 1000 + 1)?)?;
        models.push(machine(alloc, i + 1, false)?)?;
    }
    Ok(models)
}

/// The last machine, with a third invariant.
pub fn edited_machine(alloc: Global, n: u64) -> Result<(Name, Text), OutOfMemory>
    requires { n ≤ 128 }
    ensures { IfOk result (λ made. made ≡ edited_machine n) }
{
    machine(alloc, n, true)
}
