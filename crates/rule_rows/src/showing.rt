//! Rules, refusals and what trees ask for, as they are printed.

use formula_core::{Formula, Name, Ty};
use formula_print::text;
use proof_deps::Deps;
use rule_making::RuleFault;
use rule_table::{Antecedent, Rule};
use std::alloc::{AllocError, Global};

// The formula, behind a word.
fn add_formula(
    alloc: Global,
    word: &str,
    formula: &Formula,
    out: &mut String,
) -> Result<(), AllocError> {
    out.push_str(word)?;
    if !formula.is_well() {
        return out.push_str("not well");
    }
    match text(alloc, formula) {
        Ok(text) => out.push_str(&text),
        Err(_) => Err(AllocError),
    }
}

fn add_formulas(
    alloc: Global,
    word: &str,
    formulas: &[Formula],
    out: &mut String,
) -> Result<(), AllocError> {
    for formula in formulas {
        add_formula(alloc, word, formula, out)?;
    }
    Ok(())
}

fn add_goal(alloc: Global, goal: &Option<Formula>, out: &mut String) -> Result<(), AllocError> {
    match goal {
        Some(formula) => add_formula(alloc, " goal ", formula, out),
        None => Ok(()),
    }
}

fn add_type(ty: &Ty, out: &mut String) -> Result<(), AllocError> {
    match ty {
        Ty::Int => out.push_str("ℤ"),
        Ty::Bool => out.push_str("BOOL"),
        Ty::Given(name) => out.push_str(name.as_text()),
        Ty::Pow(members) => {
            out.push_str("ℙ(")?;
            add_type(members.get(), out)?;
            out.push_str(")")
        }
        Ty::Pair(left, right) => {
            out.push_str("(")?;
            add_type(left.get(), out)?;
            out.push_str("×")?;
            add_type(right.get(), out)?;
            out.push_str(")")
        }
        Ty::Truth => out.push_str("truth"),
    }
}

fn add_name(word: &str, name: &Name, out: &mut String) -> Result<(), AllocError> {
    out.push_str(word)?;
    out.push_str(name.as_text())
}

fn add_antecedent(alloc: Global, left: &Antecedent, out: &mut String) -> Result<(), AllocError> {
    for (name, ty) in left.idents.items() {
        add_name(" new ", name, out)?;
        out.push_str("⦂")?;
        add_type(ty, out)?;
    }
    add_formulas(alloc, " adds ", left.hyps.items(), out)?;
    add_goal(alloc, &left.goal, out)
}

/// What a rule leaves, each antecedent after a `|`.
pub fn add_rule(alloc: Global, rule: &Rule, out: &mut String) -> Result<(), AllocError> {
    out.push_str("rule")?;
    for left in rule.antecedents.items() {
        out.push_str(" |")?;
        add_antecedent(alloc, left, out)?;
    }
    Ok(())
}

/// Why no rule is made.
pub fn add_fault(fault: &RuleFault, out: &mut String) -> Result<(), AllocError> {
    match fault {
        RuleFault::NoPlace => out.push_str("NoPlace"),
        RuleFault::BadTerm => out.push_str("BadTerm"),
        RuleFault::NotFresh(name) => add_name("NotFresh ", name, out),
        RuleFault::NoForm => out.push_str("NoForm"),
        RuleFault::TooWide(m, n) => write!(out, "TooWide {m} {n}"),
        RuleFault::TooLarge => out.push_str("TooLarge"),
        RuleFault::OutOfMemory => out.push_str("OutOfMemory"),
    }
}

/// Writes a sign before each thing that is asked for.
pub fn add_deps(alloc: Global, deps: &Deps, out: &mut String) -> Result<(), AllocError> {
    out.push_str("asks")?;
    add_goal(alloc, &deps.goal, out)?;
    add_formulas(alloc, " hyp ", deps.hyps.items(), out)?;
    for (name, _) in deps.used.items() {
        add_name(" used ", name, out)?;
    }
    for name in deps.fresh.items() {
        add_name(" new ", name, out)?;
    }
    Ok(())
}
