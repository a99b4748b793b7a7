// Rules as bytes.
ghost use Rattle.std.specs.Prelude.{◌≡◌};
ghost use Rattle.proof_codec.specs.Rules.{kind_bytes, IsGoodKind, IsFitKind, antecedent_bytes, rule_bytes, IsGoodRule, IsFitRule};
ghost use Rattle.proof_codec.specs.Private.{plain_kind_at, ReadsBy, IsGoodAntecedent, IsFitAntecedent};

use crate::coded::{Coded, write_pair};
use crate::reader::{ReadFault, Reader};
use crate::writer::write_byte;
use formula_core::{Formula, List, Name, OutOfMemory, Ty};
use rule_table::{Antecedent, Rule, RuleKind};
use std::alloc::Global;

impl Coded for RuleKind {
    ghost IsGood = { IsGoodKind };

    ghost IsFit = { IsFitKind };

    ghost bytes_of = { kind_bytes };

    #[tactic(auto, using(crate::proofs::KindForms::all_read, crate::proofs::KindForms::no_all, crate::proofs::KindForms::exists_read, crate::proofs::KindForms::no_exists, crate::proofs::KindForms::goal_read, crate::proofs::KindForms::no_goal, crate::proofs::KindForms::hyp_read, crate::proofs::KindForms::no_hyp, crate::proofs::KindForms::linear_read, crate::proofs::KindForms::no_linear, crate::proofs::KindForms::plain_read, crate::proofs::KindForms::no_kind, crate::proofs::KindForms::no_kind_byte))]
    fn read(alloc: Global, from: &mut Reader<'_>) -> Result<RuleKind, ReadFault> {
        match from.byte()? {
            18 => Ok(RuleKind::AllL(List::<Formula>::read(alloc, from)?)),
            19 => Ok(RuleKind::ExR(List::<Formula>::read(alloc, from)?)),
            29 => {
                let (law, place) = <(u8, List<u32>)>::read(alloc, from)?;
                Ok(RuleKind::RwGoal(law, place))
            }
            30 => {
                let (law, place) = <(u8, List<u32>)>::read(alloc, from)?;
                Ok(RuleKind::RwHyp(law, place))
            }
            31 => Ok(RuleKind::Linear(List::<i128>::read(alloc, from)?)),
            number => match plain_kind(number) {
                Some(kind) => Ok(kind),
                None => Err(ReadFault::Bad),
            },
        }
    }

    #[tactic(auto, using(crate::proofs::KindForms::all_written, crate::proofs::KindForms::exists_written, crate::proofs::KindForms::goal_written, crate::proofs::KindForms::hyp_written, crate::proofs::KindForms::linear_written, crate::proofs::Writing::front_behind))]
    fn write(&self, out: &mut Vec<u8>) -> Result<(), OutOfMemory> {
        match self {
            RuleKind::AllL(terms) => {
                write_byte(out, 18)?;
                terms.write(out)?;
                Ok(())
            }
            RuleKind::ExR(terms) => {
                write_byte(out, 19)?;
                terms.write(out)?;
                Ok(())
            }
            RuleKind::RwGoal(law, place) => {
                write_byte(out, 29)?;
                write_pair(law, place, out)?;
                Ok(())
            }
            RuleKind::RwHyp(law, place) => {
                write_byte(out, 30)?;
                write_pair(law, place, out)?;
                Ok(())
            }
            RuleKind::Linear(multipliers) => {
                write_byte(out, 31)?;
                multipliers.write(out)?;
                Ok(())
            }
            _ => write_byte(out, self.number()),
        }
    }
}

/// The kind with a number that has nothing of its own.
fn plain_kind(number: u8) -> Option<RuleKind>
    ensures { result ≡ plain_kind_at number }
{
    match number {
        1 => Some(RuleKind::Hyp),
        2 => Some(RuleKind::Top),
        3 => Some(RuleKind::Bot),
        4 => Some(RuleKind::Contr),
        5 => Some(RuleKind::AndR),
        6 => Some(RuleKind::AndL),
        7 => Some(RuleKind::OrR),
        8 => Some(RuleKind::OrL),
        9 => Some(RuleKind::ImpR),
        10 => Some(RuleKind::ImpL),
        11 => Some(RuleKind::Mp),
        12 => Some(RuleKind::IffR),
        13 => Some(RuleKind::IffL),
        14 => Some(RuleKind::NotR),
        15 => Some(RuleKind::NotL),
        16 => Some(RuleKind::Contra),
        17 => Some(RuleKind::AllR),
        20 => Some(RuleKind::ExL),
        21 => Some(RuleKind::Cut),
        22 => Some(RuleKind::Cases),
        23 => Some(RuleKind::Review),
        24 => Some(RuleKind::EqRefl),
        25 => Some(RuleKind::EqGoal),
        26 => Some(RuleKind::EqHyp),
        27 => Some(RuleKind::BoolCases),
        28 => Some(RuleKind::BoolDiff),
        32 => Some(RuleKind::CardNat),
        33 => Some(RuleKind::FunIn),
        34 => Some(RuleKind::FunEq),
        35 => Some(RuleKind::OverOther),
        _ => None,
    }
}

impl Coded for Antecedent {
    ghost IsGood = { IsGoodAntecedent };

    ghost IsFit = { IsFitAntecedent };

    ghost bytes_of = { antecedent_bytes };

    #[tactic(auto, using(crate::proofs::Assembly::antecedent_read, crate::proofs::Assembly::no_antecedent))]
    fn read(alloc: Global, from: &mut Reader<'_>) -> Result<Antecedent, ReadFault> {
        let (idents, (hyps, goal)) = <(List<(Name, Ty)>, (List<Formula>, Option<Formula>))>::read(
            alloc, from,
        )?;
        Ok(Antecedent { idents, hyps, goal })
    }

    #[tactic(auto, using(crate::proofs::Writing::front_behind, crate::proofs::Writing::pair_written))]
    fn write(&self, out: &mut Vec<u8>) -> Result<(), OutOfMemory> {
        self.idents.write(out)?;
        write_pair(&self.hyps, &self.goal, out)?;
        Ok(())
    }
}

/// What stands behind one another in the bytes of a rule.
type RuleParts = (
    RuleKind,
    (
        Option<Formula>,
        (List<Formula>, (List<(Name, Ty)>, List<Antecedent>)),
    ),
);

impl Coded for Rule {
    ghost IsGood = { IsGoodRule };

    ghost IsFit = { IsFitRule };

    ghost bytes_of = { rule_bytes };

    // Not inlined, and neither is `write`: trees call them in their recursion, whose frames are to stay small.
    #[inline(never)]
    #[tactic(auto, using(crate::proofs::Assembly::rule_read, crate::proofs::Assembly::no_rule))]
    fn read(alloc: Global, from: &mut Reader<'_>) -> Result<Rule, ReadFault> {
        let (kind, (needed_goal, (needed_hyps, (used, antecedents)))) = <RuleParts>::read(
            alloc, from,
        )?;
        Ok(Rule {
            kind,
            needed_goal,
            needed_hyps,
            used,
            antecedents,
        })
    }

    #[inline(never)]
    #[tactic(auto, using(crate::proofs::Writing::front_behind, crate::proofs::Writing::pair_written))]
    fn write(&self, out: &mut Vec<u8>) -> Result<(), OutOfMemory> {
        self.kind.write(out)?;
        self.needed_goal.write(out)?;
        self.needed_hyps.write(out)?;
        write_pair(&self.used, &self.antecedents, out)?;
        Ok(())
    }
}
