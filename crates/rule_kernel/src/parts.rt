//! The parts of a rule.
ghost use Rattle.std.specs.Prelude.{◌≡◌};
ghost use Rattle.rule_table.specs.Rules.{terms_of};

use formula_core::Formula;
use rule_table::RuleKind;

/// The terms of a kind.
pub(crate) fn terms_of(kind: &RuleKind) -> &[Formula]
    ensures { result.now ≡ terms_of kind.now }
{
    match kind {
        RuleKind::AllL(terms) => terms.items(),
        RuleKind::ExR(terms) => terms.items(),
        _ => &[],
    }
}
