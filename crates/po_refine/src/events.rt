//! Refined events.
ghost use Rattle.std.specs.Prelude.{◌≡◌, map};
ghost use Rattle.std.specs.Option.{option_copied};
ghost use Rattle.po_rules.specs.Parts.{is_extended};
ghost use Rattle.po_refine.specs.Private.{only_one, first_one};

use model_core::CheckedEvent;

/// Whether the event inherits guards or actions.
pub(crate) fn is_extended(event: &CheckedEvent) -> bool
    ensures { result ≡ is_extended event.now }
{
    !(event.own_guards_from == 0 && event.own_actions_from == 0)
}

/// The event, where there is exactly one.
pub(crate) fn only_one<'a>(events: &[&'a CheckedEvent]) -> Option<&'a CheckedEvent>
    ensures { option_copied result ≡ only_one (map (λ x. x.now) events.now) }
{
    if events.len() == 1 {
        Some(events[0])
    } else {
        None
    }
}

pub(crate) fn first_one<'a>(events: &[&'a CheckedEvent]) -> Option<&'a CheckedEvent>
    ensures { option_copied result ≡ first_one (map (λ x. x.now) events.now) }
{
    events.first().copied()
}
