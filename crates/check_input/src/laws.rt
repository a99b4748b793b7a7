//! The laws of inputs. The calls do nothing.
ghost use Rattle.check_input.specs.Laws.{HasOneInput, PartsAreGood, PartsMakeTheInput};

/// Bytes are one input: its components, or one fault.
pub fn one_input()
    ensures { HasOneInput }
{}

/// The texts of its components are the whole of an input that isn't blank.
pub fn whole_input()
    ensures { PartsMakeTheInput }
{}

/// Each component has a name without prime and a text of at most 65,536 bytes, and there are at most 256.
pub fn good_parts()
    ensures { PartsAreGood }
{}
