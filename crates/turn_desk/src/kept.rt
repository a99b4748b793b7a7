//! Values that keep a list of entries, and what is done to them.
ghost use Rattle.std.specs.Prelude.{◌≡◌, ℕ, List};
ghost use Rattle.turn_desk.specs.Log.{Grows};

/// A value that keeps a log: a list of entries, each of which names a chair.
///
/// No act changes what the value began from. What else matters of a value has to follow from its log and its base, since
/// a chair knows of the acts of others only what the log says.
pub trait Kept {
    type Entry;

    type Base;

    /// The entries, oldest first.
    ghost log: { Self → List Self.Entry };

    /// The number of the chair that an entry names.
    ghost chair_of: { Self.Entry → ℕ };

    /// What the value began from.
    ghost base: { Self → Self.Base };
}

/// Something that a chair does to the value.
pub trait Act<V: Kept> {
    type Answer;

    /// Of the action, the chair's number, the value before, the answer and the value after.
    ghost does: { Self → ℕ → V → Self.Answer → V → Type 0 };

    /// Does it. It adds at most one entry at the log's end, under the chair's number.
    fn act(self, chair: u32, value: &mut V) -> Self::Answer
        ensures effect { does self chair value.old result value.new }
        ensures log { Grows V.chair_of chair (V.log value.old) (V.log value.new) }
        ensures base { V.base value.new ≡ V.base value.old };
}
