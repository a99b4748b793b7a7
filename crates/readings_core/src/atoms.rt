//! What a reading gives to atoms.
ghost use Rattle.std.specs.Prelude.{◌≡◌};
ghost use Rattle.formula_readings.specs.Readings.{values_of};

use formula_core::Formula;
use formula_readings::Reading;

/// The truth value of an atom.
pub(crate) fn truth_of_atom(f: &Formula, reading: &Reading) -> bool
    ensures { result ≡ (values_of reading.now).truth f.now }
{
    for pair in reading.truths.items() {
        if f.same(&pair.0) {
            return pair.1;
        }
    }
    false
}

/// The number of an atom.
pub(crate) fn number_of_atom(f: &Formula, reading: &Reading) -> i128
    ensures { result ≡ (values_of reading.now).number f.now }
{
    for pair in reading.numbers.items() {
        if f.same(&pair.0) {
            return pair.1;
        }
    }
    0
}
