//! Operations in i128: the value, or the two operands where it leaves i128.
ghost use Rattle.std.specs.Prelude.{◌≡◌};
ghost use Rattle.rule_table.specs.Linear.{plus, minus, times, checked};

/// The sum.
#[tactic(auto, using(crate::proofs::Widths::laws))]
pub(crate) fn sum_of(m: i128, n: i128) -> Result<i128, (i128, i128)>
    ensures value { result ≡ checked plus m n }
{
    match m.checked_add(n) {
        Some(value) => Ok(value),
        None => Err((m, n)),
    }
}

/// The difference.
#[tactic(auto, using(crate::proofs::Widths::laws))]
pub(crate) fn difference_of(m: i128, n: i128) -> Result<i128, (i128, i128)>
    ensures value { result ≡ checked minus m n }
{
    match m.checked_sub(n) {
        Some(value) => Ok(value),
        None => Err((m, n)),
    }
}

/// The product.
#[tactic(auto, using(crate::proofs::Widths::laws))]
pub(crate) fn product_of(m: i128, n: i128) -> Result<i128, (i128, i128)>
    ensures value { result ≡ checked times m n }
{
    match m.checked_mul(n) {
        Some(value) => Ok(value),
        None => Err((m, n)),
    }
}
