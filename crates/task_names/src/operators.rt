//! The operators on whole numbers of 64 bits.

ghost use Rattle.std.specs.Prelude.{◌≡◌, neg_ℤ};
ghost use Rattle.task_names.specs.Values.{fitting, truth, quotient, rest, computed};

use rt_base::FaultKind;
use task_tree::BinOp;

// The number, where it fits 64 bits.
#[tactic(auto, unfolding(crate::specs::Values::fitting))]
fn fitting(number: i128) -> Result<i64, FaultKind>
    ensures { result ≡ fitting number }
{
    match i64::try_from(number) {
        Ok(fits) => Ok(fits),
        Err(_) => Err(FaultKind::Overflow),
    }
}

// 1 where it holds, and else 0.
fn truth(holds: bool) -> i64
    ensures { result ≡ truth holds }
{
    if holds { 1 } else { 0 }
}

// The quotient, truncated toward zero.
fn quotient(left: i64, right: i64) -> Result<i64, FaultKind>
    ensures { result ≡ quotient left right }
{
    if right == 0 {
        return Err(FaultKind::DivisionByZero);
    }
    fitting(i128::from(left) / i128::from(right))
}

// The rest of the division, with the sign of the dividend.
fn rest(left: i64, right: i64) -> Result<i64, FaultKind>
    ensures { result ≡ rest left right }
{
    if right == 0 {
        return Err(FaultKind::DivisionByZero);
    }
    fitting(i128::from(left) % i128::from(right))
}

/// The value of two values with an operator between them. Where it doesn't fit 64 bits, or the divisor is 0, that is the fault.
#[tactic(auto, unfolding(crate::specs::Values::computed))]
pub fn computed(op: BinOp, left: i64, right: i64) -> Result<i64, FaultKind>
    ensures { result ≡ computed op left right }
{
    match op {
        BinOp::Add => fitting(i128::from(left) + i128::from(right)),
        BinOp::Sub => fitting(i128::from(left) - i128::from(right)),
        BinOp::Mul => fitting(i128::from(left) * i128::from(right)),
        BinOp::Div => quotient(left, right),
        BinOp::Rem => rest(left, right),
        BinOp::Eq => Ok(truth(left == right)),
        BinOp::Ne => Ok(truth(left != right)),
        BinOp::Lt => Ok(truth(left < right)),
        BinOp::Le => Ok(truth(left <= right)),
        BinOp::Gt => Ok(truth(left > right)),
        BinOp::Ge => Ok(truth(left >= right)),
    }
}

/// The value under a minus sign. The least number has none.
pub fn negated(number: i64) -> Result<i64, FaultKind>
    ensures { result ≡ fitting (neg_ℤ number) }
{
    fitting(-i128::from(number))
}
