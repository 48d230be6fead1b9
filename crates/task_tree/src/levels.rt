//! How tightly operators bind.

ghost use Rattle.std.specs.Prelude.{◌≡◌};
ghost use Rattle.task_tree.specs.Grammar.{operator, level, left_level};

use crate::operator::BinOp;
use crate::sign::Sign;

impl BinOp {
    // The operator that a sign between two operands is.
    pub(crate) fn of_sign(sign: Sign) -> Option<BinOp>
        ensures { result ≡ operator sign }
    {
        match sign {
            Sign::Plus => Some(BinOp::Add),
            Sign::Minus => Some(BinOp::Sub),
            Sign::Times => Some(BinOp::Mul),
            Sign::Over => Some(BinOp::Div),
            Sign::Rest => Some(BinOp::Rem),
            Sign::Same => Some(BinOp::Eq),
            Sign::Differs => Some(BinOp::Ne),
            Sign::Below => Some(BinOp::Lt),
            Sign::AtMost => Some(BinOp::Le),
            Sign::Above => Some(BinOp::Gt),
            Sign::AtLeast => Some(BinOp::Ge),
            Sign::OpenRound => None,
            Sign::CloseRound => None,
            Sign::OpenSquare => None,
            Sign::CloseSquare => None,
            Sign::Comma => None,
            Sign::Set => None,
            Sign::Dots => None,
        }
    }

    // How tightly the operator binds: a comparison at level 0, a sum at 1, a product at 2.
    pub(crate) fn level(self) -> u8
        ensures { result ≡ level self }
    {
        match self {
            BinOp::Add => 1,
            BinOp::Sub => 1,
            BinOp::Mul => 2,
            BinOp::Div => 2,
            BinOp::Rem => 2,
            BinOp::Eq => 0,
            BinOp::Ne => 0,
            BinOp::Lt => 0,
            BinOp::Le => 0,
            BinOp::Gt => 0,
            BinOp::Ge => 0,
        }
    }

    // The level of what stands to the left of the operator.
    pub(crate) fn left_level(self) -> u8
        ensures { result ≡ left_level self }
    {
        self.level().max(1)
    }
}
