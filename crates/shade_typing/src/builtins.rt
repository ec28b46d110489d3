//! The rows of the overload table that operators are.

ghost use Rattle.std.specs.Prelude.{◌≡◌};
ghost use Rattle.shade_typing.specs.Operators.{infix_builtin};

use shade_ast::Infix;
use shade_overload::Builtin;

/// The rows that an operator between two expressions is.
pub(crate) fn infix_builtin(operator: Infix) -> Builtin
    ensures { result ≡ infix_builtin operator }
{
    match operator {
        Infix::Or => Builtin::LogicalOr,
        Infix::And => Builtin::LogicalAnd,
        Infix::BitAnd => Builtin::And,
        Infix::BitOr => Builtin::Or,
        Infix::BitXor => Builtin::Xor,
        Infix::Less => Builtin::Less,
        Infix::Greater => Builtin::Greater,
        Infix::LessEqual => Builtin::LessEqual,
        Infix::GreaterEqual => Builtin::GreaterEqual,
        Infix::Equal => Builtin::Equal,
        Infix::NotEqual => Builtin::NotEqual,
        Infix::ShiftLeft => Builtin::ShiftLeft,
        Infix::ShiftRight => Builtin::ShiftRight,
        Infix::Add => Builtin::Add,
        Infix::Subtract => Builtin::Subtract,
        Infix::Multiply => Builtin::Multiply,
        Infix::Divide => Builtin::Divide,
        Infix::Remainder => Builtin::Remainder,
    }
}
