//! The levels of operators with two operands.
ghost use Rattle.std.specs.Prelude.{◌≡◌};
ghost use Rattle.ppm_rows.specs.Operations.{operator_at};

use ppm_text::Sign;
use ppm_tree::Operator;

/// The levels of operators with two operands, from the one that binds least. The operands of each
/// are of the next one, those of the last have no such operator.
#[derive(Clone, Copy, Debug, PartialEq, Eq)]
pub enum Level {
    /// `||`
    Either,
    /// `&&`
    Both,
    /// `==`, `!=`, `<`, `<=`, `>` and `>=`, once at most.
    Comparison,
    /// `+` and `-`
    Sum,
    /// `*`, `/` and `%`
    Product,
}

/// The operator of the level that the sign stands for, if it is one.
pub fn operator(level: Level, sign: Sign) -> Option<Operator>
    ensures { result ≡ operator_at level sign }
{
    match (level, sign) {
        (Level::Either, Sign::Either) => Some(Operator::Or),
        (Level::Both, Sign::Both) => Some(Operator::And),
        (Level::Comparison, Sign::Equal) => Some(Operator::Eq),
        (Level::Comparison, Sign::NotEqual) => Some(Operator::Ne),
        (Level::Comparison, Sign::Less) => Some(Operator::Lt),
        (Level::Comparison, Sign::LessEqual) => Some(Operator::Le),
        (Level::Comparison, Sign::Greater) => Some(Operator::Gt),
        (Level::Comparison, Sign::GreaterEqual) => Some(Operator::Ge),
        (Level::Sum, Sign::Plus) => Some(Operator::Add),
        (Level::Sum, Sign::Minus) => Some(Operator::Sub),
        (Level::Product, Sign::Times) => Some(Operator::Mul),
        (Level::Product, Sign::Divide) => Some(Operator::Div),
        (Level::Product, Sign::Remainder) => Some(Operator::Rem),
        _ => None,
    }
}
