//! The operators with two operands, and what they give.
ghost use Rattle.std.specs.Prelude.{◌≡◌};
ghost use Rattle.ppm_tree.specs.Values.{applied, negated};

use ppm_words::Trap;

/// An operator with two operands.
#[derive(Clone, Copy, Debug, PartialEq, Eq)]
pub enum Operator {
    /// `+`
    Add,
    /// `-`
    Sub,
    /// `*`
    Mul,
    /// `/`, which truncates towards zero.
    Div,
    /// `%`, whose result has the dividend's sign.
    Rem,
    /// `==`
    Eq,
    /// `!=`
    Ne,
    /// `<`
    Lt,
    /// `<=`
    Le,
    /// `>`
    Gt,
    /// `>=`
    Ge,
    /// `&&`
    And,
    /// `||`
    Or,
}

/// The value of an operator at two values, or its trap: a division by zero, or an overflow, where
/// the result is no value, and in a division also where the quotient is none.
pub fn apply(operator: Operator, x: i64, y: i64) -> Result<i64, Trap>
    ensures value { result ≡ applied operator x y }
{
    match operator {
        Operator::Add => x.checked_add(y).ok_or(Trap::Overflow),
        Operator::Sub => x.checked_sub(y).ok_or(Trap::Overflow),
        Operator::Mul => x.checked_mul(y).ok_or(Trap::Overflow),
        Operator::Div if y == 0 => Err(Trap::DivZero),
        Operator::Div => x.checked_div(y).ok_or(Trap::Overflow),
        Operator::Rem if y == 0 => Err(Trap::DivZero),
        Operator::Rem => x.checked_rem(y).ok_or(Trap::Overflow),
        Operator::Eq => Ok(i64::from(x == y)),
        Operator::Ne => Ok(i64::from(x != y)),
        Operator::Lt => Ok(i64::from(x < y)),
        Operator::Le => Ok(i64::from(x <= y)),
        Operator::Gt => Ok(i64::from(x > y)),
        Operator::Ge => Ok(i64::from(x >= y)),
        Operator::And => Ok(i64::from(x != 0 && y != 0)),
        Operator::Or => Ok(i64::from(x != 0 || y != 0)),
    }
}

/// The value with the other sign, or an overflow.
pub fn negate(x: i64) -> Result<i64, Trap>
    ensures value { result ≡ negated x }
{
    x.checked_neg().ok_or(Trap::Overflow)
}
