//! Operators at values worked out by hand: signs and extremes.
use ppm_tree::Operator::{Add, And, Div, Eq, Ge, Gt, Le, Lt, Mul, Ne, Or, Rem, Sub};
use ppm_tree::{
    Operator, apply, divide_towards_zero, end_whole, have_one_end, negate, none_is_stuck,
    spend_their_turns,
};
use ppm_words::Trap;
use std::test::Fail;

const MIN: i64 = i64::MIN;

const MAX: i64 = i64::MAX;

#[test]
fn operators_give_the_values_worked_out_by_hand(rt: HostRuntime) -> Result<(), Fail> {
    let cases = [
        (Add, MAX, 1, Err(Trap::Overflow)),
        (Add, MAX, MIN, Ok(-1)),
        (Add, MIN, -1, Err(Trap::Overflow)),
        (Sub, MIN, 1, Err(Trap::Overflow)),
        (Sub, 0, MIN, Err(Trap::Overflow)),
        (Sub, -1, MIN, Ok(MAX)),
        (Mul, MIN, -1, Err(Trap::Overflow)),
        (Mul, 4294967296, 2147483648, Err(Trap::Overflow)),
        (Mul, -4294967296, 2147483648, Ok(MIN)),
        (Div, 7, 2, Ok(3)),
        (Div, -7, 2, Ok(-3)),
        (Div, 7, -2, Ok(-3)),
        (Div, -7, -2, Ok(3)),
        (Div, MIN, -1, Err(Trap::Overflow)),
        (Div, 0, 0, Err(Trap::DivZero)),
        (Rem, 7, 2, Ok(1)),
        (Rem, -7, 2, Ok(-1)),
        (Rem, 7, -2, Ok(1)),
        (Rem, -7, -2, Ok(-1)),
        (Rem, MIN, -1, Err(Trap::Overflow)),
        (Rem, MIN, 0, Err(Trap::DivZero)),
        (Eq, MIN, MIN, Ok(1)),
        (Ne, MIN, MIN, Ok(0)),
        (Lt, -1, 0, Ok(1)),
        (Le, 1, 0, Ok(0)),
        (Gt, MAX, MIN, Ok(1)),
        (Ge, -2, -1, Ok(0)),
        (And, -1, 2, Ok(1)),
        (And, 2, 0, Ok(0)),
        (Or, 0, -3, Ok(1)),
        (Or, 0, 0, Ok(0)),
    ];
    for (operator, x, y, value) in cases {
        assert_eq!(rt; apply(operator, x, y), value, "{operator:?} of {x} and {y}");
    }
    Ok(())
}

#[test]
fn the_negative_of_the_least_value_overflows(rt: HostRuntime) -> Result<(), Fail> {
    assert_eq!(rt; negate(MIN), Err(Trap::Overflow));
    assert_eq!(rt; negate(MAX), Ok(-9223372036854775807));
    Ok(())
}

#[test]
fn the_laws_are_calls(rt: HostRuntime) -> Result<(), Fail> {
    have_one_end();
    spend_their_turns();
    end_whole();
    none_is_stuck();
    divide_towards_zero();
    Ok(())
}
