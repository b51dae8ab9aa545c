//! Transitions worked out by hand, and each call once.
use ppm_cells::{Finish, Side, inline, joined, last, one_branch_is_last, order_words_are_set_once};
use ppm_words::Trap;
use std::test::Fail;

#[test]
fn order_words_say_who_is_last(rt: HostRuntime) -> Result<(), Fail> {
    let cases = [
        (0, Side::Left, false, false),
        (1, Side::Left, false, false),
        (2, Side::Left, true, false),
        (3, Side::Left, false, true),
        (1, Side::Right, true, false),
        (3, Side::Right, true, false),
    ];
    for (order, side, is_last, is_inline) in cases {
        assert_eq!(rt; last(order, side), is_last, "last of {order} and {side:?}");
        assert_eq!(rt;
            inline(order, side),
            is_inline,
            "inline of {order} and {side:?}"
        );
    }
    Ok(())
}

#[test]
fn the_left_trap_goes_first(rt: HostRuntime) -> Result<(), Fail> {
    let index = Finish::Trapped {
        trap: Trap::Index,
        line: 4,
    };
    let split = Finish::Trapped {
        trap: Trap::Split,
        line: 2,
    };
    let cases = [
        (Finish::Ended, index, index),
        (index, Finish::Ended, index),
        (index, split, index),
        (Finish::Ended, Finish::Ended, Finish::Ended),
    ];
    for (left, right, want) in cases {
        assert_eq!(rt; joined(left, right), want, "{left:?} and {right:?}");
    }
    order_words_are_set_once();
    one_branch_is_last();
    Ok(())
}
