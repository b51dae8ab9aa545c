//! The stores of an end, one by one.
use crate::small::small_code;
use ppm_cells::{Cell, Link, LinkKind};
use ppm_code::End;
use ppm_step::{Content, Home, Put};
use std::test::Fail;

#[test]
fn the_stores_of_an_end_come_in_order(rt: HostRuntime) -> Result<(), Fail> {
    let code = small_code(rt.alloc())?;
    let home = Home {
        frame: 14,
        copy: 0,
        block: 30,
    };
    let fork = End::Fork {
        left: 0,
        right: 0,
        capsule: 3,
        left_to: None,
        right_to: None,
    };
    let first = Put {
        cell: Cell::BlockWord { address: 30 },
        content: Content::ALink(Link {
            kind: LinkKind::Fork { frame: 14, copy: 1 },
            size: 19,
        }),
    };
    let last = Put {
        cell: Cell::BlockWord { address: 17 },
        content: Content::ANumber(3),
    };
    assert_eq!(rt; home.coming_put(&code, fork, 0), Some(first));
    assert_eq!(rt; home.coming_put(&code, fork, 8), Some(last));
    assert_eq!(rt; home.coming_put(&code, fork, 9), None);
    assert_eq!(rt; home.next_put(&code, fork, 8), Some(last));
    assert_eq!(rt; home.next_put(&code, fork, 9), None);
    Ok(())
}
