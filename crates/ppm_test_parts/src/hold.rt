//! Transitions worked out by hand, and each call once.
use ppm_cells::{
    Holder, bid, bids_go_on, holder_can_rise, holders_never_return, kept, others_bid_for_themselves,
};
use std::test::Fail;

#[test]
fn bids_are_kept_by_the_bidder(rt: HostRuntime) -> Result<(), Fail> {
    let first = Holder {
        tag: 0,
        processor: 1,
    };
    let second = Holder {
        tag: 1,
        processor: 2,
    };
    assert_eq!(rt; bid(first, 2), second);
    let cases = [
        (second, second, 2, true),
        (second, second, 3, false),
        (second, first, 1, false),
        (
            second,
            Holder {
                tag: 2,
                processor: 2,
            },
            2,
            false,
        ),
    ];
    for (message, now, own, want) in cases {
        assert_eq!(rt;
            kept(message, now, own),
            want,
            "{message:?} and {now:?} by {own}"
        );
    }
    let last = Holder {
        tag: 288230376151711743,
        processor: 0,
    };
    assert!(rt; holder_can_rise(first));
    assert!(rt; !holder_can_rise(last));
    bids_go_on();
    holders_never_return();
    others_bid_for_themselves();
    Ok(())
}
