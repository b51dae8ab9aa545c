//! Transitions worked out by hand, and each call once.
use ppm_cells::{
    Entry, Pop, entries_never_return, entry_can_rise, inherit, others_leave_the_own_entries,
    others_take_for_themselves, pop_above, pop_below, post, push_above, push_job, steal,
    taken_entries_stay, transitions_go_on, what_is_won_was_made, won,
};
use std::test::Fail;

const EMPTY: Entry = Entry::Empty { tag: 0 };

const LOCAL: Entry = Entry::Local { tag: 1, block: 0 };

const JOB: Entry = Entry::Job { tag: 1, block: 20 };

const TAKEN: Entry = Entry::Taken { tag: 2, taker: 3 };

#[test]
fn owners_push_and_pop(rt: HostRuntime) -> Result<(), Fail> {
    assert_eq!(rt; push_above(EMPTY), Some(LOCAL));
    assert_eq!(rt; push_above(LOCAL), None);
    assert_eq!(rt; push_job(Entry::Local { tag: 0, block: 0 }, 20), Some(JOB));
    assert_eq!(rt; push_job(TAKEN, 20), None);
    let back = Entry::Local { tag: 2, block: 20 };
    assert_eq!(rt; pop_below(JOB), Pop::Try(back, 20));
    assert_eq!(rt; pop_below(back), Pop::Mine(20));
    assert_eq!(rt; pop_below(TAKEN), Pop::Gone);
    assert_eq!(rt; pop_above(LOCAL), Some(Entry::Empty { tag: 2 }));
    assert_eq!(rt; post(EMPTY, 20), Some(JOB));
    Ok(())
}

#[test]
fn thieves_take_jobs_and_inherit(rt: HostRuntime) -> Result<(), Fail> {
    let claimed = Entry::Taken { tag: 2, taker: 67 };
    assert_eq!(rt; steal(JOB, 3), Some(TAKEN));
    assert_eq!(rt; inherit(LOCAL, 3), Some(claimed));
    assert_eq!(rt; inherit(JOB, 3), None);
    let cases = [
        (JOB, TAKEN, 3, true),
        (JOB, TAKEN, 4, false),
        (LOCAL, claimed, 3, true),
        (LOCAL, claimed, 4, false),
    ];
    for (message, now, place, want) in cases {
        assert_eq!(rt;
            won(message, now, place),
            want,
            "{message:?} and {now:?} by {place}"
        );
    }
    Ok(())
}

#[test]
fn tags_end_and_laws_can_be_called(rt: HostRuntime) -> Result<(), Fail> {
    assert!(rt; entry_can_rise(Entry::Empty { tag: 17179869182 }));
    assert!(rt; !entry_can_rise(Entry::Empty { tag: 17179869183 }));
    transitions_go_on();
    entries_never_return();
    taken_entries_stay();
    others_take_for_themselves();
    others_leave_the_own_entries();
    what_is_won_was_made();
    Ok(())
}
