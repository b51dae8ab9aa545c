//! Trees of the small instance, with ends worked out by hand.
use crate::copies::{copies_are_restartable, copies_with_faults};
use crate::races::{
    apart_trees_are_calm, races_are_not_calm, samples_are_local, tables_run_in_any_order,
};
use crate::sample::{Capsule, Counts, End, Outcome, SmallTree, Word, run};
use crate::stops::{Ask, Run, run_with_stops, stops_do_not_show};
use ppm_ownership::{
    come_to_sites, own_apart, positions_are_come_to, run_in_either_order, stay_within,
};
use ppm_strands::{
    a_change_at_one_leaf, a_change_passes_up, a_conflict_may_show, a_step_in_turn, ahead_composes,
    any_order, calls_resume, calm_by_listed_regions, capsules_are_local, capsules_make_steps,
    chains_in_turn, chains_pass_up, changes_what_it_writes, code_is_local,
    conflict_free_is_idempotent, end_stores_are_unseen, end_stores_come_last, faults_do_not_show,
    forks_resume, goes_by_parts, has_one_end, larger_bounds_agree, locality,
    others_keep_what_is_done, paths_are_enough, stops_change_nothing, strands_beside_do_not_race,
    what_is_done_stands, what_stands_is_to_come,
};
use std::test::Fail;

fn over(from: Word, to: Word, plus: u8, outcome: Outcome) -> Capsule {
    Capsule {
        from,
        to,
        plus,
        asks: 0,
        opens: SmallTree::Over(outcome),
    }
}

fn table() -> [Capsule; 16] {
    [
        // 0: one more in A; 1: A is copied to B; 2, 3: traps
        over(Word::A, Word::A, 1, Outcome::Finished),
        Capsule {
            from: Word::A,
            to: Word::B,
            plus: 0,
            asks: 3,
            opens: SmallTree::Over(Outcome::Finished),
        },
        over(Word::C, Word::C, 1, Outcome::Trapped(7)),
        over(Word::D, Word::D, 1, Outcome::Trapped(9)),
        // 4: for ever; 5: five more in B, then 0
        Capsule {
            from: Word::D,
            to: Word::D,
            plus: 0,
            asks: 0,
            opens: SmallTree::Strand(4),
        },
        Capsule {
            from: Word::B,
            to: Word::B,
            plus: 5,
            asks: 2,
            opens: SmallTree::Strand(0),
        },
        // 6: forks, and its right branch 7 forks again
        Capsule {
            from: Word::D,
            to: Word::D,
            plus: 1,
            asks: 10,
            opens: SmallTree::Fork {
                frame: 1,
                left: 0,
                right: 7,
            },
        },
        Capsule {
            from: Word::C,
            to: Word::C,
            plus: 2,
            asks: 4,
            opens: SmallTree::Fork {
                frame: 8,
                left: 9,
                right: 10,
            },
        },
        over(Word::C, Word::C, 10, Outcome::Finished),
        over(Word::B, Word::B, 1, Outcome::Finished),
        over(Word::D, Word::D, 100, Outcome::Finished),
        // 11: nothing; 12: one more in A, then 11; 13: one more in B, then 11
        over(Word::D, Word::D, 0, Outcome::Finished),
        Capsule {
            from: Word::A,
            to: Word::A,
            plus: 1,
            asks: 0,
            opens: SmallTree::Strand(11),
        },
        Capsule {
            from: Word::B,
            to: Word::B,
            plus: 1,
            asks: 0,
            opens: SmallTree::Strand(11),
        },
        // 14: for ever on the left, A is copied to B on the right
        Capsule {
            from: Word::D,
            to: Word::D,
            plus: 0,
            asks: 0,
            opens: SmallTree::Fork {
                frame: 9,
                left: 4,
                right: 1,
            },
        },
        // 15: A is copied to B on the left, one more in A on the right
        Capsule {
            from: Word::D,
            to: Word::D,
            plus: 0,
            asks: 0,
            opens: SmallTree::Fork {
                frame: 9,
                left: 1,
                right: 12,
            },
        },
    ]
}

fn fork(frame: u8, left: u8, right: u8) -> SmallTree {
    SmallTree::Fork { frame, left, right }
}

/// An end, with its counts of capsules, forks and block words.
fn end(outcome: Outcome, words: [u8; 4], counts: (u64, u64, u64)) -> Option<End> {
    let (capsules, forks, block_words) = counts;
    Some(End {
        outcome,
        words,
        counts: Counts {
            capsules,
            forks,
            block_words,
        },
    })
}

#[test]
fn trees_run_depth_first(rt: HostRuntime) -> Result<(), Fail> {
    let start = [1, 2, 3, 4];
    let finished = Outcome::Finished;
    let cases = [
        (
            SmallTree::Over(Outcome::Trapped(5)),
            start,
            end(Outcome::Trapped(5), start, (0, 0, 0)),
        ),
        (
            SmallTree::Strand(0),
            start,
            end(finished, [2, 2, 3, 4], (1, 0, 0)),
        ),
        (
            SmallTree::Strand(0),
            [255, 0, 0, 0],
            end(finished, [0, 0, 0, 0], (1, 0, 0)),
        ),
        (
            SmallTree::Strand(5),
            start,
            end(finished, [2, 7, 3, 4], (2, 0, 2)),
        ),
        (
            SmallTree::Strand(200),
            start,
            end(Outcome::Trapped(255), start, (1, 0, 0)),
        ),
        // a call, and one whose callee traps
        (
            SmallTree::Call {
                frame: 1,
                callee: 0,
            },
            start,
            end(finished, [2, 2, 3, 4], (2, 0, 3)),
        ),
        (
            SmallTree::Call {
                frame: 1,
                callee: 2,
            },
            start,
            end(Outcome::Trapped(7), [1, 2, 4, 4], (1, 0, 0)),
        ),
        // forks of which the left branch traps, both do, and the right one does
        (
            fork(0, 2, 5),
            start,
            end(Outcome::Trapped(7), [2, 7, 4, 4], (3, 0, 2)),
        ),
        (
            fork(0, 2, 3),
            start,
            end(Outcome::Trapped(7), [1, 2, 4, 5], (2, 0, 0)),
        ),
        (
            fork(0, 0, 3),
            start,
            end(Outcome::Trapped(9), [2, 2, 3, 5], (2, 0, 0)),
        ),
        // nested forks
        (
            SmallTree::Strand(6),
            start,
            end(finished, [2, 2, 15, 105], (7, 2, 17)),
        ),
        // no end; the last two race, after the branch without end and beside it
        (SmallTree::Strand(4), start, None),
        (fork(9, 4, 0), start, None),
        (fork(9, 14, 12), start, None),
        (fork(9, 4, 15), start, None),
    ];
    for (tree, words, want) in cases {
        assert_eq!(rt; run(&table(), 30, tree, words), want, "{tree:?}");
    }
    Ok(())
}

#[test]
fn a_capsule_ahead_keeps_a_calm_end_and_not_a_race(rt: HostRuntime) -> Result<(), Fail> {
    let start = [1, 2, 3, 4];
    let finished = Outcome::Finished;
    // the right branch adds to B, which the left one does not touch: after its capsule the end is
    // the same, with one capsule less
    assert_eq!(rt;
        run(&table(), 30, fork(9, 0, 13), start),
        end(finished, [2, 4, 3, 4], (4, 0, 0))
    );
    assert_eq!(rt;
        run(&table(), 30, fork(9, 0, 11), [1, 3, 3, 4]),
        end(finished, [2, 4, 3, 4], (3, 0, 0))
    );
    // the right branch adds to A, which the left one reads: after its capsule the end is another
    assert_eq!(rt;
        run(&table(), 30, fork(9, 1, 12), start),
        end(finished, [2, 2, 3, 4], (4, 0, 3))
    );
    assert_eq!(rt;
        run(&table(), 30, fork(9, 1, 11), [2, 2, 3, 4]),
        end(finished, [2, 3, 3, 4], (3, 0, 3))
    );
    Ok(())
}

#[test]
fn stops_show_only_after_a_conflict(rt: HostRuntime) -> Result<(), Fail> {
    let start = [1, 2, 3, 4];
    let add = Ask::Add(1);
    // A and B are read, and C and D written
    let apart = [
        Ask::Load(Word::A),
        add,
        Ask::Store(Word::C),
        Ask::Load(Word::B),
        add,
        Ask::Store(Word::D),
    ];
    // A is written first, and then read and written again
    let first = [
        Ask::Add(7),
        Ask::Store(Word::A),
        Ask::Load(Word::A),
        add,
        Ask::Store(Word::A),
    ];
    // A is read and then written
    let conflict = [Ask::Load(Word::A), add, Ask::Store(Word::A)];
    for steps in 0..=5u8 {
        let stops = [steps, 3, steps];
        let want = Run {
            end: 3,
            words: [1, 2, 2, 3],
        };
        assert_eq!(rt; run_with_stops(&apart, &stops, start), want, "{stops:?}");
        let want = Run {
            end: 8,
            words: [8, 2, 3, 4],
        };
        assert_eq!(rt; run_with_stops(&first, &stops, start), want, "{stops:?}");
    }
    // a stop before its store does not show, and each one after it adds one
    for (stops, a) in [([0, 1], 2), ([1, 2], 3), ([2, 2], 4), ([9, 9], 4)] {
        let want = Run {
            end: a,
            words: [a, 2, 3, 4],
        };
        assert_eq!(rt; run_with_stops(&conflict, &stops, start), want, "{stops:?}");
    }
    Ok(())
}

#[test]
fn laws_are_calls_that_do_nothing(_rt: HostRuntime) -> Result<(), Fail> {
    larger_bounds_agree::<u8, Outcome>();
    has_one_end::<u8, Outcome>();
    goes_by_parts::<u8, Outcome>();
    calls_resume::<u8, Outcome>();
    forks_resume::<u8, Outcome>();
    locality::<u8, Outcome>();
    changes_what_it_writes::<u8, Outcome>();
    strands_beside_do_not_race::<u8, Outcome>();
    a_change_passes_up::<u8, Outcome>();
    a_change_at_one_leaf::<u8, Outcome>();
    a_step_in_turn::<u8, Outcome>();
    any_order::<u8, Outcome>();
    calm_by_listed_regions::<u8, Outcome>();
    chains_pass_up::<u8, Outcome>();
    chains_in_turn::<u8, Outcome>();
    ahead_composes::<u8, Outcome>();
    what_stands_is_to_come::<u8, Outcome>();
    capsules_are_local::<u8, u8>();
    conflict_free_is_idempotent::<u8, u8>();
    stops_change_nothing::<u8, u8>();
    a_conflict_may_show::<u8>();
    paths_are_enough::<u8, u8>();
    what_is_done_stands::<u8, u8>();
    end_stores_come_last::<u8, u8>();
    code_is_local::<u8, u8, u8, u8, Outcome>();
    capsules_make_steps::<u8, u8, u8, u8, Outcome>();
    others_keep_what_is_done::<u8, u8, u8, u8, Outcome>();
    faults_do_not_show::<u8, u8, u8, u8, Outcome>();
    end_stores_are_unseen::<u8, u8, u8, u8, Outcome>();
    stops_do_not_show();
    copies_are_restartable();
    copies_with_faults();
    samples_are_local();
    tables_run_in_any_order();
    races_are_not_calm();
    apart_trees_are_calm();
    come_to_sites();
    positions_are_come_to();
    own_apart();
    stay_within();
    run_in_either_order();
    Ok(())
}
