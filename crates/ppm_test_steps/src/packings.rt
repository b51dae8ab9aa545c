//! Words and addresses from the machine's tables, and each call once.
use ppm_cells::{
    Cell, Entry, Finish, Holder, Link, LinkKind, Region, Restart, RestartKind, Shape, Side,
    Takeover, cells_are_the_words, greatest_word_count, packings_are_exact, stored_values_are_seen,
    stores_change_one_cell,
};
use ppm_words::Trap;
use std::test::Fail;

#[test]
fn entries_have_their_words(rt: HostRuntime) -> Result<(), Fail> {
    let cases = [
        (Entry::Empty { tag: 0 }, 0),
        (Entry::Local { tag: 0, block: 0 }, 4611686018427387904),
        (Entry::Job { tag: 3, block: 5 }, 9223372037660082181),
        (Entry::Taken { tag: 2, taker: 67 }, 13835058055819034691),
    ];
    for (entry, word) in cases {
        assert_eq!(rt; Entry::unpack(word), Some(entry), "the entry of {word}");
    }
    assert_eq!(rt;
        Entry::unpack(13835058055819034752),
        None,
        "taken with payload 128"
    );
    assert_eq!(rt; Entry::Job { tag: 3, block: 5 }.pack(), 9223372037660082181);
    Ok(())
}

#[test]
fn restarts_have_their_words(rt: HostRuntime) -> Result<(), Fail> {
    let cases = [
        (
            RestartKind::Run {
                frame: 100,
                copy: 1,
            },
            576460756866826340,
        ),
        (RestartKind::Seek, 5764607527329202176),
        (
            RestartKind::Steal { victim: 3, slot: 7 },
            6341068279632822279,
        ),
        (
            RestartKind::Take { victim: 3, dead: 2 },
            7493989784239472834,
        ),
        (
            RestartKind::Join {
                block: 20,
                side: Side::Right,
            },
            4035225270687367188,
        ),
    ];
    for (kind, word) in cases {
        assert_eq!(rt;
            Restart::unpack(word),
            Some(Restart { kind, bottom: 1 }),
            "of {word}"
        );
    }
    assert_eq!(rt; Restart::unpack(0), None, "there is no kind 0");
    assert_eq!(rt;
        Restart::unpack(5764607527329202177),
        None,
        "an address in a seek"
    );
    let run = RestartKind::Run {
        frame: 100,
        copy: 1,
    };
    assert_eq!(rt;
        Restart {
            kind: run,
            bottom: 1
        }
        .pack(),
        576460756866826340
    );
    Ok(())
}

#[test]
fn finishes_have_their_words(rt: HostRuntime) -> Result<(), Fail> {
    let cases = [
        (0, Some(Finish::Unset)),
        (1, Some(Finish::Ended)),
        (
            210,
            Some(Finish::Trapped {
                trap: Trap::DivZero,
                line: 3,
            }),
        ),
        (4167, Some(Finish::Broken { place: 64 })),
        (7, None),
        (5, None),
        (197, None),
        (4231, None),
    ];
    for (word, finish) in cases {
        assert_eq!(rt; Finish::unpack(word), finish, "the finish of {word}");
    }
    assert_eq!(rt; Finish::Broken { place: 64 }.pack(), 4167);
    assert!(rt; Finish::Ended.is_outcome());
    assert!(rt; !Finish::Stopped.is_outcome());
    Ok(())
}

#[test]
fn holders_links_and_regions_have_their_words(rt: HostRuntime) -> Result<(), Fail> {
    let holder = Holder {
        tag: 2,
        processor: 5,
    };
    assert_eq!(rt; holder.pack(), 133);
    assert_eq!(rt; Holder::unpack(133), Some(holder));
    let link = Link {
        kind: LinkKind::Call {
            frame: 300,
            copy: 1,
        },
        size: 14,
    };
    assert_eq!(rt; link.pack(), 288230383936340268);
    assert_eq!(rt; Link::unpack(288230383936340268), Some(link));
    assert_eq!(rt; Link::unpack(1441151888543187244), None, "bit 60");
    let region = Region {
        start: 2,
        length: 3,
    };
    assert_eq!(rt; region.pack(), 8589934595);
    assert_eq!(rt; Region::unpack(8589934595), Some(region));
    Ok(())
}

#[test]
fn words_have_their_addresses(rt: HostRuntime) -> Result<(), Fail> {
    let shape = Shape::new(1, 64, 2, 2).ok_or("within the limits")?;
    assert_eq!(rt; shape.pool_at(0), 10);
    assert_eq!(rt; shape.arrays_at(), 74);
    assert_eq!(rt; shape.word_count(), 76);
    assert_eq!(rt; shape.address(Cell::FinishWord), 0);
    assert_eq!(rt; shape.address(Cell::RestartWord { place: 0 }), 3);
    assert_eq!(rt; shape.address(Cell::EntryWord { place: 0, slot: 1 }), 9);
    assert_eq!(rt; shape.address(Cell::ArrayWord { index: 1 }), 75);
    assert_eq!(rt; shape.stealing().takeover, Takeover::ByEntries);
    let greatest = Shape::new(64, 1048576, 65536, 4194304).ok_or("within the limits")?;
    assert_eq!(rt; greatest.word_count(), 75497921);
    assert_eq!(rt; greatest.takeover, Takeover::ByPlaces);
    assert_eq!(rt; Shape::new(65, 64, 2, 0), None, "64 processors at most");
    let one = Shape::new(1, 67108864, 2, 0).ok_or("one pool of all the words")?;
    assert_eq!(rt; one.arrays_at(), 67108874);
    for (processors, room) in [(1, 67108865), (2, 67108864), (64, 1048577)] {
        let shape = Shape::new(processors, room, 2, 0);
        assert_eq!(rt; shape, None, "{processors} pools of {room}");
    }
    Ok(())
}

#[test]
fn laws_are_called() {
    packings_are_exact();
    cells_are_the_words();
    greatest_word_count();
    stores_change_one_cell();
    stored_values_are_seen();
}
