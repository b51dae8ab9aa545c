//! Names and values of words worked out by hand, each call once.
use ppm_cells::{Cell, RestartKind, Shape, Side};
use ppm_naming::{
    Names, ProcedureName, WordKind, addressed, addresses_name_cells, kind_of, push_cell,
    push_procedure, push_value, restart_name, side_name,
};
use ppm_words::{Items, Name, NoMemory};
use std::alloc::Global;
use std::process::Abort;
use std::test::Fail;

/// Words that are numbers, orders, holder words and messages.
const NUMBERS: [(WordKind, u64, &str); 24] = [
    (WordKind::Number, 0, "0"),
    (WordKind::Number, 7, "7"),
    (
        WordKind::Number,
        18446744073709551615,
        "18446744073709551615",
    ),
    (WordKind::Signed, 0, "0"),
    (WordKind::Signed, 9223372036854775807, "9223372036854775807"),
    (
        WordKind::Signed,
        9223372036854775808,
        "-9223372036854775808",
    ),
    (WordKind::Signed, 18446744073709551615, "-1"),
    (WordKind::Order, 0, "none"),
    (WordKind::Order, 1, "left"),
    (WordKind::Order, 2, "right"),
    (WordKind::Order, 3, "both"),
    (WordKind::Holder, 0, "p0#0"),
    (WordKind::Holder, 1, "p1#0"),
    (WordKind::Holder, 64, "p0#1"),
    (WordKind::Holder, 65, "p1#1"),
    (
        WordKind::Holder,
        18446744073709551615,
        "p63#288230376151711743",
    ),
    (WordKind::Message, 0, "-"),
    (WordKind::Message, 1, "p1#0"),
    (WordKind::Message, 129, "p1#2"),
    (
        WordKind::Message,
        4611686018427387903,
        "p63#72057594037927935",
    ),
    (WordKind::Message, 4611686018427387904, "Local(0)#0"),
    (WordKind::Message, 9223372038196953097, "Job(9)#5"),
    (WordKind::Message, 4611686019769565193, "Local(9)#5"),
    (WordKind::Message, 13835058056624341062, "Taken(6,local)#5"),
];

/// Words that pack restarts, entries and links.
const PACKED: [(WordKind, u64, &str); 27] = [
    (WordKind::Restart, 576460756866826258, "Run(18,1)^1"),
    (WordKind::Restart, 1152921508901814298, "Bump(26)^1"),
    (WordKind::Restart, 1729382261205237786, "Push1(26)^1"),
    (WordKind::Restart, 2305843017803628570, "Push2(26)^2"),
    (WordKind::Restart, 2882303765812084754, "Unwind(18)^1"),
    (WordKind::Restart, 3458764522410475546, "Arrive(26,left)^2"),
    (WordKind::Restart, 4035225270687367194, "Join(26,right)^1"),
    (WordKind::Restart, 4611686027017322496, "Pop1^2"),
    (WordKind::Restart, 5188146779320746010, "Pop2(26)^2"),
    (WordKind::Restart, 6341068271042691072, "Seek^134217727"),
    (WordKind::Restart, 6341068279636819967, "Steal(63/65535)^1"),
    (WordKind::Restart, 6917529031936049153, "Check(0/1)^1"),
    (WordKind::Restart, 7493989784239472706, "Take(1,p2)^1"),
    (WordKind::Restart, 8070450536542896133, "Take2(5)^1"),
    (WordKind::Entry, 0, "Empty#0"),
    (WordKind::Entry, 805306368, "Empty#3"),
    (WordKind::Entry, 4611686018695823386, "Local(26)#1"),
    (WordKind::Entry, 9223372037123211290, "Job(26)#1"),
    (WordKind::Entry, 13835058055819034625, "Taken(1)#2"),
    (
        WordKind::Entry,
        18446744073441116223,
        "Taken(63)#17179869183",
    ),
    (WordKind::Entry, 13835058055550599232, "Taken(0,local)#1"),
    (WordKind::Entry, 13835058055550599295, "Taken(63,local)#1"),
    (WordKind::Link, 144115191833952256, "root"),
    (WordKind::Link, 288230381251985426, "call(18,1)"),
    (WordKind::Link, 432345567985664026, "left(26)"),
    (WordKind::Link, 576460756061519898, "right(26)"),
    (WordKind::Link, 720575951385133074, "fork(18,1)"),
];

/// Words that say how a run ended.
const FINISHES: [(WordKind, u64, &str); 11] = [
    (WordKind::Finish, 0, "none"),
    (WordKind::Finish, 1, "ended"),
    (WordKind::Finish, 458, "trap(overflow,7)"),
    (WordKind::Finish, 82, "trap(divzero,1)"),
    (WordKind::Finish, 4294967258, "trap(index,67108863)"),
    (WordKind::Finish, 610, "trap(split,9)"),
    (WordKind::Finish, 131, "turns(2)"),
    (WordKind::Finish, 4036, "room(63)"),
    (WordKind::Finish, 6, "stopped"),
    (WordKind::Finish, 71, "broken(0)"),
    (WordKind::Finish, 4167, "broken(64)"),
];

/// Words that stand for nothing of their kind.
const UNKNOWN: [(WordKind, u64); 20] = [
    (WordKind::Order, 4),
    (WordKind::Restart, 0),
    (WordKind::Restart, 5764607527329202177),
    (WordKind::Restart, 8646911284551352320),
    (WordKind::Restart, 576460752840294400),
    (WordKind::Entry, 1),
    (WordKind::Entry, 13835058055819034752),
    (WordKind::Message, 13835058055550599296),
    (WordKind::Link, 0),
    (WordKind::Link, 5),
    (WordKind::Link, 864691128455135232),
    (WordKind::Link, 432345568254099482),
    (WordKind::Link, 1297036696440799232),
    (WordKind::Finish, 5),
    (WordKind::Finish, 66),
    (WordKind::Finish, 10),
    (WordKind::Finish, 4294967296),
    (WordKind::Finish, 7),
    (WordKind::Finish, 4231),
    (WordKind::Finish, 4099),
];

/// The cells of two processors with 64 words of room, two slots and five array words, by addresses.
const CELLS: [(u32, Cell, &str); 22] = [
    (0, Cell::FinishWord, "finish"),
    (1, Cell::CarryWord { processor: 0 }, "carry.0"),
    (2, Cell::CarryWord { processor: 1 }, "carry.1"),
    (3, Cell::DeadWord { processor: 0 }, "dead.0"),
    (4, Cell::DeadWord { processor: 1 }, "dead.1"),
    (5, Cell::RestartWord { place: 0 }, "restart.0"),
    (6, Cell::MessageWord { place: 0 }, "message.0"),
    (7, Cell::HolderWord { place: 0 }, "holder.0"),
    (8, Cell::Top { place: 0 }, "top.0"),
    (9, Cell::RoomCounter { place: 0 }, "room.0"),
    (10, Cell::EntryWord { place: 0, slot: 0 }, "entry.0.0"),
    (11, Cell::EntryWord { place: 0, slot: 1 }, "entry.0.1"),
    (12, Cell::BlockWord { address: 12 }, "word.12"),
    (75, Cell::BlockWord { address: 75 }, "word.75"),
    (76, Cell::RestartWord { place: 1 }, "restart.1"),
    (81, Cell::EntryWord { place: 1, slot: 0 }, "entry.1.0"),
    (83, Cell::BlockWord { address: 83 }, "word.83"),
    (146, Cell::BlockWord { address: 146 }, "word.146"),
    (147, Cell::ArrayWord { index: 0 }, "a[0]"),
    (149, Cell::ArrayWord { index: 2 }, "bee[0]"),
    (151, Cell::ArrayWord { index: 4 }, "bee[2]"),
    (152, Cell::ArrayWord { index: 5 }, "array[5]"),
];

/// A word, as its kind is written.
fn written(alloc: Global, kind: WordKind, word: u64) -> Result<Vec<u8>, NoMemory> {
    let mut text = Vec::new(alloc);
    push_value(alloc, &mut text, kind, word)?;
    Ok(text)
}

/// Checks how words are written.
fn are_written(rt: &impl Abort, alloc: Global, rows: &[(WordKind, u64, &str)]) -> Result<(), Fail> {
    for (kind, word, want) in rows {
        let text = written(alloc, *kind, *word).map_err(|_| "memory")?;
        assert_eq!(rt; text.as_slice(), want.as_bytes(), "{kind:?} {word}");
    }
    Ok(())
}

#[test]
fn numbers_orders_and_messages_are_written(rt: HostRuntime) -> Result<(), Fail> {
    are_written(&rt, rt.alloc(), &NUMBERS)
}

#[test]
fn packed_words_are_written(rt: HostRuntime) -> Result<(), Fail> {
    are_written(&rt, rt.alloc(), &PACKED)
}

#[test]
fn finish_words_are_written(rt: HostRuntime) -> Result<(), Fail> {
    are_written(&rt, rt.alloc(), &FINISHES)
}

#[test]
fn words_that_stand_for_nothing_are_decimal(rt: HostRuntime) -> Result<(), Fail> {
    for (kind, word) in UNKNOWN {
        let text = written(rt.alloc(), kind, word).map_err(|_| "memory")?;
        let want = word.to_string(rt.alloc())?;
        assert_eq!(rt; text.as_slice(), want.as_bytes(), "{kind:?} {word}");
    }
    Ok(())
}

/// The arrays `a` and `bee`, and three procedures.
fn names(alloc: Global) -> Result<Names, Fail> {
    let first = Name::from_bytes(vec![in alloc; b'a']?);
    let second = Name::from_bytes(vec![in alloc; b'b', b'e', b'e']?);
    let main = Name::from_bytes(vec![in alloc; b'm', b'a', b'i', b'n']?);
    let named = ProcedureName::Named(main);
    let each = ProcedureName::EachOf(17);
    let numbered = ProcedureName::Numbered(2);
    Ok(Names {
        arrays: Items::from_vec(vec![in alloc; first, second]?),
        procedures: Items::from_vec(vec![in alloc; named, each, numbered]?),
    })
}

#[test]
fn cells_are_found_and_named(rt: HostRuntime) -> Result<(), Fail> {
    let alloc = rt.alloc();
    let names = names(alloc)?;
    let shape = Shape::new(2, 64, 2, 5).ok_or("within the limits")?;
    for (at, cell, want) in CELLS {
        assert_eq!(rt; addressed(&shape, at), cell, "{at}");
        let mut text = Vec::new(alloc);
        push_cell(&mut text, &names, &[2, 3], cell).map_err(|_| "memory")?;
        assert_eq!(rt; text.as_slice(), want.as_bytes(), "{at}");
    }
    addresses_name_cells();
    Ok(())
}

#[test]
fn procedures_are_named(rt: HostRuntime) -> Result<(), Fail> {
    let alloc = rt.alloc();
    let names = names(alloc)?;
    let cases = [(0, "main"), (1, "each:17"), (2, "proc:2"), (3, "?")];
    for (number, want) in cases {
        let mut text = Vec::new(alloc);
        push_procedure(&mut text, &names, number).map_err(|_| "memory")?;
        assert_eq!(rt; text.as_slice(), want.as_bytes(), "{number}");
    }
    Ok(())
}

#[test]
fn cells_tell_kinds(rt: HostRuntime) -> Result<(), Fail> {
    let cases = [
        (Cell::FinishWord, WordKind::Finish),
        (Cell::CarryWord { processor: 0 }, WordKind::Number),
        (Cell::DeadWord { processor: 0 }, WordKind::Number),
        (Cell::RestartWord { place: 0 }, WordKind::Restart),
        (Cell::MessageWord { place: 0 }, WordKind::Message),
        (Cell::HolderWord { place: 0 }, WordKind::Holder),
        (Cell::Top { place: 0 }, WordKind::Number),
        (Cell::RoomCounter { place: 0 }, WordKind::Number),
        (Cell::EntryWord { place: 0, slot: 1 }, WordKind::Entry),
        (Cell::BlockWord { address: 18 }, WordKind::Signed),
        (Cell::ArrayWord { index: 0 }, WordKind::Signed),
    ];
    for (cell, want) in cases {
        assert_eq!(rt; kind_of(cell), want, "{cell:?}");
    }
    assert_eq!(rt; restart_name(RestartKind::Pop1), "Pop1");
    assert_eq!(rt; side_name(Side::Right), "right");
    Ok(())
}
