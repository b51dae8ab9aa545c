//! RAMs and their ends, worked out by hand.
use ppm_ram::{RamError, ram_run, read_ram, texts_are_of_rams};
use ppm_words::{Outcome, Trap};
use std::test::Fail;

/// A refusal as one number: 10 times the line, with the fault's number; 0 where there is a RAM.
fn refusal(rt: HostRuntime, text: &str) -> Result<u32, Fail> {
    match read_ram(rt.alloc(), text.as_bytes()) {
        Ok(_) => Ok(0),
        Err(RamError::Refused(fault, line)) => {
            Ok(line.saturating_mul(10).saturating_add(fault.number()))
        }
        Err(RamError::NoMemory) => Ok(9999),
    }
}

#[test]
fn texts_are_refused_for_their_first_fault(rt: HostRuntime) -> Result<(), Fail> {
    let cases = [
        ("", 11),
        ("ram 1", 11),
        ("ram 1\n", 21),
        ("ram 1\nmemory 4194305\n", 22),
        ("ram 1\nmemory 0\nvalues\n", 41),
        ("ram 1\nmemory 0\nvalues 1\nhalt\n", 33),
        ("ram 1\nmemory 1\nvalues 9223372036854775808 -0\nhalt\n", 31),
        ("ram 1\nmemory 1\nvalues 9223372036854775808 1\nhalt\n", 32),
        ("ram 1\nmemory 0\nvalues\nhalt", 41),
        ("ram 1\nmemory 0\nvalues\nset 8 1\nhalt\n", 42),
        ("ram 1\nmemory 0\nvalues\nset 07 1\nhalt\n", 41),
        ("ram 1\nmemory 0\nvalues\njump 2\nhalt\n", 44),
        ("ram 1\nmemory 0\nvalues\njump 1\nset 0 1\n", 55),
        ("ram 1\nmemory 0\nvalues\njump 1\n", 44),
        ("ram 1\nmemory 0\nvalues\njump 0\n", 0),
    ];
    for (text, want) in cases {
        assert_eq!(rt; refusal(rt, text)?, want, "{text}");
    }
    texts_are_of_rams();
    Ok(())
}

/// The end of a RAM within so many steps as one number: of the memory the last word, of a trap
/// 1000 and 10 times its line, with the trap's number; 5000 where it takes more steps.
fn ending(rt: HostRuntime, text: &str, steps: u64) -> Result<i64, Fail> {
    let alloc = rt.alloc();
    let ram = match read_ram(alloc, text.as_bytes()) {
        Ok(ram) => ram,
        Err(_) => return Ok(9999),
    };
    match ram_run(alloc, &ram, steps)? {
        Outcome::Ended(arrays) => match arrays.as_slice().first() {
            Some(array) => Ok(array.values.as_slice().last().copied().unwrap_or(7777)),
            None => Ok(8888),
        },
        Outcome::Trapped(trap, line) => {
            let kind = match trap {
                Trap::Overflow => 1,
                Trap::DivZero => 2,
                Trap::Index => 3,
                Trap::Split => 4,
            };
            Ok(
                1000_i64
                    .saturating_add(i64::from(line).saturating_mul(10))
                    .saturating_add(kind),
            )
        }
        Outcome::NotWithin => Ok(5000),
    }
}

const SUM: &str = "ram 1\nmemory 5\nvalues 3 4 5 6\nset 0 4\nset 1 1\njz 0 7\nsub 0 0 1\nload 3 0\n\
    add 2 2 3\njump 2\nset 0 4\nstore 0 2\nhalt\n";

#[test]
fn rams_end_as_by_hand(rt: HostRuntime) -> Result<(), Fail> {
    let cases = [
        (SUM, 26, 18),
        (SUM, 25, 5000),
        (
            "ram 1\nmemory 1\nvalues -3\nset 1 -4\nload 2 0\nlt 3 1 2\nstore 0 3\nhalt\n",
            5,
            1,
        ),
        (
            "ram 1\nmemory 1\nvalues\nset 1 1\nload 0 1\nhalt\n",
            9,
            1053,
        ),
        (
            "ram 1\nmemory 1\nvalues\nset 1 -1\nstore 1 0\nhalt\n",
            9,
            1053,
        ),
        ("ram 1\nmemory 1\nvalues\ndiv 0 0 1\nhalt\n", 9, 1042),
        ("ram 1\nmemory 0\nvalues\njump 0\n", 9, 5000),
    ];
    for (text, steps, want) in cases {
        assert_eq!(rt; ending(rt, text, steps)?, want, "{text}");
    }
    Ok(())
}
