//! Values of two's complement from outside, and each call once.
use ppm_words::{Input, Items, Name, NamedArray, NoMemory, of_word, to_word};
use std::alloc::Global;
use std::test::Fail;

fn name(alloc: Global) -> Result<Name, Fail> {
    Ok(Name::from_bytes(vec![in alloc; b'a', b'_', b'9']?))
}

#[test]
fn words_are_twos_complement(rt: HostRuntime) -> Result<(), Fail> {
    let cases = [
        (0, 0),
        (5, 5),
        (-1, 18446744073709551615),
        (-2, 18446744073709551614),
        (i64::MAX, 9223372036854775807),
        (i64::MIN, 9223372036854775808),
    ];
    for (value, word) in cases {
        assert_eq!(rt; to_word(value), word, "the word of {value}");
        assert_eq!(rt; of_word(word), value, "the number of {word}");
    }
    Ok(())
}

#[test]
fn a_name_keeps_its_bytes(rt: HostRuntime) -> Result<(), Fail> {
    let alloc = rt.alloc();
    let first = name(alloc)?;
    let copy = first.try_clone(alloc).map_err(|_| "memory")?;
    let other = Name::from_bytes(vec![in alloc; b'b']?);
    assert_eq!(rt; copy.as_bytes(), b"a_9".as_slice());
    assert!(rt; first.is(&copy));
    assert!(rt; !first.is(&other));
    Ok(())
}

#[test]
fn an_input_keeps_its_arrays(rt: HostRuntime) -> Result<(), Fail> {
    let alloc = rt.alloc();
    let values = Items::from_vec(vec![in alloc; 5i64, -7i64]?);
    let array = NamedArray {
        name: name(alloc)?,
        values,
    };
    let input = Input::from_vec(vec![in alloc; array]?);
    assert_eq!(rt; input.arrays().len(), 1);
    assert_eq!(rt; input.arrays()[0].name.as_bytes(), b"a_9".as_slice());
    assert_eq!(rt; input.arrays()[0].values.as_slice(), [5, -7].as_slice());
    let emptied = Items::from_vec(vec![in alloc; 5i64]?).into_vec();
    assert_eq!(rt; emptied.as_slice(), [5].as_slice());
    Ok(())
}

#[test]
fn want_of_memory_has_a_text(rt: HostRuntime) -> Result<(), Fail> {
    let text = NoMemory.to_string(rt.alloc())?;
    assert_eq!(rt; text.as_str(), "out of memory");
    Ok(())
}
