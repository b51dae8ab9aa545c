//! Texts written by hand, and the words of fresh processors from a table.
use crate::renewal::renew_words;
use crate::writing::{head, push_code, push_words};
use crate::{NamedLength, runs_are_the_longest, saved_texts_tell_states};
use ppm_cells::Shape;
use ppm_words::Name;
use std::alloc::Global;
use std::test::Fail;

#[test]
fn sizes_arrays_and_code_stand_in_front(rt: HostRuntime) -> Result<(), Fail> {
    let alloc = rt.alloc();
    let shape = Shape::new(1, 64, 2, 5).ok_or("within the limits")?;
    let first = NamedLength {
        name: Name::from_bytes(vec![in alloc; b'a']?),
        len: 2,
    };
    let second = NamedLength {
        name: Name::from_bytes(vec![in alloc; b'b']?),
        len: 3,
    };
    let arrays = vec![in alloc; first, second]?;
    let mut text = head(alloc, shape, &arrays)?;
    push_code(&mut text, "ppm 1\n".as_bytes())?;
    assert_eq!(rt;
        text.as_slice(),
        "saved 1\nshape 1 64 2\narray a 2\narray b 3\ncode 6\nppm 1\n".as_bytes()
    );
    Ok(())
}

/// The text of words.
fn written(alloc: Global, words: &[u64]) -> Result<Vec<u8>, Fail> {
    let mut text = Vec::new(alloc);
    push_words(&mut text, words)?;
    Ok(text)
}

#[test]
fn equal_words_are_written_once(rt: HostRuntime) -> Result<(), Fail> {
    let alloc = rt.alloc();
    let none = written(alloc, &[])?;
    assert_eq!(rt; none.as_slice(), "words 0\n".as_bytes());
    let runs = written(alloc, &[7, 7, 7, 0, 0, 18446744073709551615])?;
    assert_eq!(rt;
        runs.as_slice(),
        "words 6\n7*3\n0*2\n18446744073709551615\n".as_bytes()
    );
    let apart = written(alloc, &[1, 2, 1])?;
    assert_eq!(rt; apart.as_slice(), "words 3\n1\n2\n1\n".as_bytes());
    Ok(())
}

/// The saved words of two processors: processor 1 had no turns left and carried both places,
/// processor 0 was dead, and the holder of place 1 had the last tag.
fn saved_word(at: usize) -> u64 {
    match at {
        0 => 67,
        1 => 1,
        2 => 1,
        3 => 1,
        5 => 12345,
        7 => 129,
        76 => 54321,
        78 => 18446744073709551553,
        _ => 0,
    }
}

/// The words of fresh processors there.
fn fresh_word(at: usize) -> u64 {
    match at {
        2 => 1,
        5 => 12345,
        7 => 192,
        76 => 54321,
        78 => 1,
        _ => 0,
    }
}

/// Renews words, if there are as many as the shape has.
fn renewed(shape: Shape, words: Vec<u64>) -> Result<Vec<u64>, Fail> {
    let mut words = words;
    if words.len() != shape.word_count() as usize {
        return Err(Fail::from("as many words as the shape has"));
    }
    renew_words(&mut words, &shape);
    Ok(words)
}

#[test]
fn fresh_processors_find_their_places(rt: HostRuntime) -> Result<(), Fail> {
    let alloc = rt.alloc();
    let shape = Shape::new(2, 64, 2, 0).ok_or("within the limits")?;
    let mut saved = Vec::new(alloc);
    let mut fresh = Vec::new(alloc);
    for at in 0..147usize {
        saved.push(saved_word(at))?;
        fresh.push(fresh_word(at))?;
    }
    let found = renewed(shape, saved)?;
    assert_eq!(rt; found.as_slice(), fresh.as_slice());
    Ok(())
}

#[test]
fn laws_are_called() {
    runs_are_the_longest();
    saved_texts_tell_states();
}
