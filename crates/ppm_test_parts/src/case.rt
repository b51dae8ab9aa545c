//! Texts of cases and texts of none, from outside.
use ppm_case::{
    CaseError, CaseFault, faults_tell_cases, read_case, write_case, written_cases_are_read,
};
use std::test::Fail;

const LISTING: &str = "ppm 1\nroot 0 0\nproc 0 slots 1 entry 0\ncapsule 0 proc 0\nend\n";

/// A refusal as one number, by the number and the line of its fault.
fn told(base: u32, line: u32, number: u32) -> u32 {
    base.saturating_add(line.saturating_mul(10))
        .saturating_add(number)
}

/// A number for each refusal: 10 times the line for faults of the arrays, with the fault's number;
/// 1000 more for those of listings; 0 where there is a case.
fn refusal(rt: HostRuntime, arrays: &str, listing: &str) -> Result<u32, Fail> {
    let alloc = rt.alloc();
    let mut text = Vec::new(alloc);
    text.extend_from_slice(arrays.as_bytes())?;
    text.extend_from_slice(listing.as_bytes())?;
    match read_case(alloc, &text) {
        Ok(_) => Ok(0),
        Err(CaseError::Refused(CaseFault::OfInput(fault), line)) => Ok(told(
            0,
            line,
            fault.number(),
        )),
        Err(CaseError::Refused(CaseFault::OfListing(fault), line)) => {
            Ok(told(1000, line, fault.number()))
        }
        Err(CaseError::NoMemory) => Ok(9999),
    }
}

#[test]
fn lines_of_another_form_are_refused(rt: HostRuntime) -> Result<(), Fail> {
    let cases = [
        "array a 2 1*01\n",
        "array a 2 1*\n",
        "array a 2 *2\n",
        "array a 2 1*1*1\n",
        "array a 2 1*-1\n",
        "array a 2 -0\n",
        "array a 2 -\n",
        "array a 2 --1\n",
        "array a 2 01\n",
        "array a 2 +1\n",
        "array a 02\n",
        "array a -1\n",
        "array a\n",
        "array\n",
        "array \n",
        "array a 2 \n",
        "array a  2\n",
        "array a 2 1  2\n",
        "array a 2\r\n",
        "array 1a 2\n",
        "array let 2\n",
        "array array 2\n",
        "array a12345678901234567890123456789012 2\n",
        "array a 99999999999999999999999999 1 2 x\n",
    ];
    for text in cases {
        assert_eq!(rt; refusal(rt, text, LISTING)?, 11, "{text}");
    }
    Ok(())
}

#[test]
fn numbers_keep_their_ranges(rt: HostRuntime) -> Result<(), Fail> {
    let cases = [
        ("array a 1\n", 0),
        ("array a 4194304\n", 0),
        ("array a 4194305\n", 12),
        ("array a 99999999999999999999999999\n", 12),
        ("array a 2 1 2\n", 0),
        ("array a 2 1 2 3\n", 12),
        ("array a 2 1*2 3\n", 12),
        ("array a 2 1*3\n", 12),
        ("array a 2 1*0\n", 12),
        ("array a 1 1*99999999999999999999999999\n", 12),
        ("array a 1 9223372036854775807\n", 0),
        ("array a 1 9223372036854775808\n", 12),
        ("array a 1 -9223372036854775808\n", 0),
        ("array a 1 -9223372036854775809\n", 12),
        ("array a 1 99999999999999999999999999\n", 12),
        ("array a 1 -99999999999999999999999999\n", 12),
    ];
    for (text, want) in cases {
        assert_eq!(rt; refusal(rt, text, LISTING)?, want, "{text}");
    }
    Ok(())
}

#[test]
fn the_least_line_and_number_is_told(rt: HostRuntime) -> Result<(), Fail> {
    let cases = [
        ("", 25),
        ("array _ 0\n", 0),
        ("array a1234567890123456789012345678901 2\n", 0),
        ("array a 4194304\narray b 1\n", 24),
        ("array a 4194304\narray b 0\n", 0),
        ("array a 1\narray b 2\narray a 3\n", 33),
        ("array a 1\narray a 4194304\n", 23),
        ("array a 1\narray a 4194305\n", 22),
        ("arrays a 1\n", 1011),
        ("array\t\n", 1011),
        ("\narray a 1\n", 1011),
        ("array a 1\nppm 2\n", 1021),
    ];
    for (text, want) in cases {
        assert_eq!(rt; refusal(rt, text, LISTING)?, want, "{text}");
    }
    faults_tell_cases();
    written_cases_are_read();
    Ok(())
}

#[test]
fn texts_that_end_early_are_refused(rt: HostRuntime) -> Result<(), Fail> {
    let cases = [
        ("", 1016),
        ("array", 11),
        ("array ", 11),
        ("array a 1", 11),
        ("array a 1\narray b 2", 21),
        ("array a 1\n", 1026),
        ("array a 1\narra", 1021),
        (
            "array a 1\nppm 1\nroot 0 1\nproc 0 slots 1 entry 0\ncapsule 0 proc 0\nend\n",
            35,
        ),
        (
            "ppm 1\nroot 0\nproc 0 slots 1 entry 0\ncapsule 0 proc 0\nend\n",
            0,
        ),
        (
            "array a 1\nppm 1\nroot 0 1\nproc 0 slots 1 entry 0\ncapsule 0 proc 0\nends\n",
            1061,
        ),
    ];
    for (text, want) in cases {
        assert_eq!(rt; refusal(rt, text, "")?, want, "{text}");
    }
    Ok(())
}

/// What is written of a case that was read.
fn again(rt: HostRuntime, arrays: &str) -> Result<Vec<u8>, Fail> {
    let alloc = rt.alloc();
    let mut text = Vec::new(alloc);
    text.extend_from_slice(arrays.as_bytes())?;
    text.extend_from_slice(LISTING.as_bytes())?;
    match read_case(alloc, &text) {
        Ok(case) => {
            let mut front = write_case(alloc, &case.code, case.input.arrays())?;
            front.truncate(front.len().saturating_sub(LISTING.len()));
            Ok(front)
        }
        Err(_) => Ok(Vec::new(alloc)),
    }
}

#[test]
fn values_are_written_in_their_longest_rows(rt: HostRuntime) -> Result<(), Fail> {
    let cases = [
        ("array a 0\n", "array a 0\n"),
        ("array a 3 0 0*2\n", "array a 3\n"),
        ("array a 3 0 0 7\n", "array a 3 0*2 7\n"),
        ("array a 3 7 7 7\n", "array a 3 7*3\n"),
        (
            "array a 9 1 -1*2 0 -9223372036854775808*1 5*4\n",
            "array a 9 1 -1*2 0 -9223372036854775808 5*4\n",
        ),
        (
            "array a 4 5 5\narray b 1 0\narray c 2 0 1\n",
            "array a 4 5*2\narray b 1\narray c 2 0 1\n",
        ),
    ];
    for (text, want) in cases {
        assert_eq!(rt; again(rt, text)?.as_slice(), want.as_bytes(), "{text}");
    }
    Ok(())
}

/// Lines of so many arrays, named by two letters.
fn many(rt: HostRuntime, count: u32) -> Result<Vec<u8>, Fail> {
    let alloc = rt.alloc();
    let mut text = Vec::new(alloc);
    for i in 0..count {
        text.extend_from_slice("array x".as_bytes())?;
        let digits = i.to_string(alloc)?;
        text.extend_from_slice(digits.as_bytes())?;
        text.extend_from_slice(" 1\n".as_bytes())?;
    }
    text.extend_from_slice(LISTING.as_bytes())?;
    Ok(text)
}

#[test]
fn no_more_than_64_arrays_are_read(rt: HostRuntime) -> Result<(), Fail> {
    let alloc = rt.alloc();
    assert!(rt; read_case(alloc, &many(rt, 64)?).is_ok());
    let error = read_case(alloc, &many(rt, 65)?).err();
    assert!(rt; matches!(error, Some(CaseError::Refused(CaseFault::OfInput(_), 65))));
    Ok(())
}
