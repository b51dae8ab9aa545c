//! What answers tell of a case: where an instruction stands in its text, counts, stores.
ghost use Rattle.std.specs.Prelude.{◌≡◌, ◌≤◌, ◌^◌, length};
ghost use Rattle.ppm_words.specs.Limits.{array_limit};
ghost use Rattle.ppm_loading.specs.Telling.{capsule_lines, counts_told as told_counts};
ghost use Rattle.ppm_loading.specs.Telling.{line_at as line_in, store_told as told_store};

use ppm_answers::Counts;
use ppm_code::{Capsule, Code};
use ppm_depth::DepthRun;
use ppm_war::UntidyStore;
use ppm_words::Input;

/// How many arrays an input has.
pub fn array_count(input: &Input) -> usize
    ensures value { result ≡ length input.now }
    ensures few { result ≤ array_limit }
{
    input.arrays().len()
}

/// How many lines capsules have in a listing.
fn lines_of(capsules: &[Capsule]) -> u64
    requires few { capsule_lines capsules.now ≤ 2 ^ 32 }
    ensures value { result ≡ capsule_lines capsules.now }
{
    let mut lines = 0;
    for capsule in capsules {
        lines += 1 + capsule.instrs.as_slice().len() as u64;
    }
    lines
}

/// The line of a case in which an instruction of a capsule stands, where so many arrays stand in
/// front of the listing. Lines count from 1.
pub fn line_at(code: &Code, arrays: usize, capsule: u32, at: u32) -> u64
    requires { arrays ≤ array_limit }
    ensures { result ≡ line_in arrays code.now capsule at }
{
    let parts = code.parts();
    let capsules = parts.capsules.as_slice();
    let earlier = &capsules[..(capsule as usize).min(capsules.len())];
    let head = arrays as u64 + 2 + parts.procedures.as_slice().len() as u64;
    head + lines_of(earlier) + 1 + at as u64 + 1
}

/// The counts of a run, as an answer tells them.
pub fn counts_told(run: &DepthRun) -> Counts
    ensures { result ≡ told_counts run.now }
{
    Counts {
        capsules: run.capsules,
        forks: run.forks,
        pool_words: run.pool_words,
    }
}

/// A store that is not tidy, as an answer tells it, of a case with so many arrays.
pub fn store_told(code: &Code, arrays: usize, store: UntidyStore) -> ppm_answers::UntidyStore
    requires { arrays ≤ array_limit }
    ensures { result ≡ told_store arrays code.now store }
{
    ppm_answers::UntidyStore {
        capsule: store.capsule,
        store: store.at,
        line: line_at(code, arrays, store.capsule, store.at),
    }
}
