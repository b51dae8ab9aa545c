//! The sheets that a command line names.
use crate::call::{Call, Shown};
use crate::fault::{Fault, Unmade};
use crate::judge::judge_sheet;
use std::alloc::Global;
use std::process::ExitCode;
use std::rt::{Env, Files};
use std::{env, fs, io};

/// How the names of sheets begin that are wrong on purpose.
const WRONG: &str = "wrong";

/// Judges the sheets that the command line names, from the folder in which the program runs. `caller`
/// makes each call of a sheet. The status is 0 where all cases are as wanted, but for those of sheets that are wrong on
/// purpose.
pub fn judge_sheets<
    R: Alloc<A = Global> + Env + Files + Print,
    C: Fn(&Call) -> Result<Shown, Unmade>,
>(rt: &R, caller: &C) -> ExitCode
    requires { C.IsAlwaysCallable caller.now }
{
    let alloc = rt.alloc();
    let mut all = true;
    match words_of(alloc, env::args(rt)) {
        Ok(sheets) => {
            for sheet in &sheets {
                let wanted = !sheet.as_str().starts_with(WRONG);
                let fine = judge_file(rt, alloc, caller, sheet);
                all = all && fine == wanted;
            }
        }
        Err(_) => all = false,
    }
    ExitCode::from(u8::from(!all))
}

/// Judges the sheet in a file. Whether all its cases are as wanted.
fn judge_file<R: Alloc<A = Global> + Files + Print, C: Fn(&Call) -> Result<Shown, Unmade>>(
    rt: &R,
    alloc: Global,
    caller: &C,
    sheet: &str,
) -> bool
    requires { C.IsAlwaysCallable caller.now }
{
    match read_and_judge(rt, alloc, caller, sheet) {
        Ok(fine) => fine,
        Err(_) => {
            // Where nothing can be printed the status tells it alone.
            let _ = println!(rt; "{sheet}: not judged");
            false
        }
    }
}

/// Judges the sheet in a file that can be read.
fn read_and_judge<R: Alloc<A = Global> + Files + Print, C: Fn(&Call) -> Result<Shown, Unmade>>(
    rt: &R,
    alloc: Global,
    caller: &C,
    sheet: &str,
) -> Result<bool, Fault>
    requires { C.IsAlwaysCallable caller.now }
{
    let text = fs::read_to_string(rt, sheet)?;
    judge_sheet(rt, alloc, caller, sheet, &text)
}

/// The words after the program's name.
fn words_of(alloc: Global, given: io::Result<env::Args>) -> Result<Vec<String>, Fault> {
    let mut words = Vec::new(alloc);
    for word in given?.skip(1) {
        words.push(word)?;
    }
    Ok(words)
}
