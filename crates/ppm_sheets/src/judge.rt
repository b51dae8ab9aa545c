//! How a sheet is judged: its blocks, each for all values of its sweeps, and the calls of a block.
use crate::call::{Call, Shown};
use crate::expander::expanded;
use crate::fault::{Fault, Unmade};
use crate::judged::Judged;
use crate::names::Names;
use crate::sweep::Sweep;
use std::alloc::Global;

/// A line of a sheet, with its number from 1.
#[derive(Clone, Copy)]
struct Line<'a> {
    number: usize,
    text: &'a str,
}

impl<'a> Line<'a> {
    /// Its mark, up to the first blank, and what stands after that blank.
    fn parts(self) -> (&'a str, &'a str) {
        match self.text.split_once(' ') {
            Some(parts) => parts,
            None => (self.text, ""),
        }
    }
}

/// A sheet that is judged.
#[derive(Drop)]
struct Judge<'a> {
    sheet: &'a str,
    names: Names,
    judged: Judged,
    /// The line that was looked at last.
    at: usize,
}

/// Makes all calls of a sheet, prints those that differ and then a line with the counts. Whether all
/// is as wanted; a line that the sheet can't have is printed with its reason, and nothing follows it.
pub(crate) fn judge_sheet<C: Fn(&Call) -> Result<Shown, Unmade>>(
    rt: &impl Print,
    alloc: Global,
    caller: &C,
    sheet: &str,
    text: &str,
) -> Result<bool, Fault>
    requires { C.IsAlwaysCallable caller.now }
{
    let mut judge = Judge {
        sheet,
        names: Names::new(alloc),
        judged: Judged {
            cases: 0,
            differing: 0,
        },
        at: 0,
    };
    if let Err(fault) = judge.judge(rt, alloc, caller, text) {
        let Fault::Line(why) = fault else {
            return Err(fault);
        };
        println!(rt; "{sheet} line {}: {why}", judge.at)?;
        return Ok(false);
    }
    let Judged { cases, differing } = judge.judged;
    if differing == 0 {
        println!(rt; "{sheet}: {cases} cases, all as wanted")?;
    } else {
        println!(rt; "{sheet}: {cases} cases, {differing} differ")?;
    }
    Ok(differing == 0)
}

impl<'a> Judge<'a> {
    /// Judges each block of a text.
    fn judge<C: Fn(&Call) -> Result<Shown, Unmade>>(
        &mut self,
        rt: &impl Print,
        alloc: Global,
        caller: &C,
        text: &str,
    ) -> Result<(), Fault>
        requires { C.IsAlwaysCallable caller.now }
    {
        let mut block = Vec::new(alloc);
        let mut number = 0usize;
        for text in text.lines() {
            number = number.saturating_add(1);
            if text.is_empty() {
                self.judge_block(rt, alloc, caller, &block)?;
                block.clear();
            } else if !text.starts_with('#') {
                block.push(Line { number, text })?;
            }
        }
        self.judge_block(rt, alloc, caller, &block)
    }

    /// Judges a block, for each of its values. The names that a block of calls gives are forgotten at
    /// its end; those of a block of texts stay.
    fn judge_block<C: Fn(&Call) -> Result<Shown, Unmade>>(
        &mut self,
        rt: &impl Print,
        alloc: Global,
        caller: &C,
        block: &[Line],
    ) -> Result<(), Fault>
        requires { C.IsAlwaysCallable caller.now }
    {
        let sweeps = self.sweeps(alloc, block)?;
        let known = self.names.count();
        for value in 0..count_of(&sweeps) {
            put_all(alloc, &mut self.names, &sweeps, value)?;
            self.make_calls(rt, alloc, caller, block)?;
            if !is_text(block) {
                self.names.keep_first(known);
            }
        }
        Ok(())
    }

    /// The sweeps of a block.
    fn sweeps<'b>(&mut self, alloc: Global, block: &[Line<'b>]) -> Result<Vec<Sweep<'b>>, Fault> {
        let mut sweeps: Vec<Sweep> = Vec::new(alloc);
        for line in block {
            self.at = line.number;
            let (mark, rest) = line.parts();
            if mark == "for" {
                sweeps.push(Sweep::of_words(alloc, rest)?)?;
            }
            if mark == "|" {
                let Some(sweep) = sweeps.last_mut() else {
                    return Err(Fault::Line("a row without a table"));
                };
                sweep.add_row(rest)?;
            }
        }
        Ok(sweeps)
    }

    /// Makes the calls of a block, or gives its texts their names.
    fn make_calls<C: Fn(&Call) -> Result<Shown, Unmade>>(
        &mut self,
        rt: &impl Print,
        alloc: Global,
        caller: &C,
        block: &[Line],
    ) -> Result<(), Fault>
        requires { C.IsAlwaysCallable caller.now }
    {
        let mut call = None;
        for line in block {
            self.at = line.number;
            self.take_line(rt, alloc, caller, *line, &mut call)?;
        }
        self.end_call(rt, alloc, caller, &mut call)
    }

    /// Takes a line of a call, or ends a call and begins the next one.
    fn take_line<C: Fn(&Call) -> Result<Shown, Unmade>>(
        &mut self,
        rt: &impl Print,
        alloc: Global,
        caller: &C,
        line: Line,
        call: &mut Option<Call>,
    ) -> Result<(), Fault>
        requires { C.IsAlwaysCallable caller.now }
    {
        let (mark, rest) = line.parts();
        if mark == "for" || mark == "|" {
            return Ok(());
        }
        if mark == "$" || mark == "text" {
            self.end_call(rt, alloc, caller, call)?;
            *call = Some(self.begun(alloc, line.number, mark, rest)?);
            return Ok(());
        }
        let Some(call) = call else {
            return Err(Fault::Line("a line before any call"));
        };
        let text = expanded(alloc, &self.names, rest)?;
        call.add_line(alloc, mark, &text)
    }

    /// A call that begins, or a text.
    fn begun(&self, alloc: Global, number: usize, mark: &str, rest: &str) -> Result<Call, Fault> {
        let mut begun = Call::new(alloc, number);
        if mark == "$" {
            let words = expanded(alloc, &self.names, rest)?;
            begun.add_words(alloc, &words)?;
        } else {
            begun.is_text = true;
            begun.kept = Some(String::from_str(alloc, rest)?);
        }
        Ok(begun)
    }

    /// Makes the call that was begun, if there is one.
    fn end_call<C: Fn(&Call) -> Result<Shown, Unmade>>(
        &mut self,
        rt: &impl Print,
        alloc: Global,
        caller: &C,
        call: &mut Option<Call>,
    ) -> Result<(), Fault>
        requires { C.IsAlwaysCallable caller.now }
    {
        match call.take() {
            Some(call) => self.make(rt, alloc, caller, call),
            None => Ok(()),
        }
    }

    /// Makes a call, or gives a text its name.
    fn make<C: Fn(&Call) -> Result<Shown, Unmade>>(
        &mut self,
        rt: &impl Print,
        alloc: Global,
        caller: &C,
        call: Call,
    ) -> Result<(), Fault>
        requires { C.IsAlwaysCallable caller.now }
    {
        let text = if call.is_text {
            call.input.as_slice().to_vec(alloc)?
        } else {
            let shown = caller(&call)?;
            self.judged.add(rt, self.sheet, &call, &shown)?;
            shown.out
        };
        match &call.kept {
            Some(name) => self.names.put(alloc, name, text),
            None => Ok(()),
        }
    }
}

/// How many values all sweeps have together.
fn count_of(sweeps: &[Sweep]) -> u64 {
    let mut count = 1u64;
    for sweep in sweeps {
        count = count.saturating_mul(sweep.count());
    }
    count
}

/// Gives the names of all sweeps their texts of one of the values, which count from 0.
fn put_all(alloc: Global, names: &mut Names, sweeps: &[Sweep], value: u64) -> Result<(), Fault> {
    let mut rest = value;
    for sweep in sweeps {
        let count = sweep.count();
        if count == 0 {
            return Ok(());
        }
        sweep.put(alloc, names, rest % count)?;
        rest /= count;
    }
    Ok(())
}

/// Whether a block gives texts names.
fn is_text(block: &[Line]) -> bool {
    match block.first() {
        Some(line) => line.parts().0 == "text",
        None => false,
    }
}
