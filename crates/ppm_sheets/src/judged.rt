//! What was counted of a sheet, and what is printed of a case that differs.
use crate::call::{Call, Shown};
use crate::fault::Fault;

/// The most cases of a sheet that are printed one by one.
const MOST_PRINTED: u64 = 20;

/// The most bytes of a text that are printed.
const MOST_BYTES: usize = 300;

/// What was counted of a sheet.
#[derive(Clone, Copy, Drop)]
pub(crate) struct Judged {
    pub(crate) cases: u64,
    pub(crate) differing: u64,
}

impl Judged {
    /// Counts a case, and prints it where it differs.
    pub(crate) fn add(
        &mut self,
        rt: &impl Print,
        sheet: &str,
        call: &Call,
        shown: &Shown,
    ) -> Result<(), Fault> {
        self.cases = self.cases.saturating_add(1);
        if call.is_met(shown) {
            return Ok(());
        }
        self.differing = self.differing.saturating_add(1);
        if self.differing > MOST_PRINTED {
            return Ok(());
        }
        print_call(rt, sheet, call)?;
        print_differences(rt, call, shown)
    }
}

/// Prints where a call stands, and its words.
fn print_call(rt: &impl Print, sheet: &str, call: &Call) -> Result<(), Fault> {
    print!(rt; "{sheet} line {}: $", call.line)?;
    for word in &call.words {
        let word = front(word.as_bytes());
        print!(rt; " {word}")?;
    }
    println!(rt; "")?;
    Ok(())
}

/// Prints what was wanted of a call beside what it showed, wherever they differ.
fn print_differences(rt: &impl Print, call: &Call, shown: &Shown) -> Result<(), Fault> {
    if call.kept.is_none() {
        print_texts(rt, "out", &call.out, &shown.out)?;
    }
    print_texts(rt, "err", &call.err, &shown.err)?;
    if call.status != u64::from(shown.status) {
        println!(rt; "  status wanted {} got {}", call.status, shown.status)?;
    }
    if let Some(told) = call.told {
        if told != shown.told {
            println!(rt; "  told wanted {told} got {}", shown.told)?;
        }
    }
    Ok(())
}

/// Prints two texts, unless they are alike.
fn print_texts(rt: &impl Print, port: &str, wanted: &[u8], got: &[u8]) -> Result<(), Fault> {
    if wanted == got {
        return Ok(());
    }
    let wanted = front(wanted);
    let got = front(got);
    println!(rt; "  {port} wanted {wanted:?}")?;
    println!(rt; "  {port} got    {got:?}")?;
    Ok(())
}

/// The front of a text.
fn front(bytes: &[u8]) -> &str {
    let count = bytes.len().min(MOST_BYTES);
    match std::str::from_utf8(&bytes[..count]) {
        Ok(text) => text,
        Err(_) => "(no text)",
    }
}
