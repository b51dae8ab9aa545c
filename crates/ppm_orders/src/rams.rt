//! The RAM of a text that a command reads.
ghost use Rattle.std.specs.Prelude.{◌≡◌, IfOk, IfErr};
ghost use Rattle.ppm_ports.specs.Ports.{port};
ghost use Rattle.ppm_answers.specs.Reading.{TextMay};
ghost use Rattle.ppm_answers.specs.declared.answer.Answer.TheVariants.{SourceRefused};
ghost use Rattle.ppm_ram.specs.Text.{IsTextOf};
ghost use Rattle.ppm_orders.specs.Rams.{NoRamMay, ReadsRam, RefusedHas, ram_refusal};

use ppm_answers::{Answer, Pass, Refusal, answer_of_read};
use ppm_ports::{Source, read_whole};
use ppm_ram::{Ram, RamError, RamFault, TEXT_LIMIT, read_ram};
use std::alloc::Global;

/// The RAM of what is read, to its end or one byte past the limit of a text. `Err` is the answer
/// where there is none.
pub(crate) fn ram_of_source<S: Source>(alloc: Global, source: &mut S) -> Result<Ram, Answer>
    ensures ram { IfOk result (ReadsRam (port S.left S.fault_count source.old source.new)) }
    ensures none { IfErr result (NoRamMay (port S.left S.fault_count source.old source.new)) }
{
    match read_whole(alloc, source, TEXT_LIMIT) {
        Ok(text) => text_ram(alloc, &text),
        Err(error) => Err(answer_of_read(error)),
    }
}

/// The RAM of a text. `Err` is the answer where there is none.
fn text_ram(alloc: Global, text: &[u8]) -> Result<Ram, Answer>
    ensures ram { IfOk result (IsTextOf text.now) }
    ensures none { IfErr result (TextMay RefusedHas text.now) }
{
    match read_ram(alloc, text) {
        Ok(ram) => Ok(ram),
        Err(RamError::Refused(fault, line)) => Err(refused_answer(fault, line)),
        Err(RamError::NoMemory) => Err(Answer::NoMemory),
    }
}

/// What is answered of a text that is of no RAM: the number of its fault, and the line.
fn refused_answer(fault: RamFault, line: u32) -> Answer
    ensures { result ≡ SourceRefused (ram_refusal (fault, line)) }
{
    Answer::SourceRefused(Refusal {
        pass: Pass::Ram,
        number: fault.number(),
        place: line,
    })
}
