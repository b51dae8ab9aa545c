//! The case of a text that a command reads.
ghost use Rattle.std.specs.Prelude.{◌≡◌, IfOk, IfErr};
ghost use Rattle.ppm_ports.specs.Ports.{port};
ghost use Rattle.ppm_answers.specs.Reading.{TextMay};
ghost use Rattle.ppm_case.specs.Case.{IsCaseOf};
ghost use Rattle.ppm_loading.specs.Cases.{NoCaseMay, ReadsCase, RefusedHas, refusal_of};

use ppm_answers::{Answer, InputRefusal, ListingRefusal, answer_of_read};
use ppm_case::{CASE_LIMIT, Case, CaseError, CaseFault, read_case};
use ppm_ports::{Source, read_whole};
use std::alloc::Global;

/// The case of what is read, to its end or one byte past the limit of a case. `Err` is the answer
/// where there is none.
pub fn case_of_source<S: Source>(alloc: Global, source: &mut S) -> Result<Case, Answer>
    ensures case { IfOk result (λ case. ReadsCase (port S.left S.fault_count source.old source.new) case.code case.input) }
    ensures none { IfErr result (NoCaseMay (port S.left S.fault_count source.old source.new)) }
{
    match read_whole(alloc, source, CASE_LIMIT) {
        Ok(text) => text_case(alloc, &text),
        Err(error) => Err(answer_of_read(error)),
    }
}

/// The case of a text. `Err` is the answer where there is none.
pub fn text_case(alloc: Global, text: &[u8]) -> Result<Case, Answer>
    ensures case { IfOk result (λ case. IsCaseOf text.now case.code case.input) }
    ensures none { IfErr result (TextMay RefusedHas text.now) }
{
    match read_case(alloc, text) {
        Ok(case) => Ok(case),
        Err(CaseError::Refused(fault, line)) => Err(refused_answer(fault, line)),
        Err(CaseError::NoMemory) => Err(Answer::NoMemory),
    }
}

/// What is answered of a text that is of no case: the number of its fault, and the line.
fn refused_answer(fault: CaseFault, line: u32) -> Answer
    ensures { result ≡ refusal_of fault line }
{
    match fault {
        CaseFault::OfInput(fault) => Answer::InputRefused(InputRefusal {
            number: fault.number(),
            line,
        }),
        CaseFault::OfListing(fault) => Answer::ListingRefused(ListingRefusal {
            number: fault.number(),
            line,
        }),
    }
}
