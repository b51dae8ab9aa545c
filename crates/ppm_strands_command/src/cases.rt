//! The case of a text, whose strands may race.
ghost use Rattle.std.specs.Prelude.{◌≡◌, IfErr, IfOk, MatchOption};
ghost use Rattle.ppm_words.specs.Inputs.{IsInput};
ghost use Rattle.ppm_code.specs.Tidy.{IsTidy};
ghost use Rattle.ppm_racy.specs.Code.{plain_code as code_with_puts};
ghost use Rattle.ppm_answers.specs.Reading.{TextMay};
ghost use Rattle.ppm_loading.specs.Cases.{refusal_of};
ghost use Rattle.ppm_loading.specs.Telling.{IsUntidy};
ghost use Rattle.ppm_racy_case.specs.Case.{IsRacyCaseOf};
ghost use Rattle.ppm_strands_command.specs.Cases.{RefusedHas};

use ppm_answers::{Answer, InputRefusal, ListingRefusal, UntidyStore};
use ppm_case::{CaseError, CaseFault};
use ppm_loading::store_told;
use ppm_racy::{RacyCode, plain_code};
use ppm_racy_case::{RacyCase, read_racy_case};
use ppm_war::untidy;
use ppm_words::{NamedArray, NoMemory};
use std::alloc::Global;

/// The case of a text. `Err` is the answer where there is none.
pub(crate) fn text_case(alloc: Global, text: &[u8]) -> Result<RacyCase, Answer>
    ensures case { IfOk result (λ case. IsRacyCaseOf text.now case.code case.input) }
    ensures none { IfErr result (TextMay RefusedHas text.now) }
{
    match read_racy_case(alloc, text) {
        Ok(case) => Ok(case),
        Err(CaseError::Refused(fault, line)) => Err(refused_answer(fault, line)),
        Err(CaseError::NoMemory) => Err(Answer::NoMemory),
    }
}

/// What is answered of a text that is of no case: the number of its fault, and the line.
fn refused_answer(fault: CaseFault, line: u32) -> Answer
    ensures { result ≡ refusal_of fault line }
{
    match fault {
        CaseFault::OfInput(fault) => Answer::InputRefused(InputRefusal {
            number: fault.number(),
            line,
        }),
        CaseFault::OfListing(fault) => Answer::ListingRefused(ListingRefusal {
            number: fault.number(),
            line,
        }),
    }
}

/// The first store of a case that is not tidy; none exactly where its code, with a put in place of
/// each exchange, is tidy.
pub(crate) fn first_untidy(
    alloc: Global,
    code: &RacyCode,
    input: &[NamedArray],
) -> Result<Option<UntidyStore>, NoMemory>
    requires { IsInput input.now }
    ensures { IfOk result (λ found. MatchOption found (IsTidy (code_with_puts code.now))
        (IsUntidy (code_with_puts code.now) input.now)) }
{
    let plain = plain_code(alloc, code)?;
    match untidy(&plain) {
        Some(store) => Ok(Some(store_told(&plain, input.len(), store))),
        None => Ok(None),
    }
}
