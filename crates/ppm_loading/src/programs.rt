//! The program of the text that a command reads.
ghost use Rattle.std.specs.Prelude.{IfOk, IfErr};
ghost use Rattle.ppm_ports.specs.Ports.{port};
ghost use Rattle.ppm_tree.specs.Tree.{tree_of};
ghost use Rattle.ppm_cut_bounds.specs.Bounds.{IsWithinBounds};
ghost use Rattle.ppm_program.specs.Programs.{HasProgram};
ghost use Rattle.ppm_answers.specs.Reading.{TextMay};
ghost use Rattle.ppm_loading.specs.Programs.{NoProgramMay, ReadsProgram, RefusedHas};

use ppm_answers::{Answer, answer_of_read};
use ppm_ports::{Source, read_whole};
use ppm_program::{JudgeError, program_of};
use ppm_regions::Admitted;
use ppm_text::TEXT_LIMIT;
use std::alloc::Global;

/// The program of what is read, to its end or one byte past the limit of a text. `Err` is the
/// answer where there is none.
pub fn read_program<S: Source>(alloc: Global, source: &mut S) -> Result<Admitted, Answer>
    ensures bounded { IfOk result (λ program. IsWithinBounds (tree_of program)) }
    ensures program { IfOk result (λ program. ReadsProgram (port S.left S.fault_count source.old source.new) (tree_of program)) }
    ensures none { IfErr result (NoProgramMay (port S.left S.fault_count source.old source.new)) }
{
    match read_whole(alloc, source, TEXT_LIMIT) {
        Ok(text) => text_program(alloc, &text),
        Err(error) => Err(answer_of_read(error)),
    }
}

/// The program of a text. `Err` is the answer where there is none.
pub fn text_program(alloc: Global, text: &[u8]) -> Result<Admitted, Answer>
    ensures program { IfOk result (λ program. HasProgram text.now (tree_of program)) }
    ensures none { IfErr result (TextMay RefusedHas text.now) }
{
    match program_of(alloc, text) {
        Ok(program) => Ok(program),
        Err(JudgeError::Refused(refusal)) => Err(Answer::SourceRefused(refusal)),
        Err(JudgeError::NoMemory) => Err(Answer::NoMemory),
    }
}
