//! A code with its input.
ghost use Rattle.ppm_depth.specs.Start.{NamesArrays};

use ppm_code::Code;
use ppm_words::Input;

/// A code, and the arrays that it starts from, of which its root names.
#[derive(Debug, Drop)]
pub struct Case {
    pub code: Code,
    pub input: Input,
    pub ghost named: { NamesArrays code input },
}
