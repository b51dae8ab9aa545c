//! A code with exchanges, with its input.
ghost use Rattle.ppm_depth.specs.Start.{NamesArrays};
ghost use Rattle.ppm_racy.specs.Code.{plain_code};

use ppm_racy::RacyCode;
use ppm_words::Input;

/// A code whose strands may race, and the arrays that it starts from, of which its root names.
#[derive(Debug, Drop)]
pub struct RacyCase {
    pub code: RacyCode,
    pub input: Input,
    pub ghost named: { NamesArrays (plain_code code) input },
}
