//! How many words a new block takes.
ghost use Rattle.std.specs.Prelude.{◌≡◌, ◌<◌, ◌≤◌, length};
ghost use Rattle.ppm_code.specs.Sizes.{frame_size as frame_size_of, fork_size as fork_size_of};

use crate::code::Code;

/// The words of a frame of a procedure: six, and its slots.
pub fn frame_size(code: &Code, procedure: u32) -> u32
    requires { procedure < length code.now.procedures }
    ensures value { result ≡ frame_size_of code.now procedure }
    ensures bound { result ≤ 31 }
{
    let parts = code.parts();
    6 + parts.procedures.as_slice()[procedure as usize].slots
}

/// The words of a fork block: five, and the frames of both branches.
pub fn fork_size(code: &Code, left: u32, right: u32) -> u32
    requires left { left < length code.now.procedures }
    requires right { right < length code.now.procedures }
    ensures { result ≡ fork_size_of code.now left right }
{
    5 + frame_size(code, left) + frame_size(code, right)
}
