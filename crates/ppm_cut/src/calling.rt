//! The capsules of calls and forks.
ghost use Rattle.std.specs.Prelude.{◌≡◌, ◌≤◌, ◌*◌, length, map, IfOk};
ghost use Rattle.ppm_tree.specs.Tree.{side_of, procedure_of};
ghost use Rattle.ppm_cut_code.specs.Slots.{frame_words, fork_words};
ghost use Rattle.ppm_cut_code.specs.Statements.{call_code, fork_code};
ghost use Rattle.ppm_cut.specs.Counts.{count_limit, IsShortSide};

use crate::arguments::{push_arguments, push_stores};
use crate::instrs::{push, push_room};
use crate::layout::Layout;
use crate::maker::Maker;
use crate::size::{arguments_size, paired};
use ppm_code::{End, Instr};
use ppm_tree::Side;
use ppm_words::NoMemory;

/// The words of a frame with so many slots.
pub fn frame_words(slots: u32) -> u32
    requires { slots ≤ 16 * count_limit }
    ensures { result ≡ frame_words slots }
{
    slots + 6
}

/// The words of a fork block with two frames.
pub fn fork_words(left: u32, right: u32) -> u32
    requires left { left ≤ 16 * count_limit }
    requires right { right ≤ 16 * count_limit }
    ensures { result ≡ fork_words left right }
{
    frame_words(left) + frame_words(right) + 5
}

/// The capsule of a call.
pub fn call_capsule(
    maker: &Maker<'_>,
    layout: &Layout<'_>,
    side: &Side,
    next: u32,
) -> Result<Vec<Instr>, NoMemory>
    requires names { length layout.now ≤ count_limit }
    requires short { IsShortSide (side_of side.now) }
    ensures { IfOk result (λ body. body.items
        ≡ call_code (map procedure_of maker.now.callees.now) layout.now (side_of side.now) next) }
{
    let callee = maker.callees.find(side.callee.name.as_bytes());
    let arguments = side.arguments.as_slice();
    let mut body = Vec::new(maker.alloc);
    push_room(&mut body, frame_words(callee.slots))?;
    push_arguments(&mut body, layout, callee.parameters, arguments, 0, 1)?;
    push_stores(&mut body, 6, 0, paired(callee.parameters, arguments))?;
    push(
        &mut body,
        Instr::Ends(End::Call {
            procedure: callee.number,
            capsule: next,
            to: layout.target(&side.target),
        }),
    )?;
    Ok(body)
}

/// The capsule of a fork.
pub fn fork_capsule(
    maker: &Maker<'_>,
    layout: &Layout<'_>,
    left: &Side,
    right: &Side,
    next: u32,
) -> Result<Vec<Instr>, NoMemory>
    requires names { length layout.now ≤ count_limit }
    requires short_left { IsShortSide (side_of left.now) }
    requires short_right { IsShortSide (side_of right.now) }
    ensures { IfOk result (λ body. body.items ≡ fork_code (map procedure_of maker.now.callees.now) layout.now
        (side_of left.now) (side_of right.now) next) }
{
    let first = maker.callees.find(left.callee.name.as_bytes());
    let second = maker.callees.find(right.callee.name.as_bytes());
    let first_arguments = left.arguments.as_slice();
    let second_arguments = right.arguments.as_slice();
    let lefts = paired(first.parameters, first_arguments);
    let rights = paired(second.parameters, second_arguments);
    let behind = arguments_size(first.parameters, first_arguments) + 1;
    let right_at = frame_words(first.slots) + 11;
    let mut body = Vec::new(maker.alloc);
    push_room(&mut body, fork_words(first.slots, second.slots))?;
    push_arguments(&mut body, layout, first.parameters, first_arguments, 0, 1)?;
    push_arguments(
        &mut body,
        layout,
        second.parameters,
        second_arguments,
        lefts,
        behind,
    )?;
    push_stores(&mut body, 11, 0, lefts)?;
    push_stores(&mut body, right_at, lefts, rights)?;
    push(
        &mut body,
        Instr::Ends(End::Fork {
            left: first.number,
            right: second.number,
            capsule: next,
            left_to: layout.target(&left.target),
            right_to: layout.target(&right.target),
        }),
    )?;
    Ok(body)
}
