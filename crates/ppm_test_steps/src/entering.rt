//! A capsule of a frame, where it begins.
ghost use Rattle.std.specs.Prelude.{◌<◌};

use crate::small::small_code;
use ppm_cells::{Restart, RestartKind, Shape};
use ppm_code::Code;
use ppm_step::{Seat, entered, header_of};
use std::process::Abort;
use std::test::Fail;

/// The header with which the frame at 14 goes on, and whether the capsule with a number is entered
/// from there.
fn enter(shape: &Shape, code: &Code, number: u64, registers: &mut [u64; 64]) -> Option<(u32, bool)>
    requires { 0 < shape.now.processors }
{
    let seat = Seat {
        own: 0,
        place: 0,
        restart: Restart {
            kind: RestartKind::Run { frame: 14, copy: 1 },
            bottom: 1,
        },
    };
    let header = header_of(shape, seat)?;
    let running = entered(shape, code, seat, number, registers);
    Some((header, running.is_some()))
}

#[test]
fn capsules_begin_with_registers_of_zero(rt: HostRuntime) -> Result<(), Fail> {
    let code = small_code(rt.alloc())?;
    let shape = Shape::new(2, 64, 4, 2).ok_or("within the limits")?;
    let mut registers = [7; 64];
    let none = enter(&shape, &code, 6, &mut registers);
    assert_eq!(rt; none, Some((17, false)), "no such capsule");
    let first = enter(&shape, &code, 0, &mut registers);
    assert_eq!(rt; first, Some((17, true)));
    assert_eq!(rt; registers, [0; 64]);
    Ok(())
}
