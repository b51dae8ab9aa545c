//! The code and the input of a RAM, and the laws.
use ppm_ram::{Ram, read_ram};
use ppm_ram_code::{ends_as_the_ram, is_sound, keeps_the_rules, ram_code, ram_input};
use std::test::Fail;

#[test]
fn laws_hold_of_every_ram(rt: HostRuntime) -> Result<(), Fail> {
    keeps_the_rules();
    is_sound();
    ends_as_the_ram();
    assert_eq!(rt; 1, 1);
    Ok(())
}

const SUM: &str = "ram 1\nmemory 5\nvalues 3 4 5 6\nset 0 4\nset 1 1\njz 0 7\nsub 0 0 1\nload 3 0\n\
    add 2 2 3\njump 2\nset 0 4\nstore 0 2\nhalt\n";

/// How many instructions each capsule of a RAM's code has.
fn sizes(rt: HostRuntime, ram: &Ram) -> Result<Vec<usize>, Fail> {
    let code = ram_code(rt.alloc(), ram)?;
    let mut sizes = Vec::new(rt.alloc());
    for capsule in code.parts().capsules.as_slice() {
        sizes.push(capsule.instrs.as_slice().len())?;
    }
    Ok(sizes)
}

/// The bytes of the name and the values of each array of a RAM's input.
fn input_values(rt: HostRuntime, ram: &Ram) -> Result<Vec<i64>, Fail> {
    let input = ram_input(rt.alloc(), ram)?;
    let mut values = Vec::new(rt.alloc());
    for array in input.arrays() {
        for byte in array.name.as_bytes() {
            values.push(i64::from(*byte))?;
        }
        for value in array.values.as_slice() {
            values.push(*value)?;
        }
    }
    Ok(values)
}

#[test]
fn a_ram_becomes_capsules(rt: HostRuntime) -> Result<(), Fail> {
    let ram = match read_ram(rt.alloc(), SUM.as_bytes()) {
        Ok(ram) => ram,
        Err(_) => {
            assert_eq!(rt; 0, 1, "the text is of a RAM");
            return Ok(());
        }
    };
    // Two capsules each of `set`, `set`, `jz`, `sub`, `load`, `add`, `jump`, `set`, `store`, `halt`.
    assert_eq!(rt;
        sizes(rt, &ram)?.as_slice(),
        [
            18, 18, 18, 18, 4, 4, 18, 18, 19, 19, 18, 18, 1, 1, 18, 18, 5, 5, 1, 1
        ]
        .as_slice()
    );
    assert_eq!(rt;
        input_values(rt, &ram)?.as_slice(),
        [109, 3, 4, 5, 6, 0].as_slice()
    );
    Ok(())
}
