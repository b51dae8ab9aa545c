//! Images word by word, from tables made by hand.
ghost use Rattle.std.specs.Prelude.{◌≡◌, ◌<◌, IfOk, [], ◌∷◌, length};
ghost use Rattle.ppm_words.specs.Inputs.{value_count};
ghost use Rattle.ppm_code.specs.declared.act.End.TheVariants.{Finish};
ghost use Rattle.ppm_code.specs.declared.instr.Instr.TheVariants.{Ends};

use ppm_cells::Shape;
use ppm_code::{Capsule, Code, CodeParts, End, Instr, Procedure};
use ppm_layout::{
    Image, fork_size, frame_size, image, images_are_one, images_begin_with_the_root,
    words_stand_for_values,
};
use ppm_words::{Input, Items, Name, NamedArray};
use std::alloc::Global;
use std::test::Fail;

/// The words of entries: one that place 0 has taken, and a local one.
const TAKEN: u64 = 13835058055282163712;

const LOCAL: u64 = 4611686018427387904;

/// A capsule that ends.
fn ending(alloc: Global, procedure: u32) -> Result<Capsule, Fail>
    ensures { IfOk result (λ c. c ≡ record { procedure = procedure; instrs = Ends Finish ∷ [] }) }
{
    Ok(Capsule {
        procedure,
        instrs: Items::from_vec(vec![in alloc; Instr::Ends(End::Finish)]?),
    })
}

/// Two procedures of one capsule each; the root is the second one, and takes the second array and
/// then the first.
fn small_code(alloc: Global) -> Result<Code, Fail>
    ensures arrays { IfOk result (λ code. code.arrays ≡ 1 ∷ 0 ∷ []) }
    ensures procedures { IfOk result (λ code. length code.procedures ≡ 2) }
{
    let procedures = vec![in alloc;
        Procedure { slots: 1, entry: 0 },
        Procedure { slots: 5, entry: 1 },
    ]?;
    let capsules = vec![in alloc; ending(alloc, 0)?, ending(alloc, 1)?]?;
    Ok(Code::from_parts(CodeParts {
        root: 1,
        arrays: Items::from_vec(vec![in alloc; 1, 0]?),
        procedures: Items::from_vec(procedures),
        capsules: Items::from_vec(capsules),
    }))
}

/// Arrays with the values 7, -1 and 3, 4, 5.
fn small_input(alloc: Global) -> Result<Input, Fail>
    ensures two { IfOk result (λ input. length input ≡ 2) }
    ensures five { IfOk result (λ input. value_count input ≡ 5) }
{
    let first = NamedArray {
        name: Name::from_bytes(vec![in alloc; b'a']?),
        values: Items::from_vec(vec![in alloc; 7i64, -1i64]?),
    };
    let second = NamedArray {
        name: Name::from_bytes(vec![in alloc; b'b']?),
        values: Items::from_vec(vec![in alloc; 3i64, 4i64, 5i64]?),
    };
    Ok(Input::from_vec(vec![in alloc; first, second]?))
}

/// The image of this code and input with so many processors and slots, and 64 words of room.
fn small_image(alloc: Global, processors: u32, slots: u32, keeper: u32) -> Result<Image, Fail>
    requires { keeper < processors }
{
    let code = small_code(alloc)?;
    let input = small_input(alloc)?;
    let shape = Shape::new(processors, 64, slots, 5).ok_or("within the limits")?;
    Ok(image(alloc, &code, &input, shape, keeper).map_err(|_| "memory")?)
}

/// Words of the given number, all 0 but those that are named, in the order of their addresses.
fn words_with(alloc: Global, count: usize, named: &[(usize, u64)]) -> Result<Vec<u64>, Fail> {
    let mut words = Vec::new(alloc);
    let mut left = named;
    for at in 0..count {
        match left {
            [(next, word), rest @ ..] if *next == at => {
                words.push(*word)?;
                left = rest;
            }
            _ => words.push(0)?,
        }
    }
    Ok(words)
}

#[test]
fn blocks_have_their_sizes(rt: HostRuntime) -> Result<(), Fail> {
    let code = small_code(rt.alloc())?;
    assert_eq!(rt; frame_size(&code, 0), 7);
    assert_eq!(rt; frame_size(&code, 1), 11);
    assert_eq!(rt; fork_size(&code, 1, 1), 27);
    assert_eq!(rt; fork_size(&code, 0, 1), 23);
    Ok(())
}

#[test]
fn one_processor_runs_the_root(rt: HostRuntime) -> Result<(), Fail> {
    let alloc = rt.alloc();
    let made = small_image(alloc, 1, 2, 0)?;
    let words = [
        (3, 576460756598390794),
        (6, 1),
        (7, 21),
        (8, TAKEN),
        (9, LOCAL),
        (10, 144115193981435904),
        (11, 1),
        (12, 1),
        (16, 8589934595),
        (17, 2),
        (74, 7),
        (75, 18446744073709551615),
        (76, 3),
        (77, 4),
        (78, 5),
    ];
    let wanted = words_with(alloc, 79, &words)?;
    assert_eq!(rt; made.words.as_slice(), wanted.as_slice());
    assert_eq!(rt; made.lengths.as_slice(), [2, 3].as_slice());
    assert_eq!(rt; made.keeper, 0);
    assert_eq!(rt; made.shape.arrays_at(), 74);
    Ok(())
}

#[test]
fn the_second_of_two_runs_the_root(rt: HostRuntime) -> Result<(), Fail> {
    let alloc = rt.alloc();
    let made = small_image(alloc, 2, 3, 1)?;
    let words = [
        (2, 1),
        (5, 5764607527329202176),
        (8, 1),
        (9, 13),
        (10, TAKEN),
        (11, LOCAL),
        (77, 576460756598390869),
        (79, 1),
        (80, 1),
        (81, 96),
        (82, TAKEN),
        (83, LOCAL),
        (85, 144115193981435904),
        (86, 1),
        (87, 1),
        (91, 8589934595),
        (92, 2),
        (149, 7),
        (150, 18446744073709551615),
        (151, 3),
        (152, 4),
        (153, 5),
    ];
    let wanted = words_with(alloc, 154, &words)?;
    assert_eq!(rt; made.words.as_slice(), wanted.as_slice());
    assert_eq!(rt; made.keeper, 1);
    Ok(())
}

#[test]
fn laws_are_called() {
    words_stand_for_values();
    images_begin_with_the_root();
    images_are_one();
}
