//! The frame of the root, with which a run begins.
ghost use Rattle.std.specs.Prelude.{◌≡◌, ◌++◌, ◌<◌, ◌≤◌, IfOk, OnOk, length, map};
ghost use Rattle.std.specs.List.{All};
ghost use Rattle.ppm_words.specs.Inputs.{IsInput};
ghost use Rattle.ppm_cells.specs.Region.{region_word};
ghost use Rattle.ppm_code.specs.Sizes.{frame_size as frame_size_of};
ghost use Rattle.ppm_layout.specs.Opening.{whole_array, root_frame};

use ppm_cells::{Finish, Link, LinkKind, Region};
use ppm_code::{Code, frame_size};
use ppm_words::{NamedArray, NoMemory};
use std::alloc::Global;

/// The root's frame: how many words it has, from 6 to 31, and the first of them, after which all
/// are 0.
#[derive(Drop)]
pub struct Root {
    pub size: u32,
    pub frame: Vec<u64>,
}

/// The region of a whole array, by its number.
fn region_of(arrays: &[NamedArray], number: u32) -> Region
    requires there { number < length arrays.now }
    requires input { IsInput arrays.now }
    ensures { result ≡ whole_array arrays.now number }
{
    let number = number as usize;
    let mut start = 0;
    for array in &arrays[..number] {
        start += array.values.as_slice().len() as u32;
    }
    Region {
        start,
        length: arrays[number].values.as_slice().len() as u32,
    }
}

/// Appends the region words of arrays by their numbers.
fn push_regions(
    frame: &mut Vec<u64>,
    arrays: &[NamedArray],
    numbers: &[u32],
) -> Result<(), NoMemory>
    requires named { All (λ n. n < length arrays.now) numbers.now }
    requires input { IsInput arrays.now }
    ensures { OnOk result (frame.new.items
        ≡ frame.old.items ++ map (λ n. region_word (whole_array arrays.now n)) numbers.now) }
{
    for number in numbers {
        frame.push(region_of(arrays, *number).pack())?;
    }
    Ok(())
}

/// The frame of a code's root, with the regions of its arrays.
pub(crate) fn root_of(alloc: Global, code: &Code, arrays: &[NamedArray]) -> Result<Root, NoMemory>
    requires named { All (λ n. n < length arrays.now) code.now.arrays }
    requires input { IsInput arrays.now }
    ensures size { IfOk result (λ root. root.size ≡ frame_size_of code.now code.now.root) }
    ensures frame { IfOk result (λ root. root.frame.items ≡ root_frame code.now arrays.now) }
    ensures fits { IfOk result (λ root. root.size ≤ 31) }
    ensures short { IfOk result (λ root. length root.frame.items ≤ 31) }
{
    let parts = code.parts();
    let size = frame_size(code, parts.root);
    let link = Link {
        kind: LinkKind::Root,
        size,
    };
    let entry = parts.procedures.as_slice()[parts.root as usize].entry;
    let head = [link.pack(), Finish::Ended.pack(), u64::from(entry), 0, 0, 0];
    let mut frame = Vec::from_array(alloc, head)?;
    push_regions(&mut frame, arrays, parts.arrays.as_slice())?;
    Ok(Root { size, frame })
}
