//! Where routes begin, and where they lead.
ghost use Rattle.std.specs.Prelude.{◌≡◌};
ghost use Rattle.ppm_show.specs.Routes.{begun_at as begun_by_word, begun_by_entry as begun_by_an_entry};
ghost use Rattle.ppm_show.specs.Routes.{begun_by_restart as begun_by_a_restart, block_of as block_in};
ghost use Rattle.ppm_show.specs.Routes.{end_of_link as end_by, leads_to as end_leads_to};
ghost use Rattle.ppm_show.specs.Routes.{left_lasts as left_is_not_over};
ghost use Rattle.ppm_show.specs.Routes.{right_lasts as right_is_not_over, if_lasting as lasting};

use ppm_cells::{Cell, Entry, Link, LinkKind, Restart, RestartKind};
use ppm_lines::Scene;
use ppm_naming::addressed;

/// The frame that goes on once a block is over, or the fork block in which a branch ends.
fn end_of_link(link: Option<Link>) -> Option<u32>
    ensures { result ≡ end_by link }
{
    let Some(link) = link else {
        return None;
    };
    match link.kind {
        LinkKind::Root => None,
        LinkKind::Call { frame, .. } | LinkKind::Fork { frame, .. } => Some(frame),
        LinkKind::Branch { block, .. } => Some(block),
    }
}

/// Where the end of a frame or of a branch leads.
pub(crate) fn leads_to(scene: &Scene, at: u32) -> Option<u32>
    ensures { result ≡ end_leads_to scene.now at }
{
    end_of_link(scene.link_at(at))
}

/// What a place goes on with.
fn begun_by_restart(restart: Option<Restart>) -> Option<u32>
    ensures { result ≡ begun_by_a_restart restart }
{
    let Some(restart) = restart else {
        return None;
    };
    match restart.kind {
        RestartKind::Run { frame, .. } | RestartKind::Unwind { frame } => Some(frame),
        RestartKind::Bump { block }
        | RestartKind::Push1 { block }
        | RestartKind::Push2 { block }
        | RestartKind::Arrive { block, .. }
        | RestartKind::Join { block, .. }
        | RestartKind::Pop2 { block } => Some(block),
        RestartKind::Pop1
        | RestartKind::Seek
        | RestartKind::Steal { .. }
        | RestartKind::Check { .. }
        | RestartKind::Take { .. }
        | RestartKind::Take2 { .. } => None,
    }
}

/// The fork block of an entry; 0 is none.
fn block_of(entry: Entry) -> u32
    ensures { result ≡ block_in entry }
{
    match entry {
        Entry::Local { block, .. } | Entry::Job { block, .. } => block,
        Entry::Empty { .. } | Entry::Taken { .. } => 0,
    }
}

/// Whether the left branch of a fork block isn't over.
pub(crate) fn left_lasts(scene: &Scene, block: u32) -> bool
    ensures { result ≡ left_is_not_over scene.now block }
{
    scene.word_at(u64::from(block) + 2) == 0
}

/// Whether the right branch isn't.
pub(crate) fn right_lasts(scene: &Scene, block: u32) -> bool
    ensures { result ≡ right_is_not_over scene.now block }
{
    scene.word_at(u64::from(block) + 3) == 0
}

/// A fork block whose right branch isn't over.
fn if_lasting(scene: &Scene, block: u32) -> Option<u32>
    ensures { result ≡ lasting scene.now block }
{
    if block == 0 {
        return None;
    }
    if right_lasts(scene, block) {
        Some(block)
    } else {
        None
    }
}

/// The fork block of an entry, as long as its right branch isn't over.
fn begun_by_entry(scene: &Scene, entry: Option<Entry>) -> Option<u32>
    ensures { result ≡ begun_by_an_entry scene.now entry }
{
    match entry {
        None => None,
        Some(entry) => if_lasting(scene, block_of(entry)),
    }
}

/// Where a route begins by the word at an address.
pub(crate) fn begun_at(scene: &Scene, at: u32) -> Option<u32>
    ensures { result ≡ begun_by_word scene.now at }
{
    let word = scene.word_at(u64::from(at));
    match addressed(scene.shape(), at) {
        Cell::RestartWord { .. } => begun_by_restart(Restart::unpack(word)),
        Cell::MessageWord { .. } | Cell::EntryWord { .. } => {
            begun_by_entry(scene, Entry::unpack(word))
        }
        Cell::FinishWord
        | Cell::CarryWord { .. }
        | Cell::DeadWord { .. }
        | Cell::HolderWord { .. }
        | Cell::Top { .. }
        | Cell::RoomCounter { .. }
        | Cell::BlockWord { .. }
        | Cell::ArrayWord { .. } => None,
    }
}
