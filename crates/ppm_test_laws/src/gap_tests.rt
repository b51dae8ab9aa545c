//! Listings whose strands may race: which flaw each has first, if it has one.
use ppm_code::Class;
use ppm_gaps::{
    CapsuleGap, Flaw, Gap, LeftOut, check_racing, codes_without_flaws_are_restartable,
    flaws_tell_codes,
};
use ppm_listing_reader::read_listing;
use ppm_war::Conflict;
use std::alloc::Global;
use std::test::Fail;

/// A word that another strand may change is kept in a slot.
const KEPT: &str = "ppm 1\nroot 0 0\nproc 0 slots 3 entry 0\n\
capsule 0 proc 0\nloadslot r0 0\nconst r1 0\nget r2 r0 r1 1\nstorecur 1 r2\nend\n";

/// By what the word is, slot 1 is stored or slot 2.
const LEFT_OUT: &str = "ppm 1\nroot 0 0\nproc 0 slots 3 entry 0\n\
capsule 0 proc 0\nloadslot r0 0\nconst r1 0\nget r2 r0 r1 1\n\
branchz r2 6\nstorecur 1 r2\nend\nstorecur 2 r2\nend\n";

/// It is divided by the word.
const HUNG: &str = "ppm 1\nroot 0 0\nproc 0 slots 3 entry 0\n\
capsule 0 proc 0\nloadslot r0 0\nconst r1 0\nget r2 r0 r1 1\nconst r3 7\ndiv r4 r3 r2 2\nend\n";

/// The word that was read is put back.
const CONFLICT: &str = "ppm 1\nroot 0 0\nproc 0 slots 3 entry 0\n\
capsule 0 proc 0\nloadslot r0 0\nconst r1 0\nget r2 r0 r1 1\nput r0 r1 r2 2\nend\n";

/// The first flaw of a listing, if it has one.
fn flaw_of(alloc: Global, listing: &str) -> Result<Option<Flaw>, Fail> {
    let code = read_listing(alloc, listing.as_bytes()).map_err(|_| "no listing")?;
    Ok(check_racing(&code).err())
}

#[test]
fn flaws_are_told(rt: HostRuntime) -> Result<(), Fail> {
    let left_out = Flaw::Gap(CapsuleGap {
        capsule: 0,
        gap: Gap::LeftOut(LeftOut {
            find: 2,
            write: 4,
            stop: 7,
            class: Class::Slot(1),
        }),
    });
    let hung = Flaw::Gap(CapsuleGap {
        capsule: 0,
        gap: Gap::Hung(4),
    });
    let conflict = Flaw::Conflict(Conflict {
        capsule: 0,
        read_at: 2,
        write_at: 3,
        class: Class::Array,
    });
    let cases = [
        (KEPT, None),
        (LEFT_OUT, Some(left_out)),
        (HUNG, Some(hung)),
        (CONFLICT, Some(conflict)),
    ];
    for (listing, want) in cases {
        assert_eq!(rt; flaw_of(rt.alloc(), listing)?, want, "{listing}");
    }
    Ok(())
}

#[test]
fn the_laws_of_flaws_are_called() {
    codes_without_flaws_are_restartable();
    flaws_tell_codes();
}
