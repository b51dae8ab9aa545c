//! Two strands that each copy a word, run with faults: the law at an instance.

ghost use Rattle.ppm_test_laws.specs.Copies.{CopiesAreRestartable, CopiesWithFaults};

use ppm_strands::faults_do_not_show;

/// A capsule that reads one word and writes another may be begun again, whatever the words are.
pub fn copies_are_restartable()
    ensures { CopiesAreRestartable }
{}

/// In whatever order the two strands make their word steps, and however often each loses how far it
/// has come: where both are over, both words are copied, and two capsules are counted.
pub fn copies_with_faults()
    ensures { CopiesWithFaults }
{
    copies_are_restartable();
    faults_do_not_show::<u8, u8, u8, u8, u8>();
}
