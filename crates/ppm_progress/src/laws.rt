//! What a run has left to do, shown by calls that do nothing.
ghost use Rattle.ppm_progress.specs.Fresh.{FreshStay, LeftComesLater};
ghost use Rattle.ppm_progress.specs.Idle.{IdleAreEmptyInRuns, IdleStayEmpty};
ghost use Rattle.ppm_progress.specs.Legs.{SomePlaceIsAtWorkOverLegs, SomebodyWorksOverLegs};
ghost use Rattle.ppm_progress.specs.Ready.{SomethingIsReady};
ghost use Rattle.ppm_progress.specs.Soon.{WorksSoon, WorksWithin13};
ghost use Rattle.ppm_progress.specs.Stuck.{DequesAllowIdleJobs, HoldersAllowALeftPlace};
ghost use Rattle.ppm_progress.specs.Stuck.{OrdersAllowBothToCome};
ghost use Rattle.ppm_progress.specs.Works.{AllIdleIsOver, SomePlaceIsAtWork, SomebodyWorks};

/// With either takeover, a right branch that was not forked yet is beside the place that is to fork
/// it, after each turn by which no place goes on with what it inherited; and no left branch comes
/// first beside one that isn't pushed.
pub fn left_comes_later()
    ensures law { LeftComesLater }
    ensures stay { FreshStay }
{}

/// With takeover by places, whatever the turns and the faults: at each moment of a run from an
/// image of a sound code a place has a strand of the tree that the words show, or a right branch of
/// it waits to be taken. Thus some place is at work, over legs too: its kind is work, or it has won
/// a job that it has still to begin. In a run that is over this may be the root's strand at its
/// end.
pub fn something_is_ready()
    ensures law { SomethingIsReady }
    ensures place { SomePlaceIsAtWork }
    ensures legs { SomePlaceIsAtWorkOverLegs }
{}

/// With either takeover, whatever the turns and the faults: at each moment of a run from an image
/// of a sound code a place whose kind isn't work has no job in its deque; below its bottom all
/// entries are taken.
pub fn idle_deques_are_empty()
    ensures stay { IdleStayEmpty }
    ensures law { IdleAreEmptyInRuns }
{}

/// With either takeover, whatever the turns, if none of them is a hard fault: while a run from an
/// image of a sound code isn't over some processor works, or has won a job that it has still to
/// begin. Thus the run is over where each processor is done or would seek work next. By places
/// somebody works too in a leg without hard faults, whatever the legs before.
pub fn somebody_works()
    ensures law { SomebodyWorks }
    ensures over { AllIdleIsOver }
    ensures legs { SomebodyWorksOverLegs }
{}

/// With either takeover, without hard faults: a processor whose own place is at a kind of work
/// makes a work turn within four of its own steps, whatever others do, or the finish word is set
/// meanwhile. It does so within thirteen where the place has won a job.
pub fn work_turns_come_soon()
    ensures law { WorksSoon }
    ensures thieves { WorksWithin13 }
{}

/// Each of three facts of a run's state, taken alone, allows a piece of a state in which nobody
/// ever works again: an order word a fork whose branches have both come first, the shape of a deque
/// a job at a place that looks for work, and holder words, by places, a strand at a place that its
/// holder has left.
pub fn single_facts_allow_stuck_pieces()
    ensures orders { OrdersAllowBothToCome }
    ensures deques { DequesAllowIdleJobs }
    ensures holders { HoldersAllowALeftPlace }
{}
