//! What is true of every capsule and every table of capsules, shown by calls that do nothing.
ghost use Rattle.ppm_strands.specs.Capsule.{Capsule, Equality, IsLocal, Memory};
ghost use Rattle.ppm_strands.specs.EndStores.{TablesAreTheSame, EndStoresComeLast};
ghost use Rattle.ppm_strands.specs.Faults.{FaultsDoNotShow};
ghost use Rattle.ppm_strands.specs.Paths.{IsFreeOnPaths, PathsSayWhereByTest};
ghost use Rattle.ppm_strands.specs.Stopped.{AConflictMayShow, IsAlwaysConflictFree};
ghost use Rattle.ppm_strands.specs.Stopped.{IsConflictFree, IsIdempotent};
ghost use Rattle.ppm_strands.specs.Stopped.{StandsAlways, StopsChangeNothing};
ghost use Rattle.ppm_strands.specs.Stopped.{WrittenFirstIsConflictFree};
ghost use Rattle.ppm_strands.specs.Strand.{CapsulesMakeSteps, CodeIsLocal, Location};
ghost use Rattle.ppm_strands.specs.Strand.{OthersKeepWhatIsDone, Table};
ghost use Rattle.std.specs.Prelude.{ℕ, Bool, List};

/// What a capsule does depends on its exposed reads alone, and it keeps the words that it does not
/// write.
pub fn capsules_are_local<L, E>()
    ensures { (eq : Equality L) (p : Capsule L E) → IsLocal eq p }
{}

/// A capsule without write-after-read conflicts, stopped after any of its word steps and begun
/// again on the words as they then are, any number of times, comes to the same end with the same
/// words.
pub fn conflict_free_is_idempotent<L, E>()
    ensures { (eq : Equality L) (p : Capsule L E) (m : Memory L) → IsConflictFree eq p m
        → IsIdempotent eq p m }
{}

/// Wherever it was stopped, it then does the same from first to last: it reads, writes and asks for
/// the same, and may be stopped again.
pub fn stops_change_nothing<L, E>()
    ensures { (eq : Equality L) (p : Capsule L E) (m : Memory L) → IsConflictFree eq p m
        → StopsChangeNothing eq p m }
{}

/// The rule is needed: at any location and from any words there is a capsule with a conflict that
/// ends otherwise once it is stopped. What is written first may be read and written again.
pub fn a_conflict_may_show<L>()
    ensures conflict { (eq : Equality L) → AConflictMayShow eq }
    ensures no_conflict { (eq : Equality L) → WrittenFirstIsConflictFree eq }
{}

/// A capsule without a conflict on any path, whatever its reads find, has none from any words; and
/// if a test allows all locations that its paths read, or write, it allows its exposed reads, or
/// its writes.
pub fn paths_are_enough<L, E>()
    ensures free { (eq : Equality L) (p : Capsule L E) → IsFreeOnPaths eq p
        → IsAlwaysConflictFree eq p }
    ensures by_test { (eq : Equality L) (allows : L → Bool) (p : Capsule L E)
        → PathsSayWhereByTest eq allows p }
{}

/// What a capsule without conflicts has done stands at each moment of a run, stops and all, and
/// while others store elsewhere.
pub fn what_is_done_stands<L, E>()
    ensures { (eq : Equality L) (p : Capsule L E) → StandsAlways eq p }
{}

/// The laws of trees of strands hold of every table of capsules: its code is local.
pub fn code_is_local<S, N, K, E, O>()
    ensures { (eq : Equality (Location S N)) (table : Table S N K E O) → CodeIsLocal eq table }
{}

/// Of a capsule that may be begun again, each store under way is a step of its strand that counts
/// nothing, and its end is the step of one whole capsule: so a run of it with any stops is, in the
/// tree, one capsule.
pub fn capsules_make_steps<S, N, K, E, O>()
    ensures { (eq : Equality (Location S N)) (table : Table S N K E O)
        → CapsulesMakeSteps eq table }
{}

/// Others keep what a capsule under way has done, and that it may be begun again: those that store
/// elsewhere, and in a calm tree each strand beside its own.
pub fn others_keep_what_is_done<S, N, K, E, O>()
    ensures { (eq : Equality (Location S N)) (table : Table S N K E O)
        → OthersKeepWhatIsDone eq table }
{}

/// Faults do not show. In a calm tree of strands whose capsules have no write-after-read conflict
/// and read no word of a new block before they have written it, let the strands make their word
/// steps in any order, and let each lose at any moments how far its capsule has come, and begin
/// that again: what is left ends where all of it would, and where it is over, that is the end of
/// the depth-first run without faults, with the same words and counts; and that run is itself one
/// of these.
pub fn faults_do_not_show<S, N, K, E, O>()
    ensures { (eq : Equality (Location S N)) (table : Table S N K E O) → FaultsDoNotShow eq table }
{}

/// A capsule with the stores of its end written out before that end does what it does, and then
/// these stores; it has no conflict where it had none and they go to no location that it has read.
pub fn end_stores_come_last<L, E>()
    ensures { (eq : Equality L) (tail : E → List (L × ℕ)) (p : Capsule L E)
        → EndStoresComeLast eq tail p }
{}

/// Where the trees that ends open do not show these stores, a table of such capsules is the same
/// code.
pub fn end_stores_are_unseen<S, N, K, E, O>()
    ensures { (eq : Equality (Location S N)) (table : Table S N K E O) → TablesAreTheSame eq table }
{}
