//! A small instance of the trees: capsules that add to four words of a byte each.
//! It is run depth first by plain recursion, slow and easy to read.

ghost use Rattle.std.specs.Prelude.{[], ◌≡◌, ◌≤◌, ◌^◌, IfSome, option_map};
ghost use Rattle.ppm_strands.specs.Run.{joined as model_joined, plus};
ghost use Rattle.ppm_strands.specs.Run.{with_counts as model_with_counts};
ghost use Rattle.ppm_test_laws.specs.Sample.{AreAtMost, IsBoundOfBoth, address, after_capsule};
ghost use Rattle.ppm_test_laws.specs.Sample.{capsule_at, counts_of};
ghost use Rattle.ppm_test_laws.specs.Sample.{counts_at, end_of, resumed_tree, run_of, sample};
ghost use Rattle.ppm_test_laws.specs.Sample.{tree_of, words_of};

/// The four words, by name.
#[derive(Clone, Copy, Debug, PartialEq, Eq)]
pub enum Word {
    A,
    B,
    C,
    D,
}

/// How a branch is over.
#[derive(Clone, Copy, Debug, PartialEq, Eq)]
pub enum Outcome {
    Finished,
    /// A trap, with a number that tells it from others.
    Trapped(u8),
}

/// A tree of which each part is one strand.
/// A frame is the number of its capsule in the table, from 0.
#[derive(Clone, Copy, Debug, PartialEq, Eq)]
pub enum SmallTree {
    Strand(u8),
    Call { frame: u8, callee: u8 },
    Fork { frame: u8, left: u8, right: u8 },
    Over(Outcome),
}

/// What a frame's capsule does: it adds `plus` to the word `from`, past 255 from 0 again,
/// writes that to the word `to`, asks for `asks` block words, and opens the next tree.
#[derive(Clone, Copy, Debug, PartialEq, Eq)]
pub struct Capsule {
    pub from: Word,
    pub to: Word,
    pub plus: u8,
    pub asks: u8,
    pub opens: SmallTree,
}

/// What a run counted.
#[derive(Clone, Copy, Debug, PartialEq, Eq)]
pub struct Counts {
    pub capsules: u64,
    pub forks: u64,
    pub block_words: u64,
}

/// Where a run ended, the words then and its counts.
#[derive(Clone, Copy, Debug, PartialEq, Eq)]
pub struct End {
    pub outcome: Outcome,
    pub words: [u8; 4],
    pub counts: Counts,
}

/// What a frame past the end of the table does: it traps with 255.
const STRAY: Capsule = Capsule {
    from: Word::A,
    to: Word::A,
    plus: 0,
    asks: 0,
    opens: SmallTree::Over(Outcome::Trapped(255)),
};

/// Nothing counted.
const NONE: Counts = Counts {
    capsules: 0,
    forks: 0,
    block_words: 0,
};

/// The number of a word among the four, from 0.
pub(crate) fn index(word: Word) -> usize
    ensures value { result ≡ address word }
{
    match word {
        Word::A => 0,
        Word::B => 1,
        Word::C => 2,
        Word::D => 3,
    }
}

/// The capsule of a frame.
fn capsule_of(table: &[Capsule], frame: u8) -> Capsule
    ensures value { result ≡ capsule_at table.now frame }
{
    if usize::from(frame) < table.len() {
        table[usize::from(frame)]
    } else {
        STRAY
    }
}

/// The words after a capsule.
fn made(capsule: Capsule, words: [u8; 4]) -> [u8; 4]
    ensures value { words_of result ≡ after_capsule capsule (words_of words) }
{
    let mut after = words;
    after[index(capsule.to)] = words[index(capsule.from)].wrapping_add(capsule.plus);
    after
}

/// The outcome of a join.
fn joined(left: Outcome, right: Outcome) -> Outcome
    ensures value { result ≡ model_joined (sample []) left right }
{
    match left {
        Outcome::Trapped(_) => left,
        Outcome::Finished => right,
    }
}

/// How a frame goes on after its call or its branches: by its own capsule, or over by their trap.
fn resumed(frame: u8, outcome: Outcome) -> SmallTree
    ensures value { tree_of result ≡ resumed_tree frame outcome }
{
    match outcome {
        Outcome::Trapped(_) => SmallTree::Over(outcome),
        Outcome::Finished => SmallTree::Strand(frame),
    }
}

/// The counts of a frame's capsule.
fn counts_of_capsule(capsule: Capsule) -> Counts
    ensures value { counts_of result ≡ counts_at capsule }
    ensures few { AreAtMost 1 result }
{
    let forks = match capsule.opens {
        SmallTree::Fork { .. } => 1,
        SmallTree::Strand(_) | SmallTree::Call { .. } | SmallTree::Over(_) => 0,
    };
    Counts {
        capsules: 1,
        forks,
        block_words: u64::from(capsule.asks),
    }
}

/// Both counts together; the bounds keep them far from the end of their type.
fn added(first: Counts, second: Counts) -> Counts
    requires few { AreAtMost (2 ^ 48) first × AreAtMost (2 ^ 48) second }
    ensures value { counts_of result ≡ plus (counts_of first) (counts_of second) }
    ensures few { IsBoundOfBoth first second result }
{
    Counts {
        capsules: first.capsules + second.capsules,
        forks: first.forks + second.forks,
        block_words: first.block_words + second.block_words,
    }
}

/// An end with the counts made before it.
fn with_counts(end: End, before: Counts) -> End
    requires few { AreAtMost (2 ^ 48) end.counts × AreAtMost (2 ^ 48) before }
    ensures value { end_of result ≡ model_with_counts (counts_of before) (end_of end) }
    ensures few { IsBoundOfBoth end.counts before result.counts }
{
    let words = end.words;
    End {
        outcome: end.outcome,
        words,
        counts: added(before, end.counts),
    }
}

/// Runs a tree depth first within `bound`, which is 30 at most: where it ends, or none where it
/// does not end within the bound.
pub fn run(table: &[Capsule], bound: u8, tree: SmallTree, words: [u8; 4]) -> Option<End>
    requires shallow { bound ≤ 30 }
    ensures depth_first { option_map end_of result ≡ run_of table.now bound tree words }
    ensures few { IfSome result (λ e. AreAtMost (3 ^ bound) e.counts) }
{
    if bound == 0 {
        return None;
    }
    let left_over = bound - 1;
    match tree {
        SmallTree::Over(outcome) => Some(End {
            outcome,
            words,
            counts: NONE,
        }),
        SmallTree::Strand(frame) => {
            let capsule = capsule_of(table, frame);
            let rest = run(table, left_over, capsule.opens, made(capsule, words))?;
            Some(with_counts(rest, counts_of_capsule(capsule)))
        }
        SmallTree::Call { frame, callee } => {
            let callee_end = run(table, left_over, SmallTree::Strand(callee), words)?;
            let rest = run(
                table,
                left_over,
                resumed(frame, callee_end.outcome),
                callee_end.words,
            )?;
            Some(with_counts(rest, callee_end.counts))
        }
        SmallTree::Fork { frame, left, right } => {
            let left_end = run(table, left_over, SmallTree::Strand(left), words)?;
            let right_end = run(table, left_over, SmallTree::Strand(right), left_end.words)?;
            let outcome = joined(left_end.outcome, right_end.outcome);
            let rest = run(table, left_over, resumed(frame, outcome), right_end.words)?;
            Some(with_counts(with_counts(rest, right_end.counts), left_end.counts))
        }
    }
}
