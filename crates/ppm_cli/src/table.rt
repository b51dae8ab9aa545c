//! The commands and options that the words may give, as rows.
use ppm_cells::POOL_WORD_LIMIT;
use ppm_words::{ENTRY_LIMIT, PROCESSOR_LIMIT, TURN_LIMIT};

/// The most processors where the input is made.
const FEW: u32 = 16;

/// The most words of a pool where all words are written out, and of all pools together.
pub(crate) const MOST_WRITTEN_WORDS: u32 = 4_194_304;

/// The most values that are made, the most faults that are drawn, and the most steps of a drawn
/// schedule.
const MOST_MADE: u32 = 4_096;

/// The most entries of a deque where all words are written out.
const MOST_WRITTEN_ENTRIES: u32 = 4_096;

/// The most looks for work in a row.
const MOST_LOOKS: u32 = 1_048_576;

/// The most acts of a base run that are drawn, and the most strands of which steps are.
const MOST_DRAWN: u32 = 65_536;

/// The most acts that are told.
const MOST_TOLD: u32 = 1_048_576;

/// A command: its name and its options.
#[derive(Clone, Copy, Debug)]
pub struct CommandRow {
    /// Its name.
    pub name: &'static str,
    /// Its options.
    pub options: &'static [OptionRow],
}

/// An option of a command, by the form of its value.
#[derive(Clone, Copy, Debug)]
pub enum OptionRow {
    /// One whose value is a whole number.
    Number(NumberOption),
    /// One whose value is one of some words.
    Choice(ChoiceOption),
    /// One whose value is any text.
    Text(TextOption),
}

/// An option `--name` whose value is a whole number.
#[derive(Clone, Copy, Debug)]
pub struct NumberOption {
    /// Its name, without the two hyphens.
    pub name: &'static str,
    /// The least value.
    pub low: u32,
    /// The greatest value.
    pub high: u32,
    /// The word that stands for the value where the option is not given.
    pub default: &'static str,
}

/// An option `--name` whose value is one of these words.
#[derive(Clone, Copy, Debug)]
pub struct ChoiceOption {
    /// Its name, without the two hyphens.
    pub name: &'static str,
    /// The words, in the order of the values that they stand for.
    pub words: &'static [&'static str],
    /// The word that stands for the value where the option is not given.
    pub default: &'static str,
}

/// An option `--name` whose value is any text.
#[derive(Clone, Copy, Debug)]
pub struct TextOption {
    /// Its name, without the two hyphens.
    pub name: &'static str,
    /// The word that stands for the value where the option is not given.
    pub default: &'static str,
}

/// How many processors there are.
pub(crate) const PROCESSORS: NumberOption = NumberOption {
    name: "processors",
    low: 1,
    high: PROCESSOR_LIMIT,
    default: "4",
};

/// How many there are where the input is made.
pub(crate) const FEW_PROCESSORS: NumberOption = NumberOption {
    name: "processors",
    low: 1,
    high: FEW,
    default: "4",
};

/// How many turns there are.
pub(crate) const TURNS: NumberOption = NumberOption {
    name: "turns",
    low: 1,
    high: TURN_LIMIT,
    default: "16777216",
};

/// How many capsules a depth-first run may have.
pub(crate) const CAPSULES: NumberOption = NumberOption {
    name: "capsules",
    low: 1,
    high: u32::MAX,
    default: "16777216",
};

/// How many words the pool of a place has; all pools together have no more than the most of one.
pub(crate) const ROOM: NumberOption = NumberOption {
    name: "room",
    low: 64,
    high: POOL_WORD_LIMIT,
    default: "65536",
};

/// How many it has where all words are written out; all pools together have no more than the most of
/// one.
pub(crate) const SAVED_ROOM: NumberOption = NumberOption {
    name: "room",
    low: 64,
    high: MOST_WRITTEN_WORDS,
    default: "16384",
};

/// How many it has where each run has words of its own.
pub(crate) const COPIED_ROOM: NumberOption = NumberOption {
    name: "room",
    low: 64,
    high: POOL_WORD_LIMIT,
    default: "16384",
};

/// How many entries the deque of a place has.
pub(crate) const SLOTS: NumberOption = NumberOption {
    name: "slots",
    low: 2,
    high: ENTRY_LIMIT,
    default: "4096",
};

/// How many it has where all words are written out.
pub(crate) const FEW_SLOTS: NumberOption = NumberOption {
    name: "slots",
    low: 2,
    high: MOST_WRITTEN_ENTRIES,
    default: "256",
};

/// How many it has where each run has words of its own.
pub(crate) const COPIED_SLOTS: NumberOption = NumberOption {
    name: "slots",
    low: 2,
    high: ENTRY_LIMIT,
    default: "256",
};

/// After how many acts a run is stopped.
pub(crate) const AFTER: NumberOption = NumberOption {
    name: "after",
    low: 0,
    high: TURN_LIMIT,
    default: "0",
};

/// How many looks for work in a row a processor makes before it leaves or parks.
pub(crate) const LOOKS: NumberOption = NumberOption {
    name: "looks",
    low: 1,
    high: MOST_LOOKS,
    default: "1000",
};

/// Where the random victims begin.
pub(crate) const SEED: NumberOption = NumberOption {
    name: "seed",
    low: 0,
    high: u32::MAX,
    default: "1",
};

/// How many values are made and summed.
pub(crate) const SIZE: NumberOption = NumberOption {
    name: "size",
    low: 1,
    high: MOST_MADE,
    default: "64",
};

/// How many faults are drawn.
pub(crate) const COUNT: NumberOption = NumberOption {
    name: "count",
    low: 0,
    high: MOST_MADE,
    default: "0",
};

/// How many faults a sweep puts into a run at most.
pub(crate) const MET: NumberOption = NumberOption {
    name: "faults",
    low: 1,
    high: 2,
    default: "1",
};

/// The first act before which faults are put.
pub(crate) const FROM: NumberOption = NumberOption {
    name: "from",
    low: 0,
    high: TURN_LIMIT - 1,
    default: "0",
};

/// Before how many acts faults are put.
pub(crate) const ACTS: NumberOption = NumberOption {
    name: "acts",
    low: 1,
    high: TURN_LIMIT,
    default: "268435456",
};

/// How many acts of the base run are drawn before which faults are put, or how many schedules are
/// drawn.
pub(crate) const RUNS: NumberOption = NumberOption {
    name: "runs",
    low: 0,
    high: MOST_DRAWN,
    default: "0",
};

/// How many acts are made before the first one that is told.
pub(crate) const TRACED_FROM: NumberOption = NumberOption {
    name: "from",
    low: 0,
    high: TURN_LIMIT,
    default: "0",
};

/// How many acts are told at most.
pub(crate) const TRACED_ACTS: NumberOption = NumberOption {
    name: "acts",
    low: 1,
    high: MOST_TOLD,
    default: "65536",
};

/// Below which number the strands are of which schedules are drawn.
pub(crate) const STRANDS: NumberOption = NumberOption {
    name: "strands",
    low: 1,
    high: MOST_DRAWN,
    default: "3",
};

/// How many steps each drawn schedule has: no more than items may be written.
pub(crate) const STEPS: NumberOption = NumberOption {
    name: "steps",
    low: 1,
    high: MOST_MADE,
    default: "64",
};

/// The plan of faults.
pub(crate) const FAULTS: TextOption = TextOption {
    name: "faults",
    default: "none",
};

/// What is taken over of a processor that stopped for ever.
pub(crate) const TAKEOVER: ChoiceOption = ChoiceOption {
    name: "takeover",
    words: &["place", "entry"],
    default: "place",
};

/// Under which takeovers a sweep has its runs.
pub(crate) const SWEPT_TAKEOVERS: ChoiceOption = ChoiceOption {
    name: "takeover",
    words: &["place", "entry", "both"],
    default: "both",
};

/// What a processor does that finds no work.
pub(crate) const IDLE: ChoiceOption = ChoiceOption {
    name: "idle",
    words: &["leave", "park"],
    default: "leave",
};

/// The form of a trace.
pub(crate) const TRACED_FORM: ChoiceOption = ChoiceOption {
    name: "form",
    words: &["text", "json", "svg"],
    default: "text",
};

/// What is told of a run of strands.
pub(crate) const STRANDS_FORM: ChoiceOption = ChoiceOption {
    name: "form",
    words: &["arrays", "text"],
    default: "arrays",
};

/// Which lines of a trace are written.
pub(crate) const ONLY: ChoiceOption = ChoiceOption {
    name: "only",
    words: &["turns", "rows", "marks"],
    default: "turns",
};

/// Whether arrays are written before the code.
pub(crate) const ARRAYS: ChoiceOption = ChoiceOption {
    name: "arrays",
    words: &["no", "yes"],
    default: "no",
};

/// Whether the text that is read is a source or a case.
pub(crate) const INPUT: ChoiceOption = ChoiceOption {
    name: "input",
    words: &["source", "case"],
    default: "source",
};

/// Whether the strands of a code may race.
pub(crate) const RACY: ChoiceOption = ChoiceOption {
    name: "racy",
    words: &["no", "yes"],
    default: "no",
};

/// Whether what is counted in the run is told.
pub(crate) const COUNTS: ChoiceOption = ChoiceOption {
    name: "counts",
    words: &["no", "yes"],
    default: "no",
};

/// And where the run may go on from a saved text, whether it is that.
pub(crate) const ANY_INPUT: ChoiceOption = ChoiceOption {
    name: "input",
    words: &["source", "case", "saved"],
    default: "source",
};

/// Which text is explained.
pub(crate) const EXPLAINED: ChoiceOption = ChoiceOption {
    name: "input",
    words: &["source", "listing", "case", "saved"],
    default: "source",
};

/// The plan that is explained.
pub(crate) const PLAN: TextOption = TextOption {
    name: "plan",
    default: "unstated",
};

/// The schedule that is explained.
pub(crate) const STATED_SCHEDULE: TextOption = TextOption {
    name: "schedule",
    default: "unstated",
};

/// Whether the trap of a source is explained.
pub(crate) const TRAP: ChoiceOption = ChoiceOption {
    name: "trap",
    words: &["no", "yes"],
    default: "no",
};

/// The schedule of acts.
pub(crate) const SCHEDULE: TextOption = TextOption {
    name: "schedule",
    default: "none",
};

/// The commands, in the order of the help page.
pub const COMMANDS: [CommandRow; 16] = [
    CommandRow {
        name: "run",
        options: &[
            OptionRow::Number(PROCESSORS),
            OptionRow::Number(TURNS),
            OptionRow::Number(ROOM),
            OptionRow::Number(SLOTS),
            OptionRow::Number(LOOKS),
            OptionRow::Number(SEED),
            OptionRow::Text(FAULTS),
            OptionRow::Choice(TAKEOVER),
            OptionRow::Choice(IDLE),
            OptionRow::Choice(INPUT),
            OptionRow::Choice(COUNTS),
        ],
    },
    CommandRow {
        name: "serial",
        options: &[OptionRow::Number(TURNS)],
    },
    CommandRow {
        name: "code",
        options: &[OptionRow::Choice(ARRAYS)],
    },
    CommandRow {
        name: "check",
        options: &[OptionRow::Choice(RACY)],
    },
    CommandRow {
        name: "depth",
        options: &[OptionRow::Number(CAPSULES)],
    },
    CommandRow {
        name: "races",
        options: &[OptionRow::Number(CAPSULES)],
    },
    CommandRow {
        name: "strands",
        options: &[
            OptionRow::Text(SCHEDULE),
            OptionRow::Number(TURNS),
            OptionRow::Choice(STRANDS_FORM),
            OptionRow::Number(RUNS),
            OptionRow::Number(SEED),
            OptionRow::Number(STRANDS),
            OptionRow::Number(STEPS),
        ],
    },
    CommandRow {
        name: "replay",
        options: &[
            OptionRow::Number(PROCESSORS),
            OptionRow::Number(TURNS),
            OptionRow::Number(ROOM),
            OptionRow::Number(SLOTS),
            OptionRow::Choice(TAKEOVER),
            OptionRow::Text(SCHEDULE),
            OptionRow::Choice(ANY_INPUT),
            OptionRow::Choice(COUNTS),
        ],
    },
    CommandRow {
        name: "self",
        options: &[
            OptionRow::Number(FEW_PROCESSORS),
            OptionRow::Number(SIZE),
            OptionRow::Number(SEED),
            OptionRow::Number(COUNT),
        ],
    },
    CommandRow {
        name: "stop",
        options: &[
            OptionRow::Number(PROCESSORS),
            OptionRow::Number(AFTER),
            OptionRow::Number(SAVED_ROOM),
            OptionRow::Number(FEW_SLOTS),
            OptionRow::Text(SCHEDULE),
            OptionRow::Choice(ANY_INPUT),
        ],
    },
    CommandRow {
        name: "resume",
        options: &[
            OptionRow::Number(TURNS),
            OptionRow::Number(LOOKS),
            OptionRow::Number(SEED),
            OptionRow::Text(FAULTS),
            OptionRow::Choice(COUNTS),
        ],
    },
    CommandRow {
        name: "sweep",
        options: &[
            OptionRow::Number(PROCESSORS),
            OptionRow::Number(TURNS),
            OptionRow::Number(COPIED_ROOM),
            OptionRow::Number(COPIED_SLOTS),
            OptionRow::Choice(SWEPT_TAKEOVERS),
            OptionRow::Text(SCHEDULE),
            OptionRow::Number(MET),
            OptionRow::Number(FROM),
            OptionRow::Number(ACTS),
            OptionRow::Number(RUNS),
            OptionRow::Number(SEED),
            OptionRow::Number(CAPSULES),
            OptionRow::Choice(INPUT),
        ],
    },
    CommandRow {
        name: "ram",
        options: &[
            OptionRow::Number(PROCESSORS),
            OptionRow::Number(TURNS),
            OptionRow::Number(ROOM),
            OptionRow::Number(SLOTS),
            OptionRow::Number(LOOKS),
            OptionRow::Number(SEED),
            OptionRow::Text(FAULTS),
            OptionRow::Choice(TAKEOVER),
            OptionRow::Choice(IDLE),
        ],
    },
    CommandRow {
        name: "trace",
        options: &[
            OptionRow::Number(PROCESSORS),
            OptionRow::Number(TRACED_FROM),
            OptionRow::Number(TRACED_ACTS),
            OptionRow::Number(ROOM),
            OptionRow::Number(SLOTS),
            OptionRow::Choice(TAKEOVER),
            OptionRow::Text(SCHEDULE),
            OptionRow::Choice(TRACED_FORM),
            OptionRow::Choice(ONLY),
            OptionRow::Choice(ANY_INPUT),
        ],
    },
    CommandRow {
        name: "show",
        options: &[],
    },
    CommandRow {
        name: "explain",
        options: &[
            OptionRow::Choice(EXPLAINED),
            OptionRow::Text(PLAN),
            OptionRow::Text(STATED_SCHEDULE),
            OptionRow::Number(PROCESSORS),
            OptionRow::Choice(TRAP),
            OptionRow::Number(TURNS),
        ],
    },
];
