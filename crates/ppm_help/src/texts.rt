//! What the page says of commands and options in words of its own.

/// What stands ahead of the commands.
pub(crate) const AHEAD: &str = "\
Ppm: a small fork-join language, its capsules, and the machine that runs them while processors fail

  ./ppm COMMAND [OPTIONS] < INPUT      the proved program, proved and built first where it is not
  ./ppm try COMMAND [OPTIONS] < INPUT  the same words unproved, in a minute or two
  ./ppm gate                           all proofs and tests, by `rt ci`; its program then serves
  ./ppm help [COMMAND]                 this page, or what it says of a command; also --help and -h
  ./ppm --version                      the kit, the sum of the sources, and whether they are built

Input is standard input alone: a source (docs/LANGUAGE.md), of `check` a listing, of `depth`,
`races`, `strands` and wherever `--input case` stands a case: arrays and a listing (docs/CODE.md),
of `resume` and `show`, and wherever `--input saved` stands, a saved text (docs/SAVED.md), of `ram`
a RAM (docs/RAM.md), of `self` nothing. A source and a RAM have at most 1,048,576 bytes, a listing
and a case 536,870,912, a saved text 671,088,640.
An option is given as `--turns 5` or `--turns=5`, at most once. A value never begins with `-`.
";

/// What a command is for.
pub(crate) fn purpose_of(command: &str) -> &'static str {
    match command {
        "run" => "compiles a source, and threads run its capsules under a plan of faults",
        "serial" => "interprets a source by its serial meaning",
        "code" => "compiles a source, and writes the listing of its capsules, or a case",
        "check" => "whether the capsules of a listing may be run again, or also where strands race",
        "depth" => "runs the code of a case alone, left branch first, and counts what it takes",
        "races" => "whether the code of a case is sound with its arrays, or its first race",
        "strands" => "runs the strands of a case, which may race, and names what does not stand",
        "replay" => "compiles a source, and processors run its capsules along a schedule",
        "self" => "makes a source that sums so many values, runs it, and says what came of it",
        "stop" => "makes acts along a schedule, and writes the machine's words as a saved text",
        "resume" => "fresh processors go on from a saved text, under a plan of faults",
        "sweep" => "whether a replay comes to one end wherever one fault or two are put into it",
        "ram" => "compiles a RAM, and threads run its capsules under a plan of faults",
        "trace" => "compiles a source, and tells what processors do along a schedule, act by act",
        "show" => "tells in words the state of a saved text: what runs, what waits, and the arrays",
        "explain" => "judges a text, and says of a refusal what stands there and what could",
        _ => NO_WORDS,
    }
}

/// The words after the command in an example.
pub(crate) fn example_of(command: &str) -> &'static str {
    match command {
        "run" => "--processors 3 --faults 0@5s,0@40s,1@90h < examples/sum.ppm",
        "serial" => "< examples/mergesort.ppm",
        "code" => "< examples/first.ppm",
        "check" => "< examples/conflict.listing",
        "depth" => "< examples/race.case",
        "races" => "--capsules 1000 < examples/race.case",
        "strands" => "--form text --schedule '0*8,1*4,2*4' < examples/exchange.case",
        "replay" => "--processors 3 --schedule '0*200,1*30,1!h' < examples/sum.ppm",
        "self" => "--size 1000 --seed 7 --count 50",
        "stop" => "--processors 3 --after 300 < examples/sum.ppm > sum.saved",
        "resume" => "--faults 0@5s,1@9h < sum.saved",
        "sweep" => "--processors 2 --faults 2 --runs 3 < examples/sum.ppm",
        "ram" => "--processors 2 --faults 0@5s,0@90h < examples/ram/sum.ram",
        "show" => "< sum.saved",
        "explain" => "< examples/sum.ppm",
        "trace" => { "--processors 3 --only marks --schedule '0*200,1*30,1!h' < examples/sum.ppm" }
        _ => NO_WORDS,
    }
}

/// What an option of a command means.
pub(crate) fn meaning_of(command: &str, option: &str) -> &'static str {
    match option {
        "processors" => "how many processors there are",
        "turns" => turns_of(command),
        "after" => "acts that are made, those of the schedule too",
        "room" => room_of(command),
        "capsules" => capsules_of(command),
        "arrays" => "with yes the arrays stand before the listing",
        "slots" => "entries of a place's deque",
        "looks" => "looks for work in a row until a processor rests",
        "size" => "values that are made and summed",
        "count" => "faults that are drawn",
        "seed" => seed_of(command),
        "faults" => faults_of(command),
        "from" => from_of(command),
        "acts" => acts_of(command),
        "runs" => runs_of(command),
        "strands" => "steps that are drawn are of strands below it",
        "steps" => "steps of a schedule that is drawn",
        "schedule" => schedule_of(command),
        "plan" => "to be explained, as 0@5s,1@9h",
        "trap" => "with yes a source runs as by serial, and its trap is explained",
        "takeover" => takeover_of(command),
        "idle" => "one that rests makes no more acts, or sleeps",
        "form" => form_of(command),
        "only" => "lines: all, those that end a row, or those with a mark",
        "input" => input_of(command),
        "racy" => "with yes strands may race, and gaps are told too",
        "counts" => "with yes a last line of counts; the run takes longer",
        _ => NO_WORDS,
    }
}

/// What the schedule of a command is.
fn schedule_of(command: &str) -> &'static str {
    match command {
        "explain" => "to be explained, as 0*9,1>0,1!h",
        "strands" => "as 0*9,1,1!s: steps and soft faults of strands",
        _ => "as 0*9,1>0,1!h: acts, a victim, a hard fault",
    }
}

/// What the input of a command is.
fn input_of(command: &str) -> &'static str {
    match command {
        "replay" | "stop" | "trace" => "what is read; a saved text says its sizes",
        "explain" => "what is read, and judged as the command does that reads it",
        _ => "what is read; the code of a case runs, sound or not",
    }
}

/// What the turns of a command are.
fn turns_of(command: &str) -> &'static str {
    match command {
        "run" | "resume" | "ram" => "work turns that each processor may make",
        "serial" | "explain" => "turns of the meaning (docs/LANGUAGE.md)",
        "replay" => "acts that all processors may make together",
        "sweep" => "acts that all processors of a run may make",
        "strands" => "turns that all strands of a run may have",
        _ => NO_WORDS,
    }
}

/// What the runs of a command are.
fn runs_of(command: &str) -> &'static str {
    match command {
        "strands" => "schedules that are drawn; with 0 the stated one runs",
        _ => "acts of these that are drawn; with 0 all are taken",
    }
}

/// What the form of a command is.
fn form_of(command: &str) -> &'static str {
    match command {
        "strands" => "what a run comes to, or with what others saw of it",
        _ => "lines, events for a viewer of traces, or a picture",
    }
}

/// What the capsules of a command are.
fn capsules_of(command: &str) -> &'static str {
    match command {
        "sweep" => "capsules that the depth-first run may have",
        _ => "capsules that the run may have",
    }
}

/// What the faults of a command are.
fn faults_of(command: &str) -> &'static str {
    match command {
        "sweep" => "faults put into a run at most",
        _ => "as 0@5s,1@9h: soft and hard faults (docs/PLANS.md)",
    }
}

/// What the takeover of a command is.
fn takeover_of(command: &str) -> &'static str {
    match command {
        "sweep" => "under which takeovers there are runs",
        _ => "what others take over of a processor that stopped",
    }
}

/// What the first act of a command is.
fn from_of(command: &str) -> &'static str {
    match command {
        "trace" => "acts that are made before the first one that is told",
        _ => "the first act before which a fault is put",
    }
}

/// What the acts of a command are.
fn acts_of(command: &str) -> &'static str {
    match command {
        "trace" => "acts that are told, at most",
        _ => "acts from there on before which one is put",
    }
}

/// What the seed of a command is.
fn seed_of(command: &str) -> &'static str {
    match command {
        "self" => "where values, random victims and drawn faults begin",
        "sweep" => "where the random acts begin",
        "strands" => "of the first schedule that is drawn",
        _ => "where the random victims begin",
    }
}

/// What the room of a command is.
fn room_of(command: &str) -> &'static str {
    match command {
        "stop" => "words of a place's pool, not reused; 4194304 in all",
        _ => "words of a place's pool, not reused; 67108864 in all",
    }
}

/// What stands in place of words that are not there yet.
const NO_WORDS: &str = "(no words for it yet)";
