//! The statuses, one in a line.

use ppm_answers::Status;
use std::io;

/// All statuses of the program, by their numbers.
const STATUSES: [Status; 14] = [
    Status::Ended,
    Status::Trapped,
    Status::SourceRefused,
    Status::WordsRefused,
    Status::OutOfTurns,
    Status::OutOfRoom,
    Status::ReadFault,
    Status::WriteFault,
    Status::NoMemory,
    Status::CodeRefused,
    Status::NotWithin,
    Status::SavedRefused,
    Status::Broken,
    Status::Differs,
];

/// Prints what the program and the script end with.
pub(crate) fn print_statuses(rt: &impl Print) -> io::Result<()> {
    println!(rt;
        "statuses, with what stands on out at 0 and 1, on err at the others; at 8 a front of it"
    )?;
    for status in &STATUSES {
        println!(rt; "  {:>3}  {}", status.number(), meaning_of(*status))?;
    }
    println!(rt;
        "  125  the script ./ppm has no program to run, or no rt for the gate; err says why"
    )?;
    println!(rt;
        "  130  the build or the gate was interrupted (143: ended); else `gate` ends as `rt ci`"
    )
}

/// What a status says.
fn meaning_of(status: Status) -> &'static str {
    match status {
        Status::Ended => {
            "ended: the arrays, and of `replay` its forks and takes, of `depth` its counts; of `code`\n       \
             the listing or the case; of `check` and `explain` `ok`, of `races` the line `sound: ..`, of\n       \
             `sweep` the line `ok: R runs, M met, A acts`, and with more than 0 `, L left out`;\n       \
             of `strands` its lines too, or `ok: R runs` (docs/RACES.md);\n       \
             of `stop` the saved text (docs/SAVED.md); of `trace` the trace (docs/TRACE.md); of `show`\n       \
             the state's lines (docs/SHOW.md); of `self` `size n forks g sum s last l`;\n       \
             of `ram` a line `m v ..`"
        }
        Status::Trapped => {
            "trapped: `trap K line N`, K being overflow, divzero, index or split; of `replay`\n       \
             its forks and takes too, of `depth` its counts, of `explain` what names stand for there"
        }
        Status::SourceRefused => {
            "source refused: the fault and its place (docs/LANGUAGE.md, \"Refusals\"); of `ram` the\n       \
             fault and its line (docs/RAM.md)"
        }
        Status::WordsRefused => {
            "words refused; or of a plan or a schedule `plan refused: N`, by N: 1 an item has\n       \
             no form, 2 a processor or a victim is not there, 3 more than 4,096 items, 4 no\n       \
             processor is spared, as by a hard fault where there is one processor"
        }
        Status::OutOfTurns => {
            "of `run`, `ram` and `resume` `out of turns: processor C`, which spent --turns; of\n       \
             `replay` and `strands` `unfinished after N turns`"
        }
        Status::OutOfRoom => {
            "out of room: the run needed more words than the pool of that place has, which are\n       \
             --room, or with a saved text as many as that says"
        }
        Status::ReadFault => "read fault: standard input failed",
        Status::WriteFault => "write fault: standard output or standard error failed",
        Status::NoMemory => "out of memory",
        Status::CodeRefused => {
            "code refused: of `check`, `depth` or `races` a conflict, a gap, an untidy store or a race,\n       \
             the first one, of `sweep` and `strands` an untidy store, of `strands` a run with `fallen: ..`,\n       \
             a change that did not stand; of these, and wherever `--input case` stands, why what was read is no\n       \
             listing or no case (docs/CODE.md)"
        }
        Status::NotWithin => {
            "not within: `serial` or `explain` did not end within --turns, or the depth-first run of\n       \
             `depth`, `races` or `sweep` within --capsules"
        }
        Status::SavedRefused => { "saved text refused: the fault and its line (docs/SAVED.md)" }
        Status::Broken => {
            "saved words broken: place P, of a case that isn't sound, of `resume`, and wherever\n       \
             `--input saved` stands: the machine can't go on from a word at place P; P is 64 where\n       \
             no place is known, or where the saved finish word means nothing"
        }
        Status::Differs => {
            "of `sweep` `differs: SCHEDULE`, a line `takeover ..`, and what `replay` says of that\n       \
             run: it came to something else than the depth-first run"
        }
    }
}
