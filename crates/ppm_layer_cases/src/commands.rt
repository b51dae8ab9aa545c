//! The commands that words ask for, as lines with all their options.
use crate::said::Said;
use ppm_cells::Takeover;
use ppm_cli::{
    Command, DrawnStrandsOptions, ExplainedOrders, ExplainedText, ReplayOptions, ResumeOptions,
    RunOptions, StopOptions, StrandsForm, SweepOptions, SweptTakeovers, TraceOptions, TracedForm,
    TracedLines, read_words,
};
use ppm_sheets::Fault;
use ppm_words::Idle;
use std::alloc::Global;

/// The word of a way to take over.
fn takeover_word(takeover: Takeover) -> &'static str {
    match takeover {
        Takeover::ByPlaces => "place",
        Takeover::ByEntries => "entry",
    }
}

/// The word of the takeovers of a sweep.
fn swept_word(takeover: SweptTakeovers) -> &'static str {
    match takeover {
        SweptTakeovers::ByPlaces => "place",
        SweptTakeovers::ByEntries => "entry",
        SweptTakeovers::Both => "both",
    }
}

/// The word of the form of a trace.
fn form_word(form: TracedForm) -> &'static str {
    match form {
        TracedForm::Text => "text",
        TracedForm::Json => "json",
        TracedForm::Svg => "svg",
    }
}

/// The word of the form of a run of strands.
fn strands_word(form: StrandsForm) -> &'static str {
    match form {
        StrandsForm::Arrays => "arrays",
        StrandsForm::Text => "text",
    }
}

/// The word of the lines of a trace.
fn lines_word(lines: TracedLines) -> &'static str {
    match lines {
        TracedLines::Turns => "turns",
        TracedLines::Rows => "rows",
        TracedLines::Marks => "marks",
    }
}

/// The word of a text that is explained.
fn explained_word(text: ExplainedText) -> &'static str {
    match text {
        ExplainedText::Source => "source",
        ExplainedText::Listing => "listing",
        ExplainedText::Case => "case",
        ExplainedText::Saved => "saved",
    }
}

/// The word of what is explained where nothing is read.
fn orders_word(orders: ExplainedOrders) -> &'static str {
    match orders {
        ExplainedOrders::Plan => "plan",
        ExplainedOrders::Schedule => "schedule",
    }
}

/// The word of what is done where there is no work.
fn idle_word(idle: Idle) -> &'static str {
    match idle {
        Idle::Leave => "leave",
        Idle::Park => "park",
    }
}

/// The command of these words, or that they are refused.
pub(crate) fn command(alloc: Global, words: &[String]) -> Result<Said, Fault> {
    match read_words(alloc, words) {
        Ok(Some(command)) => Ok(Said::Out(line_of(alloc, &command)?)),
        Ok(None) => Ok(Said::Refused(String::from_str(alloc, "words refused\n")?)),
        Err(_) => Err(Fault::NoMemory),
    }
}

/// The line of a command with the options of `run`.
fn run_line(alloc: Global, name: &str, it: &RunOptions) -> Result<String, Fault> {
    let (takeover, idle) = (takeover_word(it.takeover), idle_word(it.idle));
    let line = format!(in alloc;
        "{name} processors {} turns {} room {} slots {} looks {} seed {} takeover {takeover} idle {idle}",
        it.processors, it.turns, it.room, it.slots, it.looks, it.seed
    )?;
    Ok(line)
}

/// The line of a command with the options of `replay`.
fn replay_line(alloc: Global, name: &str, it: &ReplayOptions) -> Result<String, Fault> {
    let takeover = takeover_word(it.takeover);
    let line = format!(in alloc;
        "{name} processors {} turns {} room {} slots {} takeover {takeover}",
        it.processors, it.turns, it.room, it.slots
    )?;
    Ok(line)
}

/// The line of a command with the options of `stop`.
fn stop_line(alloc: Global, name: &str, it: &StopOptions) -> Result<String, Fault> {
    let line = format!(in alloc;
        "{name} processors {} after {} room {} slots {}",
        it.processors, it.after, it.room, it.slots
    )?;
    Ok(line)
}

/// The line of a command with the options of `resume`.
fn resume_line(alloc: Global, name: &str, it: &ResumeOptions) -> Result<String, Fault> {
    let line = format!(in alloc;
        "{name} turns {} looks {} seed {}",
        it.turns, it.looks, it.seed
    )?;
    Ok(line)
}

/// The line of a command with the options of `sweep`.
fn sweep_line(alloc: Global, name: &str, it: &SweepOptions) -> Result<String, Fault> {
    let takeover = swept_word(it.takeover);
    let line = format!(in alloc;
        "{name} processors {} turns {} room {} slots {} takeover {takeover} faults {} from {} acts {} runs {} seed {} capsules {}",
        it.processors,
        it.turns,
        it.room,
        it.slots,
        it.faults,
        it.from,
        it.acts,
        it.runs,
        it.seed,
        it.capsules
    )?;
    Ok(line)
}

/// The line of a command with the options of `trace`.
fn trace_line(alloc: Global, name: &str, it: &TraceOptions) -> Result<String, Fault> {
    let (takeover, form) = (takeover_word(it.takeover), form_word(it.form));
    let only = lines_word(it.only);
    let line = format!(in alloc;
        "{name} processors {} from {} acts {} room {} slots {} takeover {takeover} form {form} only {only}",
        it.processors, it.from, it.acts, it.room, it.slots
    )?;
    Ok(line)
}

/// The line of `strands` by drawn schedules.
fn drawn_line(alloc: Global, it: &DrawnStrandsOptions) -> Result<String, Fault> {
    let form = strands_word(it.form);
    let line = format!(in alloc;
        "strands turns {} form {form} runs {} seed {} strands {} steps {}",
        it.turns, it.runs, it.seed, it.strands, it.steps
    )?;
    Ok(line)
}

/// The line of a command: its name and its options, the plan or the schedule last.
fn line_of(alloc: Global, command: &Command) -> Result<Vec<u8>, Fault> {
    let mut plan: &[u8] = b"";
    let mut front = "";
    let line = match command {
        Command::Run(it, faults) => {
            front = " faults=";
            plan = faults.as_slice();
            run_line(alloc, "run", it)?
        }
        Command::RunCase(it, faults) => {
            front = " faults=";
            plan = faults.as_slice();
            run_line(alloc, "run of a case", it)?
        }
        Command::CountedRun(it, faults) => {
            front = " faults=";
            plan = faults.as_slice();
            run_line(alloc, "run with counts", it)?
        }
        Command::CountedRunCase(it, faults) => {
            front = " faults=";
            plan = faults.as_slice();
            run_line(alloc, "run of a case with counts", it)?
        }
        Command::Ram(it, faults) => {
            front = " faults=";
            plan = faults.as_slice();
            run_line(alloc, "ram", it)?
        }
        Command::Serial(it) => format!(in alloc; "serial turns {}", it.turns)?,
        Command::Code => String::from_str(alloc, "code")?,
        Command::CodeCase => String::from_str(alloc, "code with arrays")?,
        Command::Check => String::from_str(alloc, "check")?,
        Command::CheckRacing => String::from_str(alloc, "check of strands that may race")?,
        Command::Show => String::from_str(alloc, "show")?,
        Command::Explain(it) => format!(in alloc; "explain {}", explained_word(*it))?,
        Command::ExplainTrap(it) => format!(in alloc; "explain trap turns {}", it.turns)?,
        Command::ExplainOrders(it, orders) => {
            front = "=";
            plan = orders.as_slice();
            format!(in alloc;
                "explain processors {} {}",
                it.processors,
                orders_word(it.orders)
            )?
        }
        Command::Depth(it) => format!(in alloc; "depth capsules {}", it.capsules)?,
        Command::Races(it) => format!(in alloc; "races capsules {}", it.capsules)?,
        Command::Strands(it, schedule) => {
            front = " schedule=";
            plan = schedule.as_slice();
            format!(in alloc; "strands turns {} form {}", it.turns, strands_word(it.form))?
        }
        Command::DrawnStrands(it) => drawn_line(alloc, it)?,
        Command::Replay(it, schedule) => {
            front = " schedule=";
            plan = schedule.as_slice();
            replay_line(alloc, "replay", it)?
        }
        Command::ReplayCase(it, schedule) => {
            front = " schedule=";
            plan = schedule.as_slice();
            replay_line(alloc, "replay of a case", it)?
        }
        Command::CountedReplay(it, schedule) => {
            front = " schedule=";
            plan = schedule.as_slice();
            replay_line(alloc, "replay with counts", it)?
        }
        Command::CountedReplayCase(it, schedule) => {
            front = " schedule=";
            plan = schedule.as_slice();
            replay_line(alloc, "replay of a case with counts", it)?
        }
        Command::Example(it) => format!(in alloc;
            "self processors {} size {} seed {} count {}",
            it.processors, it.size, it.seed, it.count
        )?,
        Command::Stop(it, schedule) => {
            front = " schedule=";
            plan = schedule.as_slice();
            stop_line(alloc, "stop", it)?
        }
        Command::StopCase(it, schedule) => {
            front = " schedule=";
            plan = schedule.as_slice();
            stop_line(alloc, "stop of a case", it)?
        }
        Command::ReplaySaved(it, schedule) => {
            front = " schedule=";
            plan = schedule.as_slice();
            format!(in alloc; "replay of a saved text turns {}", it.turns)?
        }
        Command::CountedReplaySaved(it, schedule) => {
            front = " schedule=";
            plan = schedule.as_slice();
            format!(in alloc; "replay of a saved text with counts turns {}", it.turns)?
        }
        Command::StopSaved(it, schedule) => {
            front = " schedule=";
            plan = schedule.as_slice();
            format!(in alloc; "stop of a saved text after {}", it.after)?
        }
        Command::Sweep(it, schedule) => {
            front = " schedule=";
            plan = schedule.as_slice();
            sweep_line(alloc, "sweep", it)?
        }
        Command::SweepCase(it, schedule) => {
            front = " schedule=";
            plan = schedule.as_slice();
            sweep_line(alloc, "sweep of a case", it)?
        }
        Command::Trace(it, schedule) => {
            front = " schedule=";
            plan = schedule.as_slice();
            trace_line(alloc, "trace", it)?
        }
        Command::TraceSaved(it, schedule) => {
            front = " schedule=";
            plan = schedule.as_slice();
            format!(in alloc;
                "trace of a saved text from {} acts {} form {} only {}",
                it.from,
                it.acts,
                form_word(it.form),
                lines_word(it.only)
            )?
        }
        Command::TraceCase(it, schedule) => {
            front = " schedule=";
            plan = schedule.as_slice();
            trace_line(alloc, "trace of a case", it)?
        }
        Command::Resume(it, faults) => {
            front = " faults=";
            plan = faults.as_slice();
            resume_line(alloc, "resume", it)?
        }
        Command::CountedResume(it, faults) => {
            front = " faults=";
            plan = faults.as_slice();
            resume_line(alloc, "resume with counts", it)?
        }
    };
    let mut text = line.as_bytes().to_vec(alloc)?;
    text.extend_from_slice(front.as_bytes())?;
    text.extend_from_slice(plan)?;
    text.push(b'\n')?;
    Ok(text)
}
