//! A turn as events of the trace event format.
ghost use Rattle.std.specs.Prelude.{◌≡◌, ◌++◌, ◌+◌, ◌<◌, ◌^◌, [], OnOk};
ghost use Rattle.std.specs.List.{flat_map};
ghost use Rattle.ppm_cells.specs.declared.shape.Shape.{Shape};
ghost use Rattle.ppm_code.specs.declared.code.CodeParts.{CodeParts};
ghost use Rattle.ppm_lines.specs.Events.{begin_text, begun_at, closed_by, end_text, events_at};
ghost use Rattle.ppm_lines.specs.Events.{flow_event, flow_text, instant_text, mark_event};
ghost use Rattle.ppm_lines.specs.Events.{moment_of, opened, opened_by, slice_name, time_text};
ghost use Rattle.ppm_lines.specs.Marks.{listed, listed_one, marks_at as marks_by};
ghost use Rattle.ppm_step.specs.Among.{IsTurnAmong};
ghost use Rattle.ppm_step.specs.Locals.{IsLocal, standing_of};

use crate::doing::{Doing, doing_of, push_of_row};
use crate::edge::{Edge, edge_of, is_in_row};
use crate::flow::{Flow, flow_at};
use crate::mark::{Mark, Marks};
use crate::marking::marks_at;
use crate::name::{push_named, push_word};
use crate::scene::Scene;
use ppm_cells::RestartKind;
use ppm_naming::restart_name;
use ppm_pieces::push_number;
use ppm_step::{Local, Turn};
use ppm_words::NoMemory;

/// When an act happens: how many acts came before it, who acts, and the place that it carries.
#[derive(Clone, Copy, Debug, PartialEq, Eq)]
pub struct Moment {
    pub number: u64,
    pub processor: u32,
    pub place: u32,
}

/// Appends of which thread an event is, and at what time.
fn push_time(text: &mut Vec<u8>, processor: u32, time: u64) -> Result<(), NoMemory>
    ensures { OnOk result (text.new.items ≡ text.old.items ++ time_text processor time) }
{
    push_word(text, ",\"pid\":0,\"tid\":")?;
    push_number(text, u64::from(processor))?;
    push_word(text, ",\"ts\":")?;
    push_number(text, time)?;
    Ok(())
}

/// Appends the name of a row.
fn push_slice_name(text: &mut Vec<u8>, scene: &Scene, kind: RestartKind) -> Result<(), NoMemory>
    ensures { OnOk result (text.new.items ≡ text.old.items ++ slice_name scene.now kind) }
{
    match kind {
        RestartKind::Run { frame, .. } => {
            push_named(text, scene.names(), scene.procedure_of(frame))
        },
        RestartKind::Bump { .. }
        | RestartKind::Push1 { .. }
        | RestartKind::Push2 { .. }
        | RestartKind::Unwind { .. }
        | RestartKind::Arrive { .. }
        | RestartKind::Join { .. }
        | RestartKind::Pop1
        | RestartKind::Pop2 { .. }
        | RestartKind::Seek
        | RestartKind::Steal { .. }
        | RestartKind::Check { .. }
        | RestartKind::Take { .. }
        | RestartKind::Take2 { .. } => push_word(text, restart_name(kind)),
    }
}

/// Appends the beginning of a row.
fn push_begin(
    text: &mut Vec<u8>,
    scene: &Scene,
    moment: Moment,
    kind: RestartKind,
) -> Result<(), NoMemory>
    ensures { OnOk result (text.new.items
        ≡ text.old.items ++ begin_text scene.now moment kind) }
{
    push_word(text, ",\n{\"ph\":\"B\",\"cat\":\"")?;
    push_word(text, restart_name(kind))?;
    push_word(text, "\",\"name\":\"")?;
    push_slice_name(text, scene, kind)?;
    push_word(text, "\"")?;
    push_time(text, moment.processor, moment.number)?;
    push_word(text, ",\"args\":{\"of\":\"")?;
    push_of_row(text, scene, kind)?;
    push_word(text, "\",\"place\":")?;
    push_number(text, u64::from(moment.place))?;
    push_word(text, "}}")?;
    Ok(())
}

/// Appends its end.
fn push_end(text: &mut Vec<u8>, moment: Moment) -> Result<(), NoMemory>
    requires { moment.number < 2 ^ 63 }
    ensures { OnOk result (text.new.items ≡ text.old.items ++ end_text moment) }
{
    push_word(text, ",\n{\"ph\":\"E\"")?;
    push_time(text, moment.processor, moment.number + 1)?;
    push_word(text, "}")?;
    Ok(())
}

/// Appends an end of an arrow.
fn push_flow(text: &mut Vec<u8>, moment: Moment, flow: Flow) -> Result<(), NoMemory>
    ensures { OnOk result (text.new.items ≡ text.old.items ++ flow_text moment flow) }
{
    push_word(text, ",\n{\"ph\":\"")?;
    push_word(text, flow.phase())?;
    push_word(text, "\",\"cat\":\"")?;
    push_word(text, flow.name())?;
    push_word(text, "\",\"name\":\"")?;
    push_word(text, flow.name())?;
    push_word(text, "\",\"id\":")?;
    push_number(text, flow.id())?;
    push_time(text, moment.processor, moment.number)?;
    push_word(text, "}")?;
    Ok(())
}

/// Appends an end of an arrow, if there is one.
fn push_flow_event(text: &mut Vec<u8>, moment: Moment, flow: Option<Flow>) -> Result<(), NoMemory>
    ensures { OnOk result (text.new.items ≡ text.old.items ++ flow_event moment flow) }
{
    match flow {
        None => Ok(()),
        Some(flow) => push_flow(text, moment, flow),
    }
}

/// Appends a point in time.
fn push_instant(text: &mut Vec<u8>, moment: Moment, name: &str) -> Result<(), NoMemory>
    ensures { OnOk result (text.new.items ≡ text.old.items ++ instant_text moment name.now) }
{
    push_word(
        text,
        ",\n{\"ph\":\"i\",\"s\":\"t\",\"cat\":\"mark\",\"name\":\"",
    )?;
    push_word(text, name)?;
    push_word(text, "\"")?;
    push_time(text, moment.processor, moment.number)?;
    push_word(text, ",\"args\":{\"place\":")?;
    push_number(text, u64::from(moment.place))?;
    push_word(text, "}}")?;
    Ok(())
}

/// Appends a mark that is a point in time.
fn push_mark_event(text: &mut Vec<u8>, moment: Moment, mark: Mark) -> Result<(), NoMemory>
    ensures { OnOk result (text.new.items ≡ text.old.items ++ mark_event moment mark) }
{
    match mark {
        Mark::Soft => push_instant(text, moment, "soft fault"),
        Mark::Hard => push_instant(text, moment, "hard fault"),
        Mark::Won => push_instant(text, moment, "theft won"),
        Mark::Lost => push_instant(text, moment, "theft lost"),
        Mark::Carries => push_instant(text, moment, "takeover"),
        Mark::Heir => push_instant(text, moment, "heir"),
        Mark::End => push_instant(text, moment, "end"),
        Mark::Fork
        | Mark::Push
        | Mark::Pop
        | Mark::Try
        | Mark::Inherit
        | Mark::Take
        | Mark::First
        | Mark::Last
        | Mark::Inline
        | Mark::Bid
        | Mark::Outbid
        | Mark::Done => Ok(()),
    }
}

/// Appends a mark that is a point in time, if there is one.
fn push_marked_one(text: &mut Vec<u8>, moment: Moment, mark: Option<Mark>) -> Result<(), NoMemory>
    ensures { OnOk result (text.new.items
        ≡ text.old.items ++ flat_map (mark_event moment) (listed_one mark)) }
{
    match mark {
        None => Ok(()),
        Some(mark) => push_mark_event(text, moment, mark),
    }
}

/// Appends the marks that are points in time.
fn push_mark_events(text: &mut Vec<u8>, moment: Moment, marks: Marks) -> Result<(), NoMemory>
    ensures { OnOk result (text.new.items
        ≡ text.old.items ++ flat_map (mark_event moment) (listed marks)) }
{
    push_marked_one(text, moment, marks.first)?;
    push_marked_one(text, moment, marks.second)
}

/// Appends the beginning of the row that a processor is at.
fn push_opened(
    text: &mut Vec<u8>,
    scene: &Scene,
    moment: Moment,
    doing: Doing,
) -> Result<(), NoMemory>
    ensures { OnOk result (text.new.items ≡ text.old.items ++ opened scene.now moment doing) }
{
    match doing {
        Doing::InRow(kind) => push_begin(text, scene, moment, kind),
        Doing::Lost | Doing::Placed | Doing::Broken | Doing::Done => Ok(()),
    }
}

/// Appends the beginning of a row, where one begins.
fn push_opened_by(
    text: &mut Vec<u8>,
    scene: &Scene,
    moment: Moment,
    doing: Doing,
    edge: Edge,
) -> Result<(), NoMemory>
    ensures { OnOk result (text.new.items
        ≡ text.old.items ++ opened_by scene.now moment doing edge) }
{
    match edge {
        Edge::Begins => push_opened(text, scene, moment, doing),
        Edge::Ends | Edge::Stays => Ok(()),
    }
}

/// Appends the end of a row, where one ends.
fn push_closed_by(text: &mut Vec<u8>, moment: Moment, edge: Edge) -> Result<(), NoMemory>
    requires { moment.number < 2 ^ 63 }
    ensures { OnOk result (text.new.items ≡ text.old.items ++ closed_by moment edge) }
{
    match edge {
        Edge::Ends => push_end(text, moment),
        Edge::Begins | Edge::Stays => Ok(()),
    }
}

/// Who acts, from where, and after how many acts.
fn moment_of(number: u64, local: &Local) -> Moment
    ensures { (s : Shape) (code : CodeParts)
        → result ≡ moment_of number local.now.own (standing_of s code local.now) }
{
    Moment {
        number,
        processor: local.own,
        place: local.place(),
    }
}

/// Appends the events of a turn that comes after so many, where `local` is its processor before it.
/// `Err` only where memory is refused.
pub fn push_events(
    text: &mut Vec<u8>,
    scene: &Scene,
    number: u64,
    local: &Local,
    turn: Turn,
) -> Result<(), NoMemory>
    requires local { IsLocal scene.now.shape scene.now.code local.now }
    requires own { local.now.own ≡ turn.processor }
    requires among { IsTurnAmong scene.now.shape.processors turn }
    requires number { number < 2 ^ 63 }
    ensures { OnOk result (text.new.items
        ≡ text.old.items ++ events_at scene.now turn (standing_of scene.now.shape scene.now.code local.now) number) }
{
    let moment = moment_of(number, local);
    let edge = edge_of(scene, local, turn);
    push_opened_by(text, scene, moment, doing_of(local), edge)?;
    push_flow_event(text, moment, flow_at(scene, local, turn.act))?;
    let marks = marks_at(scene.words(), scene.shape(), scene.code(), local, turn.act);
    push_mark_events(text, moment, marks)?;
    push_closed_by(text, moment, edge)
}

/// Appends the beginning of the row within which a processor stands after so many acts, for what is
/// told from there on. `Err` only where memory is refused.
pub fn push_begun(
    text: &mut Vec<u8>,
    scene: &Scene,
    number: u64,
    local: &Local,
) -> Result<(), NoMemory>
    ensures { OnOk result (text.new.items
        ≡ text.old.items ++ begun_at scene.now number local.now.own (standing_of scene.now.shape scene.now.code local.now)) }
{
    if !is_in_row(local) {
        return Ok(());
    }
    push_opened(text, scene, moment_of(number, local), doing_of(local))
}
