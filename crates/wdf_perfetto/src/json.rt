//! Rows as JSON.
ghost use Rattle.std.specs.Prelude.{◌≡◌, ◌^◌, ◌<◌, List, codes, map, length, string_bytes, Some, IfOk};
ghost use Rattle.serde_json.specs.Data.{object, member, no_members, string};
ghost use Rattle.serde_json.specs.Read.{read};
ghost use Rattle.serde_json.specs.View.{view, members_view};
ghost use Rattle.wdf_perfetto.specs.Titles.{group_number, group_word, sort_word};
ghost use Rattle.wdf_perfetto.specs.Rows.{names_data, name_data, slice_data, span_data, mark_data, counter_data, clock_data, count, written, line_written, row_data, document_data};

use crate::members::{Members, with, with_number, with_text};
use crate::row::{Group, Row, Sort, Title, Track};
use crate::rows::rows_of;
use crate::titles::{line_at, title_text};
use serde_json::{Map, Value};
use std::alloc::Global;
use wdf_base::{Event, Handle, Memory, Plan};

/// The arguments that show a text under a key.
fn text_argument(alloc: Global, key: &'static str, text: &str) -> Result<Value, Memory>
    ensures { IfOk result (λ v. view v ≡ object (member key.now (string text.now) no_members)) }
{
    let members = with_text(alloc, Map::new(alloc), key, text)?;
    Ok(Value::Object(members))
}

/// The members that each row has: its arguments, its name, the letter of its phase and its group.
fn row_members(
    alloc: Global,
    arguments: Value,
    name: &str,
    letter: &str,
    group: Group,
) -> Result<Members, Memory>
    ensures { IfOk result (λ m. members_view m.entries ≡ member (codes "args") (view arguments) (member (codes "name") (string name.now) (member (codes "ph") (string letter.now) (member (codes "pid") (count (group_number group)) no_members)))) }
{
    let members = with(alloc, Map::new(alloc), "args", arguments)?;
    let members = with_text(alloc, members, "name", name)?;
    let members = with_text(alloc, members, "ph", letter)?;
    with_number(alloc, members, "pid", group.number())
}

/// The JSON of a group's name.
fn names_value(alloc: Global, group: Group) -> Result<Value, Memory>
    ensures { IfOk result (λ v. view v ≡ names_data (group_word group) (group_number group)) }
{
    let name = text_argument(alloc, "name", group.word())?;
    let members = row_members(alloc, name, "process_name", "M", group)?;
    Ok(Value::Object(members))
}

/// The JSON of a track's name.
fn name_value(alloc: Global, name: &str, track: Track) -> Result<Value, Memory>
    ensures { IfOk result (λ v. view v ≡ name_data name.now (group_number track.group) track.number) }
{
    let name = text_argument(alloc, "name", name)?;
    let members = row_members(alloc, name, "thread_name", "M", track.group)?;
    let members = with_number(alloc, members, "tid", u64::from(track.number))?;
    Ok(Value::Object(members))
}

/// The JSON of a slice, which begins at a slot and is so long.
fn slice_value(
    alloc: Global,
    name: &str,
    line: &str,
    track: Track,
    from: u64,
    length: u64,
) -> Result<Value, Memory>
    ensures { IfOk result (λ v. view v ≡ slice_data name.now line.now (group_number track.group) track.number from length) }
{
    let line = text_argument(alloc, "line", line)?;
    let members = row_members(alloc, line, name, "X", track.group)?;
    let members = with_number(alloc, members, "dur", length)?;
    let members = with_number(alloc, members, "tid", u64::from(track.number))?;
    let members = with_number(alloc, members, "ts", from)?;
    Ok(Value::Object(members))
}

/// A span beside the tracks, by its sort and its key.
#[derive(Clone, Copy)]
struct Key {
    sort: Sort,
    key: u32,
}

/// The JSON of a begin, an end or a moment of a span beside the tracks.
fn span_value(
    alloc: Global,
    letter: &str,
    name: &str,
    line: &str,
    of: Key,
    at: u32,
) -> Result<Value, Memory>
    ensures { IfOk result (λ v. view v ≡ span_data letter.now name.now line.now (sort_word of.sort) of.key (group_number Group.Requests) at) }
{
    let line = text_argument(alloc, "line", line)?;
    let members = row_members(alloc, line, name, letter, Group::Requests)?;
    let members = with_text(alloc, members, "cat", of.sort.word())?;
    let members = with_number(alloc, members, "id", u64::from(of.key))?;
    let members = with_number(alloc, members, "tid", 0)?;
    let members = with_number(alloc, members, "ts", u64::from(at))?;
    Ok(Value::Object(members))
}

/// The JSON of a moment on a track.
fn mark_value(alloc: Global, name: &str, line: &str, track: Track, at: u32) -> Result<Value, Memory>
    ensures { IfOk result (λ v. view v ≡ mark_data name.now line.now (group_number track.group) track.number at) }
{
    let line = text_argument(alloc, "line", line)?;
    let members = row_members(alloc, line, name, "i", track.group)?;
    let members = with_text(alloc, members, "s", "t")?;
    let members = with_number(alloc, members, "tid", u64::from(track.number))?;
    let members = with_number(alloc, members, "ts", u64::from(at))?;
    Ok(Value::Object(members))
}

/// The arguments that show two counts.
fn counts_argument(alloc: Global, waiting: u32, held: u32) -> Result<Value, Memory>
    ensures { IfOk result (λ v. view v ≡ object (member (codes "held") (count held) (member (codes "waiting") (count waiting) no_members))) }
{
    let members = with_number(alloc, Map::new(alloc), "held", u64::from(held))?;
    let members = with_number(alloc, members, "waiting", u64::from(waiting))?;
    Ok(Value::Object(members))
}

/// The JSON of a counter with these arguments.
fn counter_value(
    alloc: Global,
    name: &str,
    arguments: Value,
    group: Group,
    at: u32,
) -> Result<Value, Memory>
    ensures { IfOk result (λ v. view v ≡ counter_data name.now (view arguments) (group_number group) at) }
{
    let members = row_members(alloc, arguments, name, "C", group)?;
    let members = with_number(alloc, members, "ts", u64::from(at))?;
    Ok(Value::Object(members))
}

/// The JSON of the time of the clock.
fn clock_value(alloc: Global, time: u64, at: u32) -> Result<Value, Memory>
    ensures { IfOk result (λ v. view v ≡ clock_data time (group_number Group.Processors) at) }
{
    let members = with_number(alloc, Map::new(alloc), "tick", time)?;
    counter_value(
        alloc,
        "clock",
        Value::Object(members),
        Group::Processors,
        at,
    )
}

/// A run that is shown.
#[derive(Clone, Copy)]
struct Shown<'a> {
    plan: &'a Plan,
    events: &'a [Event],
}

/// The JSON of a begin, an end or a moment, with its texts.
fn span(
    alloc: Global,
    shown: &Shown,
    letter: &str,
    of: Key,
    title: Title,
    at: u32,
    number: u32,
) -> Result<Value, Memory>
    ensures { IfOk result (λ v. view v ≡ span_data letter.now (written shown.now.plan.now title) (line_written shown.now.plan.now shown.now.events.now number)
        (sort_word of.sort) of.key (group_number Group.Requests) at) }
{
    let name = title_text(alloc, shown.plan, title)?;
    let line = line_at(alloc, shown.plan, shown.events, number)?;
    span_value(alloc, letter, name.as_str(), line.as_str(), of, at)
}

/// The JSON of a slice, with its texts.
fn slice(
    alloc: Global,
    shown: &Shown,
    track: Track,
    title: Title,
    from: u32,
    to: u32,
    number: u32,
) -> Result<Value, Memory>
    ensures { IfOk result (λ v. view v ≡ row_data shown.now.plan.now shown.now.events.now (Row.Slice track title from to number)) }
{
    let name = title_text(alloc, shown.plan, title)?;
    let line = line_at(alloc, shown.plan, shown.events, number)?;
    let length = u64::from(to.saturating_sub(from));
    slice_value(
        alloc,
        name.as_str(),
        line.as_str(),
        track,
        u64::from(from),
        length,
    )
}

/// The JSON of a moment on a track, with its texts.
fn mark(
    alloc: Global,
    shown: &Shown,
    track: Track,
    title: Title,
    at: u32,
    number: u32,
) -> Result<Value, Memory>
    ensures { IfOk result (λ v. view v ≡ row_data shown.now.plan.now shown.now.events.now (Row.Mark track title at number)) }
{
    let name = title_text(alloc, shown.plan, title)?;
    let line = line_at(alloc, shown.plan, shown.events, number)?;
    mark_value(alloc, name.as_str(), line.as_str(), track, at)
}

/// The JSON of a track's name, with its text.
fn name(alloc: Global, shown: &Shown, track: Track, title: Title) -> Result<Value, Memory>
    ensures { IfOk result (λ v. view v ≡ row_data shown.now.plan.now shown.now.events.now (Row.Name track title)) }
{
    let name = title_text(alloc, shown.plan, title)?;
    name_value(alloc, name.as_str(), track)
}

/// The JSON of the counts of a queue, with its name.
fn counts(
    alloc: Global,
    shown: &Shown,
    queue: Handle,
    waiting: u32,
    held: u32,
    at: u32,
) -> Result<Value, Memory>
    ensures { IfOk result (λ v. view v ≡ row_data shown.now.plan.now shown.now.events.now (Row.Counts queue waiting held at)) }
{
    let name = title_text(alloc, shown.plan, Title::Object(queue))?;
    let arguments = counts_argument(alloc, waiting, held)?;
    counter_value(alloc, name.as_str(), arguments, Group::Queues, at)
}

/// The JSON of a row.
fn row_value(alloc: Global, shown: &Shown, row: Row) -> Result<Value, Memory>
    ensures { IfOk result (λ v. view v ≡ row_data shown.now.plan.now shown.now.events.now row) }
{
    match row {
        Row::Names(group) => names_value(alloc, group),
        Row::Name { track, title } => name(alloc, shown, track, title),
        Row::Slice {
            track,
            title,
            from,
            to,
            number,
        } => slice(alloc, shown, track, title, from, to, number),
        Row::Begin {
            sort,
            key,
            title,
            at,
            number,
        } => span(alloc, shown, "b", Key { sort, key }, title, at, number),
        Row::Finish {
            sort,
            key,
            title,
            at,
        } => span(alloc, shown, "e", Key { sort, key }, title, at, 0),
        Row::Moment {
            sort,
            key,
            title,
            at,
            number,
        } => span(alloc, shown, "n", Key { sort, key }, title, at, number),
        Row::Mark {
            track,
            title,
            at,
            number,
        } => mark(alloc, shown, track, title, at, number),
        Row::Counts {
            queue,
            waiting,
            held,
            at,
        } => counts(alloc, shown, queue, waiting, held, at),
        Row::Clock { time, at } => clock_value(alloc, time, at),
    }
}

/// The JSON of rows, in their order.
fn row_values(alloc: Global, shown: &Shown, rows: &[Row]) -> Result<Vec<Value>, Memory>
    ensures { IfOk result (λ values. map view values.items ≡ map (row_data shown.now.plan.now shown.now.events.now) rows.now) }
{
    let mut values = Vec::new(alloc);
    for row in rows {
        match row_value(alloc, shown, *row) {
            Ok(value) => values.push(value)?,
            Err(memory) => return Err(memory),
        }
    }
    Ok(values)
}

/// The JSON of a run whose rows these are.
fn document_value(alloc: Global, shown: &Shown, rows: &[Row]) -> Result<Value, Memory>
    ensures { IfOk result (λ v. view v ≡ document_data shown.now.plan.now shown.now.events.now rows.now) }
{
    let values = row_values(alloc, shown, rows)?;
    let members = with(alloc, Map::new(alloc), "traceEvents", Value::Array(values))?;
    Ok(Value::Object(members))
}

/// The text of a run whose rows these are.
///
/// # Errors
///
/// [`Memory`] where memory was refused.
pub fn document(
    alloc: Global,
    plan: &Plan,
    events: &[Event],
    rows: &[Row],
) -> Result<String, Memory>
    // It is JSON, and what a reader reads in it is what the rows say.
    ensures { IfOk result (λ text. read (string_bytes text) ≡ Some (document_data plan.now events.now rows.now)) }
{
    let shown = Shown { plan, events };
    let value = document_value(alloc, &shown, rows)?;
    let text = value.to_string(alloc)?;
    Ok(text)
}

/// The trace-event JSON of a run.
///
/// # Errors
///
/// [`Memory`] where memory was refused.
pub fn perfetto(alloc: Global, plan: &Plan, events: &[Event]) -> Result<String, Memory>
    requires { length events.now < 2 ^ 32 }
    ensures { IfOk result (λ text. (rows : List Row) × (read (string_bytes text) ≡ Some (document_data plan.now events.now rows))) }
{
    let rows = rows_of(alloc, plan, events)?;
    document(alloc, plan, events, rows.as_slice())
}
