//! The page.
ghost use Rattle.std.specs.Prelude.{◌<◌, ◌^◌, length};

use crate::drawn::{push_attribute, push_line, push_merged, push_object, push_rows, push_shapes};
use crate::lanes::Lanes;
use crate::layout::{MERGED_FROM, Scale, lanes_of};
use crate::script::SCRIPT;
use crate::shape::{Lane, LaneName, Shape};
use crate::style::STYLE;
use crate::waits::push_waits;
use std::alloc::Global;
use wdf_base::{Ending, Event, Memory, Plan, WaitLine};
use wdf_lines::{ending_word, line_of};
use wdf_page::Page;

/// A run that is told: its events, how it ended, and its wait list.
#[derive(Drop)]
pub struct Told<'a> {
    pub events: &'a [Event],
    pub ending: Ending,
    pub waits: &'a [WaitLine],
}

/// Adds the name of a lane.
fn push_name(page: &mut Page, plan: &Plan, lane: &Lane) -> Result<(), Memory> {
    push_attribute(
        page,
        "<text class=\"lane\" x=\"6\" y=\"",
        u64::from(lane.y.saturating_add(14)),
    )?;
    match lane.name {
        LaneName::Word(word) => {
            page.markup(" data-o=\"0\">")?;
            page.markup(word)?;
        }
        LaneName::Cpu(cpu) => {
            page.markup(" data-o=\"0\">cpu")?;
            page.number(u64::from(cpu))?;
        }
        LaneName::Object(kind, object) => {
            push_attribute(page, " data-o=\"", u64::from(object.id.0))?;
            page.markup(">")?;
            page.markup(kind)?;
            push_object(page, plan, object)?;
        }
    }
    page.markup("</text>\n")
}

/// Adds the names of the lanes.
fn push_names(page: &mut Page, plan: &Plan, lanes: &Lanes) -> Result<(), Memory> {
    push_attribute(
        page,
        "<svg id=\"names\" width=\"150\" height=\"",
        u64::from(lanes.height.saturating_add(24)),
    )?;
    page.markup(">\n<g transform=\"translate(0 24)\">\n")?;
    for lane in &lanes.lanes {
        push_name(page, plan, lane)?;
    }
    page.markup("</g></svg>\n")
}

/// Adds a line below each lane.
fn push_rules(page: &mut Page, lanes: &[Lane]) -> Result<(), Memory> {
    for lane in lanes {
        let y = u64::from(lane.y.saturating_add(lane.height).saturating_sub(1));
        push_attribute(page, "<line class=\"rule\" x1=\"0\" x2=\"100%\" y1=\"", y)?;
        push_attribute(page, " y2=\"", y)?;
        page.markup("/>\n")?;
    }
    Ok(())
}

/// How many slots are from one number of the ruler to the next.
fn step_of(slots: u32) -> u32
    ensures { 0 < result }
{
    if slots <= 12 {
        1
    } else if slots <= 60 {
        5
    } else if slots <= 600 {
        10
    } else if slots <= 5_000 {
        100
    } else {
        5_000
    }
}

/// Adds the ruler of event numbers.
fn push_ruler(page: &mut Page, scale: &Scale) -> Result<(), Memory> {
    let step = step_of(scale.slots);
    page.markup("<g id=\"ruler\">\n")?;
    for k in 0..(scale.slots.saturating_sub(1) / step).saturating_add(1) {
        let slot = k.saturating_mul(step);
        push_attribute(
            page,
            "<text class=\"number\" y=\"14\" data-a=\"",
            u64::from(slot),
        )?;
        push_attribute(page, " x=\"", scale.x(slot))?;
        page.markup(">")?;
        page.number(u64::from(slot) + 1)?;
        page.markup("</text>\n")?;
    }
    page.markup("</g>\n")
}

/// Adds the picture of the lanes.
fn push_plot(
    alloc: Global,
    page: &mut Page,
    plan: &Plan,
    events: &[Event],
    scale: &Scale,
    lanes: &Lanes,
) -> Result<(), Memory> {
    push_attribute(
        page,
        "<svg id=\"plot\" width=\"",
        u64::from(scale.width) + 20,
    )?;
    push_attribute(
        page,
        " height=\"",
        u64::from(lanes.height.saturating_add(24)),
    )?;
    push_attribute(page, " data-slots=\"", u64::from(scale.slots))?;
    push_attribute(page, " data-width=\"", u64::from(scale.width))?;
    page.markup(
        ">\n<defs><pattern id=\"hatch\" width=\"6\" height=\"6\" patternUnits=\"userSpaceOnUse\" patternTransform=\"rotate(45)\"><rect class=\"stripe\" width=\"2.5\" height=\"6\"/></pattern></defs>\n",
    )?;
    push_ruler(page, scale)?;
    page.markup("<g transform=\"translate(0 24)\">\n")?;
    push_rules(page, lanes.lanes.as_slice())?;
    page.markup("<g id=\"shapes\">\n")?;
    if scale.slots > MERGED_FROM {
        push_merged(alloc, page, plan, events, scale, lanes.shapes.as_slice())?;
    } else {
        push_shapes(page, plan, events, scale, lanes.behind.as_slice())?;
        push_shapes(page, plan, events, scale, lanes.shapes.as_slice())?;
    }
    page.markup("</g></g></svg>\n")
}

/// Adds all shapes of a large run, for the script.
fn push_all(page: &mut Page, plan: &Plan, scale: &Scale, shapes: &[Shape]) -> Result<(), Memory> {
    if scale.slots <= MERGED_FROM {
        return Ok(());
    }
    page.markup("<pre id=\"all\" hidden>\n")?;
    push_rows(page, plan, shapes)?;
    page.markup("</pre>\n")
}

/// Adds the trace line by line.
fn push_lines(page: &mut Page, plan: &Plan, events: &[Event]) -> Result<(), Memory> {
    page.markup("<details><summary>The trace</summary>\n<pre id=\"lines\">")?;
    let mut number: usize = 1;
    for event in events {
        page.text(line_of(plan, number, event).bytes())?;
        page.markup("\n")?;
        number = number.saturating_add(1);
    }
    page.markup("</pre></details>\n")
}

/// What the ending of a run means.
fn meaning_of(ending: Ending) -> &'static str {
    match ending {
        Ending::Running => "The run goes on.",
        Ending::Finished => "The run finished: nothing is open.",
        Ending::Fault(_) => "The run ended in a fault of the driver, at the red mark.",
        Ending::Stuck => "The run is stuck: something is open, and nothing can happen.",
        Ending::Limit => "The run was cut off at its limit of events.",
    }
}

/// Adds the head of the page.
fn push_head(page: &mut Page, plan: &Plan, told: &Told) -> Result<(), Memory>
    requires { length told.now.events.now < 2 ^ 32 }
{
    page.markup(
        "<!DOCTYPE html>\n<html lang=\"en\">\n<head>\n<meta charset=\"utf-8\">\n<meta name=\"viewport\" content=\"width=device-width, initial-scale=1\">\n<link rel=\"icon\" href=\"data:,\">\n<title>",
    )?;
    push_ending(page, told)?;
    page.markup("</title>\n<style>\n")?;
    page.markup(STYLE)?;
    page.markup("</style>\n</head>\n<body>\n<header><h1>")?;
    push_ending(page, told)?;
    page.markup("</h1><p>")?;
    page.markup(meaning_of(told.ending))?;
    page.markup("</p>")?;
    push_last(page, plan, told)?;
    page.markup("</header>\n")
}

/// Adds the line of the fault, where the run ends in one.
fn push_last(page: &mut Page, plan: &Plan, told: &Told) -> Result<(), Memory>
    requires { length told.now.events.now < 2 ^ 32 }
{
    if let Ending::Fault(_) = told.ending {
        page.markup("<p class=\"last\">")?;
        push_line(page, plan, told.events, told.events.len() as u32)?;
        page.markup("</p>")?;
    }
    Ok(())
}

/// Adds the words of the run's ending.
fn push_ending(page: &mut Page, told: &Told) -> Result<(), Memory> {
    page.text(ending_word(told.ending))?;
    page.markup(" after ")?;
    page.number(told.events.len() as u64)?;
    page.markup(" events")
}

/// Adds the picture of a run with its lanes, what its marks mean, and the trace.
fn push_picture(
    alloc: Global,
    page: &mut Page,
    plan: &Plan,
    events: &[Event],
    lanes: &Lanes,
) -> Result<(), Memory>
    requires { length events.now < 2 ^ 32 }
{
    let scale = Scale::of(events.len() as u32);
    page.markup("<div id=\"tools\" hidden></div>\n<main id=\"run\">\n")?;
    push_names(page, plan, lanes)?;
    push_plot(alloc, page, plan, events, &scale, lanes)?;
    page.markup("</main>\n<p id=\"line\" aria-live=\"polite\"></p>\n")?;
    push_legend(page)?;
    push_lines(page, plan, events)?;
    push_all(page, plan, &scale, lanes.shapes.as_slice())
}

/// Adds the lanes of a run.
fn push_run(alloc: Global, page: &mut Page, plan: &Plan, events: &[Event]) -> Result<(), Memory>
    requires { length events.now < 2 ^ 32 }
{
    let lanes = lanes_of(alloc, plan, events)?;
    push_picture(alloc, page, plan, events, &lanes)
}

/// Adds the script, and ends the page.
fn push_end(page: &mut Page) -> Result<(), Memory> {
    page.markup("<script>\n")?;
    page.markup(SCRIPT)?;
    page.markup("</script>\n</body>\n</html>\n")
}

/// Adds all of the page.
fn push_page(alloc: Global, page: &mut Page, plan: &Plan, told: &Told) -> Result<(), Memory>
    requires { length told.now.events.now < 2 ^ 32 }
{
    push_head(page, plan, told)?;
    push_waits(alloc, page, plan, told.waits)?;
    push_run(alloc, page, plan, told.events)?;
    push_end(page)
}

/// The page of a run.
///
/// # Errors
///
/// [`Memory`] where memory was refused.
pub fn html(alloc: Global, plan: &Plan, told: &Told) -> Result<Page, Memory>
    requires { length told.now.events.now < 2 ^ 32 }
{
    let mut page = Page::new(alloc);
    push_page(alloc, &mut page, plan, told)?;
    Ok(page)
}

/// Adds what the colours and marks mean.
fn push_legend(page: &mut Page) -> Result<(), Memory> {
    page.markup(
        "<p class=\"legend\"><b>callbacks</b> <span class=\"k L0\">@0 passive level</span> <span class=\"k L2\">@2 dispatch level</span> <span class=\"k L3\">@3.. device level</span> <span class=\"k wait\">waits</span> <span class=\"k park\">parked, until it is back</span> <span class=\"k call\">call</span> <span class=\"k fault\">fault</span></p>\n",
    )?;
    page.markup(
        "<p class=\"legend\"><b>devices and queues</b> <span class=\"k d0\">D0</span> <span class=\"k stage\">stage</span> <span class=\"k up\">up, started</span> <span class=\"k down\">down, stopped</span> <span class=\"k inq\">waiting</span> <span class=\"k fromq\">held</span></p>\n",
    )?;
    page.markup(
        "<p class=\"legend\"><b>requests</b> <span class=\"k queued\">queued</span> <span class=\"k owned\">owned</span> <span class=\"k sent\">sent</span> <span class=\"k returning\">returning</span> <span class=\"k done\">done</span> <span class=\"k cancel\">cancel</span></p>\n",
    )
}
