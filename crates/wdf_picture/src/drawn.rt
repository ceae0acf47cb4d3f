//! Shapes are written into a page.
use crate::layout::Scale;
use crate::shape::{Label, Role, Shape};
use std::alloc::Global;
use wdf_base::{Event, Handle, Memory, Plan};
use wdf_lines::{line_of, name_bytes};
use wdf_page::Page;

/// The most rows of the picture in which blocks are kept apart.
const HEIGHT: usize = 65_536;

/// Adds an object: its name, a dot and its id.
pub(crate) fn push_object(page: &mut Page, plan: &Plan, object: Handle) -> Result<(), Memory> {
    page.text(name_bytes(plan, object.name))?;
    page.markup(".")?;
    page.number(u64::from(object.id.0))
}

/// Adds a number as an attribute of this name.
pub(crate) fn push_attribute(
    page: &mut Page,
    name: &'static str,
    value: u64,
) -> Result<(), Memory> {
    page.markup(name)?;
    page.number(value)?;
    page.markup("\"")
}

/// Adds the label of a callback.
fn push_callback(page: &mut Page, plan: &Plan, label: &Label) -> Result<(), Memory> {
    let Label::Callback {
        callback,
        object,
        request,
        level,
    } = label
    else {
        return Ok(());
    };
    page.markup(callback.word())?;
    page.markup(" ")?;
    push_object(page, plan, *object)?;
    if let Some(request) = request {
        page.markup(" ")?;
        push_object(page, plan, *request)?;
    }
    page.markup(" @")?;
    page.number(u64::from(*level))
}

/// Adds a label.
fn push_label(page: &mut Page, plan: &Plan, label: &Label) -> Result<(), Memory> {
    match *label {
        Label::Nothing => Ok(()),
        Label::Word(word) => page.markup(word),
        Label::Callback { .. } => push_callback(page, plan, label),
        Label::Request { request, told } => {
            push_object(page, plan, request)?;
            page.markup(" ")?;
            page.markup(told.word())
        }
        Label::Count { word, count } => {
            page.number(u64::from(count))?;
            page.markup(" ")?;
            page.markup(word)
        }
        Label::Tick(time) => {
            page.markup("tick ")?;
            page.number(time)
        }
        Label::Fault { fault, line } => {
            page.markup(fault.word())?;
            page.markup(" line ")?;
            page.number(u64::from(line))
        }
    }
}

fn role_class(role: Role) -> &'static str {
    match role {
        Role::Frame => " b",
        Role::Request => " q",
        Role::Other => "",
    }
}

/// Adds the trace line of the event with this number; of number 0 that it holds from the beginning.
pub(crate) fn push_line(
    page: &mut Page,
    plan: &Plan,
    events: &[Event],
    number: u32,
) -> Result<(), Memory> {
    if number == 0 {
        return page.markup("from the beginning");
    }
    match events.get(number as usize - 1) {
        Some(event) => page.text(line_of(plan, number as usize, event).bytes()),
        None => Ok(()),
    }
}

/// Adds the title of a shape: the trace line of its event, and of a box that of the last event in it.
fn push_title(page: &mut Page, plan: &Plan, events: &[Event], shape: &Shape) -> Result<(), Memory> {
    page.markup("<title>")?;
    push_line(page, plan, events, shape.number)?;
    if matches!(shape.role, Role::Frame) && shape.to > shape.number {
        page.markup("\n")?;
        push_line(page, plan, events, shape.to)?;
    }
    page.markup("</title>")
}

/// Adds the place of a shape.
fn push_place(page: &mut Page, shape: &Shape, scale: &Scale) -> Result<(), Memory> {
    let x = scale.x(shape.from);
    let end = scale.x(shape.to);
    push_attribute(page, " x=\"", x)?;
    push_attribute(page, " y=\"", u64::from(shape.y))?;
    push_attribute(page, " width=\"", end.saturating_sub(x).max(1))?;
    push_attribute(page, " height=\"", u64::from(shape.height))
}

/// Adds what the script reads of a shape: its slots, its event and what it is about.
fn push_data(page: &mut Page, shape: &Shape) -> Result<(), Memory> {
    push_attribute(page, "\" data-a=\"", u64::from(shape.from))?;
    push_attribute(page, " data-b=\"", u64::from(shape.to))?;
    push_attribute(page, " data-n=\"", u64::from(shape.number))?;
    push_attribute(page, " data-o=\"", u64::from(shape.about))?;
    push_attribute(page, " data-r=\"", u64::from(shape.with))
}

/// Adds what of a shape is filled.
fn push_fill(page: &mut Page, shape: &Shape) -> Result<(), Memory> {
    if shape.filled >= 100 {
        return page.markup("<rect width=\"100%\" height=\"100%\"/>");
    }
    page.markup("<rect width=\"100%\" y=\"")?;
    page.number(u64::from(100u32.saturating_sub(shape.filled)))?;
    page.markup("%\" height=\"")?;
    page.number(u64::from(shape.filled))?;
    page.markup("%\"/>")
}

/// Where a label begins: at the top of its shape, that of a fault at the bottom.
fn label_place(label: Label) -> &'static str {
    match label {
        Label::Fault { .. } => "<text x=\"-3\" y=\"100%\" dy=\"-6\">",
        _ => "<text x=\"3\" y=\"12\">",
    }
}

/// Adds a shape.
fn push_shape(
    page: &mut Page,
    plan: &Plan,
    events: &[Event],
    scale: &Scale,
    shape: &Shape,
) -> Result<(), Memory> {
    page.markup("<svg class=\"")?;
    page.markup(shape.look.class())?;
    page.markup(role_class(shape.role))?;
    push_data(page, shape)?;
    push_place(page, shape, scale)?;
    page.markup(">")?;
    push_title(page, plan, events, shape)?;
    push_fill(page, shape)?;
    if !matches!(shape.label, Label::Nothing) {
        page.markup(label_place(shape.label))?;
        push_label(page, plan, &shape.label)?;
        page.markup("</text>")?;
    }
    page.markup("</svg>\n")
}

/// Adds all shapes as they are.
pub(crate) fn push_shapes(
    page: &mut Page,
    plan: &Plan,
    events: &[Event],
    scale: &Scale,
    shapes: &[Shape],
) -> Result<(), Memory> {
    for shape in shapes {
        push_shape(page, plan, events, scale, shape)?;
    }
    Ok(())
}

/// Adds a field of a row.
fn push_field(page: &mut Page, value: u32) -> Result<(), Memory> {
    page.markup("|")?;
    page.number(u64::from(value))
}

/// Adds a shape as a row of fields, from which the script makes it where a zoom shows it.
fn push_row(page: &mut Page, plan: &Plan, shape: &Shape) -> Result<(), Memory> {
    page.markup(shape.look.class())?;
    page.markup(role_class(shape.role))?;
    push_field(page, shape.from)?;
    push_field(page, shape.to)?;
    push_field(page, shape.y)?;
    push_field(page, shape.height)?;
    push_field(page, shape.filled)?;
    push_field(page, shape.number)?;
    push_field(page, shape.about)?;
    push_field(page, shape.with)?;
    page.markup("|")?;
    push_label(page, plan, &shape.label)?;
    page.markup("\n")
}

/// Adds a row for each shape.
pub(crate) fn push_rows(page: &mut Page, plan: &Plan, shapes: &[Shape]) -> Result<(), Memory> {
    for shape in shapes {
        push_row(page, plan, shape)?;
    }
    Ok(())
}

/// Adds a block of shapes of a pixel or two.
fn push_block(page: &mut Page, scale: &Scale, shape: &Shape) -> Result<(), Memory> {
    page.markup("<rect class=\"m ")?;
    page.markup(shape.look.class())?;
    page.markup("\"")?;
    push_attribute(page, " x=\"", scale.x(shape.from))?;
    push_attribute(page, " y=\"", u64::from(shape.y))?;
    page.markup(" width=\"2\"")?;
    push_attribute(page, " height=\"", u64::from(shape.height))?;
    page.markup("/>\n")
}

/// Adds the shapes that are more than two pixels wide, and a block for those that aren't.
pub(crate) fn push_merged(
    alloc: Global,
    page: &mut Page,
    plan: &Plan,
    events: &[Event],
    scale: &Scale,
    shapes: &[Shape],
) -> Result<(), Memory> {
    let mut filled = vec![in alloc; 0u64; HEIGHT]?;
    for shape in shapes {
        let x = scale.x(shape.from);
        let y = (shape.y as usize).min(HEIGHT - 1);
        if scale.x(shape.to) > x.saturating_add(2) {
            push_shape(page, plan, events, scale, shape)?;
        } else if filled.as_slice().get(y).is_some_and(|to| *to <= x) {
            push_block(page, scale, shape)?;
            if y < filled.len() {
                filled[y] = x.saturating_add(2);
            }
        }
    }
    Ok(())
}
