//! What a viewer of traces is told, read back as JSON.
use serde_json::Value;
use std::alloc::Global;

/// The whole of what is written of the first read: by the format, a line for each item.
pub const ONE_READ: &str = "{\"traceEvents\":[\
{\"args\":{\"name\":\"processors\"},\"name\":\"process_name\",\"ph\":\"M\",\"pid\":1},\
{\"args\":{\"name\":\"devices\"},\"name\":\"process_name\",\"ph\":\"M\",\"pid\":2},\
{\"args\":{\"name\":\"queues\"},\"name\":\"process_name\",\"ph\":\"M\",\"pid\":3},\
{\"args\":{\"name\":\"requests\"},\"name\":\"process_name\",\"ph\":\"M\",\"pid\":4},\
{\"args\":{\"name\":\"cpu0\"},\"name\":\"thread_name\",\"ph\":\"M\",\"pid\":1,\"tid\":0},\
{\"args\":{\"line\":\"2 cpu0 start EvtIoRead Q.3 req.4\"},\"dur\":3,\"name\":\"EvtIoRead Q.3\",\"ph\":\"X\",\"pid\":1,\"tid\":0,\"ts\":1},\
{\"args\":{\"line\":\"3 cpu0 call WdfRequestComplete req.4 SUCCESS -> SUCCESS\"},\"dur\":1,\"name\":\"WdfRequestComplete\",\"ph\":\"X\",\"pid\":1,\"tid\":0,\"ts\":2},\
{\"args\":{\"name\":\"D.2\"},\"name\":\"thread_name\",\"ph\":\"M\",\"pid\":2,\"tid\":2},\
{\"args\":{\"line\":\"\"},\"dur\":6,\"name\":\"working\",\"ph\":\"X\",\"pid\":2,\"tid\":2,\"ts\":0},\
{\"args\":{\"line\":\"1 A read D.2 16 -> req.4\"},\"cat\":\"request\",\"id\":1,\"name\":\"req.4\",\"ph\":\"b\",\"pid\":4,\"tid\":0,\"ts\":0},\
{\"args\":{\"line\":\"1 A read D.2 16 -> req.4\"},\"cat\":\"request\",\"id\":1,\"name\":\"queued\",\"ph\":\"b\",\"pid\":4,\"tid\":0,\"ts\":0},\
{\"args\":{\"line\":\"\"},\"cat\":\"request\",\"id\":1,\"name\":\"queued\",\"ph\":\"e\",\"pid\":4,\"tid\":0,\"ts\":1},\
{\"args\":{\"line\":\"2 cpu0 start EvtIoRead Q.3 req.4\"},\"cat\":\"request\",\"id\":1,\"name\":\"owned\",\"ph\":\"b\",\"pid\":4,\"tid\":0,\"ts\":1},\
{\"args\":{\"line\":\"\"},\"cat\":\"request\",\"id\":1,\"name\":\"owned\",\"ph\":\"e\",\"pid\":4,\"tid\":0,\"ts\":2},\
{\"args\":{\"line\":\"3 cpu0 call WdfRequestComplete req.4 SUCCESS -> SUCCESS\"},\"cat\":\"request\",\"id\":1,\"name\":\"done\",\"ph\":\"b\",\"pid\":4,\"tid\":0,\"ts\":2},\
{\"args\":{\"line\":\"\"},\"cat\":\"request\",\"id\":1,\"name\":\"done\",\"ph\":\"e\",\"pid\":4,\"tid\":0,\"ts\":6},\
{\"args\":{\"line\":\"\"},\"cat\":\"request\",\"id\":1,\"name\":\"req.4\",\"ph\":\"e\",\"pid\":4,\"tid\":0,\"ts\":6},\
{\"args\":{\"held\":0,\"waiting\":1},\"name\":\"Q.3\",\"ph\":\"C\",\"pid\":3,\"ts\":0},\
{\"args\":{\"held\":1,\"waiting\":0},\"name\":\"Q.3\",\"ph\":\"C\",\"pid\":3,\"ts\":1},\
{\"args\":{\"held\":0,\"waiting\":0},\"name\":\"Q.3\",\"ph\":\"C\",\"pid\":3,\"ts\":2}\
]}";

/// A slice that was read: its process, its thread, from, to.
#[derive(Clone, Copy)]
struct Slice {
    process: u64,
    thread: u64,
    from: u64,
    to: u64,
}

/// A number of an item.
fn number(item: &Value, key: &str) -> Option<u64> {
    item.get(key).and_then(Value::as_u64)
}

/// Whether an item is of a phase.
fn is_phase(item: &Value, letter: &str) -> bool {
    match item.get("ph").and_then(Value::as_str) {
        Some(text) => text == letter,
        None => false,
    }
}

/// The slice that an item is, if it is one.
fn slice_in(item: &Value) -> Option<Slice> {
    if !is_phase(item, "X") {
        return None;
    }
    let from = number(item, "ts")?;
    let length = number(item, "dur")?;
    Some(Slice {
        process: number(item, "pid")?,
        thread: number(item, "tid")?,
        from,
        to: from.saturating_add(length),
    })
}

/// Whether two slices of one thread are apart, or one lies in the other.
fn nest(a: &Slice, b: &Slice) -> bool {
    a.process != b.process
        || a.thread != b.thread
        || a.to <= b.from
        || b.to <= a.from
        || (a.from <= b.from && b.to <= a.to)
        || (b.from <= a.from && a.to <= b.to)
}

/// Whether a slice nests with each other one.
fn nests(slices: &[Slice], one: &Slice) -> bool {
    slices.iter().all(|other| nest(one, other))
}

/// How many items there are of each phase that is looked at.
#[derive(Clone, Copy, PartialEq, Eq)]
pub struct Found {
    pub slices: usize,
    pub begins: usize,
    pub ends: usize,
    pub counters: usize,
    pub all_nest: bool,
}

/// The slices among items.
fn slices_of(alloc: Global, items: &[Value]) -> Option<Vec<Slice>> {
    let mut slices = Vec::new(alloc);
    for item in items {
        if let Some(one) = slice_in(item) {
            if slices.push(one).is_err() {
                return None;
            }
        }
    }
    Some(slices)
}

/// How many items are of a phase.
fn count(items: &[Value], letter: &str) -> usize {
    items.iter().filter(|item| is_phase(item, letter)).count()
}

/// What is found in the JSON of a run, if it can be read.
pub fn look(alloc: Global, text: &str) -> Option<Found> {
    let value = Value::from_str(alloc, text).ok()?;
    let items = value.get("traceEvents").and_then(Value::as_array)?;
    let slices = slices_of(alloc, items)?;
    Some(Found {
        slices: slices.len(),
        begins: count(items, "b"),
        ends: count(items, "e"),
        counters: count(items, "C"),
        all_nest: slices.iter().all(|one| nests(slices.as_slice(), one)),
    })
}
