//! What a trace has to do with what is expected of it: what is read of comments, and the kind of a run.
ghost use Rattle.std.specs.Prelude.{length};
ghost use Rattle.wdf_parse.specs.declared.parsing.TheConstants.{TEXT_LIMIT};

use std::alloc::Global;
use wdf_base::{Ending, Event, Fault, Plan};
use wdf_expect::{ExpectError, Expectations, expectations_of, judged};
use wdf_parse::{TEXT_LIMIT, parse};
use wdf_plan::resolve;
use wdf_trace::read_line;

/// The scenario of each trace below: two apps read, and each read is completed.
const SCENARIO: &[u8] = b"cpus 2
limit 100
objects 16
device D working
  queue Q parallel 2
    default
    on EvtIoRead
      log length
      call WdfRequestComplete request SUCCESS
    end
  end
end
app A
  at 0 read D 16
  at 1 cancel 1
end
app B
  at 0 read D 99
end
";

/// A front of a run, of which both reads are there and one is completed.
const EVENTS: [&str; 7] = [
    "1 A read D.2 16 -> req.4",
    "2 B read D.2 99 -> req.5",
    "3 cpu0 start EvtIoRead Q.3 req.4",
    "4 cpu0 log 16",
    "5 cpu1 start EvtIoRead Q.3 req.5",
    "6 cpu0 call WdfRequestComplete req.4 SUCCESS -> SUCCESS",
    "7 cpu0 end EvtIoRead Q.3 SUCCESS",
];

/// Comments, how those seven events go on, and the kind that is due. The kind of the ending is `over`.
struct Run {
    what: &'static str,
    comments: &'static str,
    ending: Ending,
    due: &'static str,
}

const RUNS: [Run; 24] = [
    Run {
        what: "nothing is expected: the kind of the ending",
        comments: "# a plain comment\n# ! and one more\n",
        ending: Ending::Finished,
        due: "over",
    },
    Run {
        what: "a line that never comes",
        comments: "#! never cpu* log 99\n",
        ending: Ending::Finished,
        due: "over",
    },
    Run {
        what: "a number is a word, and no front of one",
        comments: "#! never cpu* log 1\n",
        ending: Ending::Finished,
        due: "over",
    },
    Run {
        what: "a star at a word's end stands for any end",
        comments: "#! never cpu0 log 1*\n",
        ending: Ending::Finished,
        due: "broken: never at line 1",
    },
    Run {
        what: "a star is at the end of a word alone, and before it the words are the same",
        comments: "#! never cpu*0 log 16\n#! never cpux* log 16\n",
        ending: Ending::Finished,
        due: "over",
    },
    Run {
        what: "a pattern is the front of a line",
        comments: "\n\n#! never * call WdfRequestComplete\n",
        ending: Ending::Finished,
        due: "broken: never at line 3",
    },
    Run {
        what: "a pattern begins after the number",
        comments: "#! never 4 cpu0\n",
        ending: Ending::Finished,
        due: "over",
    },
    Run {
        what: "a pattern has no more words than the line",
        comments: "#! never cpu0 log 16 *\n",
        ending: Ending::Finished,
        due: "over",
    },
    Run {
        what: "tabs and blanks are between words, and a comment may stand behind a line",
        comments: "app A #!\tnever\t cpu0   log 16  \r\nend",
        ending: Ending::Finished,
        due: "broken: never at line 1",
    },
    Run {
        what: "the mark needs no blank after it",
        comments: "#!never cpu0 log 16",
        ending: Ending::Finished,
        due: "broken: never at line 1",
    },
    Run {
        what: "once",
        comments: "#! once cpu0 log 16\n#! once cpu1\n",
        ending: Ending::Stuck,
        due: "over",
    },
    Run {
        what: "twice isn't once, however the run ends",
        comments: "#! once * read D.2\n",
        ending: Ending::Limit,
        due: "broken: once at line 1",
    },
    Run {
        what: "what never came isn't once",
        comments: "#! once cpu1 log 99\n",
        ending: Ending::Stuck,
        due: "broken: once at line 1",
    },
    Run {
        what: "it may still come where the run was cut short",
        comments: "#! once cpu1 log 99\n#! after cpu1 start comes cpu1 end\n",
        ending: Ending::Limit,
        due: "over",
    },
    Run {
        what: "it can't come any more where the run ends as expected",
        comments: "#! once cpu1 log 99\n#! expect limit\n",
        ending: Ending::Limit,
        due: "broken: once at line 1",
    },
    Run {
        what: "each of the first has one of the second after it",
        comments: "#! after * read D.2 comes cpu0 end\n",
        ending: Ending::Finished,
        due: "over",
    },
    Run {
        what: "the last of the first has none",
        comments: "#! after cpu* start EvtIoRead comes cpu* log\n",
        ending: Ending::Finished,
        due: "broken: after at line 1",
    },
    Run {
        what: "no line comes after itself",
        comments: "#! after cpu* log comes cpu* log\n",
        ending: Ending::Finished,
        due: "broken: after at line 1",
    },
    Run {
        what: "an ending that is expected",
        comments: "#! expect stuck\n",
        ending: Ending::Stuck,
        due: "as expected: over",
    },
    Run {
        what: "one of two endings",
        comments: "#! expect finished\n#! expect fault NotOwned\n",
        ending: Ending::Fault(Fault::NotOwned),
        due: "as expected: over",
    },
    Run {
        what: "a fault in its line, which is 7 here",
        comments: "#! expect fault NotOwned at line 7\n",
        ending: Ending::Fault(Fault::NotOwned),
        due: "as expected: over",
    },
    Run {
        what: "a fault in another line",
        comments: "#! expect fault NotOwned at line 8\n",
        ending: Ending::Fault(Fault::NotOwned),
        due: "broken: expect at line 1, over",
    },
    Run {
        what: "another fault, and the first of two expectations is named",
        comments: "#! never cpu0 log 99\n#! expect fault StaleHandle\n#! expect limit\n",
        ending: Ending::Fault(Fault::NotOwned),
        due: "broken: expect at line 2, over",
    },
    Run {
        what: "the first of several broken rules, in the order of the text",
        comments: "#! once cpu0 log 99\n#! expect finished\n#! never cpu0 log 16\n",
        ending: Ending::Fault(Fault::NotOwned),
        due: "broken: expect at line 2, over",
    },
];

/// Texts with a comment that can't be read, and its line.
const UNREAD: [(&str, u32); 15] = [
    ("#!", 1),
    ("cpus 1\n#! ", 2),
    ("#! nevr cpu0 log 1", 1),
    ("#! never", 1),
    ("#! once\n", 1),
    ("#! never cpu0\n\n#! after cpu0 comes\n", 3),
    ("#! after comes cpu0\n", 1),
    ("#! after cpu0 then cpu1\n", 1),
    ("#! expect\n", 1),
    ("#! expect finish\n", 1),
    ("#! expect finished 12\n", 1),
    ("#! expect fault\n", 1),
    ("#! expect fault NoSuchFault\n", 1),
    ("#! expect fault NotOwned at line x7\n", 1),
    ("#! Never cpu0 log 1\n", 1),
];

/// The plan of the scenario.
fn plan_of(alloc: Global) -> Option<Plan> {
    if SCENARIO.len() > TEXT_LIMIT {
        return None;
    }
    let scene = parse(alloc, SCENARIO).ok()?;
    resolve(alloc, &scene).ok()
}

/// The events.
fn events_of(alloc: Global, plan: &Plan) -> Option<Vec<Event>> {
    let mut events = Vec::new(alloc);
    for line in &EVENTS {
        match read_line(plan, line.as_bytes()) {
            Some((_, event)) => events.push(event).ok()?,
            None => return None,
        }
    }
    Some(events)
}

/// The expectations of a text, or the line that can't be read; no line where memory was refused.
fn read(alloc: Global, text: &str) -> Result<Expectations, u32> {
    if text.len() > TEXT_LIMIT {
        return Err(0);
    }
    match expectations_of(alloc, text.as_bytes()) {
        Ok(expectations) => Ok(expectations),
        Err(ExpectError::Unread { line }) => Err(line),
        Err(ExpectError::Memory) => Err(0),
    }
}

/// Whether the kind of a run with these events is the one that is due.
fn is_kind_due(alloc: Global, plan: &Plan, events: &[Event], run: &Run) -> bool {
    let Ok(expectations) = read(alloc, run.comments) else {
        return false;
    };
    match judged(
        alloc,
        expectations.as_slice(),
        plan,
        events,
        run.ending,
        7,
        b"over",
    ) {
        Ok(kind) => kind.is(run.due.as_bytes()),
        Err(_) => false,
    }
}

/// Whether the kind of a run of this plan is the one that is due.
fn is_due_in(alloc: Global, plan: &Plan, run: &Run) -> bool {
    match events_of(alloc, plan) {
        Some(events) => is_kind_due(alloc, plan, events.as_slice(), run),
        None => false,
    }
}

/// Whether the kind of a run is the one that is due.
fn is_due(alloc: Global, run: &Run) -> bool {
    match plan_of(alloc) {
        Some(plan) => is_due_in(alloc, &plan, run),
        None => false,
    }
}

#[test]
fn each_run_has_the_kind_that_is_due(rt: HostRuntime) {
    for run in &RUNS {
        assert!(rt; is_due(rt.alloc(), run), "{}", run.what);
    }
}

#[test]
fn each_comment_that_cant_be_read_is_named(rt: HostRuntime) {
    for (text, line) in &UNREAD {
        assert!(rt;
            matches!(read(rt.alloc(), text), Err(found) if found == *line),
            "at {text:?}"
        );
    }
}
