//! The generated scenario. What SplitMix64 gives was taken from another program.
use crate::call::{Outside, STEADY, call};
use std::alloc::Global;
use std::test::Fail;
use wdf_base::Memory;

/// What `gen 7` begins with.
const FRONT: &[u8] = b"\
cpus 4\n\
limit 30000\n\
objects 16\n\
device E working\n\
queue EQ sequential\n\
default\n\
on EvtIoRead\n\
let x = ( length + 1 )\n\
call WdfRequestComplete request SUCCESS\n\
end\n\
end\n\
end\n\
device F working\n\
queue FQ parallel 4\n\
default\n\
on EvtIoRead\n\
let x = ( length + 1 )\n\
call WdfRequestComplete request SUCCESS\n\
end\n\
end\n\
end\n\
app A0\n\
at 0 read F 0\n\
";

/// What it ends with.
const END: &[u8] = b"\
at 0 read F 1866\n\
at 0 read F 3513\n\
at 0 read E 995\n\
end\n\
";

/// Whether `gen 7` ends with a status and writes a text of so many bytes, which is one that begins and ends as it should or
/// is empty.
fn generates(alloc: Global, write_fails: Option<u64>, due: (u8, usize)) -> Result<bool, Memory> {
    let outside = Outside {
        write_fails,
        ..STEADY
    };
    match call(alloc, "gen 7", b"", outside) {
        Ok((status, sink)) => Ok(status == due.0 && is_text(sink.written(), due.1)),
        Err(memory) => Err(memory),
    }
}

/// Whether a text has so many bytes, and begins and ends as it should where it has some.
fn is_text(written: &[u8], len: usize) -> bool {
    written.len() == len && (len == 0 || (written.starts_with(FRONT) && written.ends_with(END)))
}

/// The text is written whole or not at all.
#[test]
fn a_generated_text_is_written_whole_or_not_at_all(rt: HostRuntime) -> Result<(), Fail> {
    for (write_fails, due) in [
        (None, (0, 48_538)),
        (Some(1), (13, 0)),
        (Some(2), (0, 48_538)),
    ] {
        assert!(rt; generates(rt.alloc(), write_fails, due)?);
    }
    Ok(())
}
