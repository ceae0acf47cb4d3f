//! `kmdfsim`: runs driver scripts on a written model of the Kernel-Mode Driver Framework, and writes
//! the run as a trace. It hands the system's arguments and streams to the program, which does the work.
#![tactic(auto)]

use std::env;
use std::process::ExitCode;
use wdf_io::{ReadSource, WriteSink};
use wdf_serve::{SleepingGate, serve};

/// Serves the program's arguments over its input and its output, and ends with the status that is answered.
fn main(rt: HostRuntime) -> ExitCode {
    let mut source = ReadSource::new(rt.stdin());
    let mut sink = WriteSink::new(rt.stdout());
    let status = serve(
        &rt,
        rt.alloc(),
        env::args(&rt),
        &mut source,
        &mut sink,
        &SleepingGate { clock: &rt },
    );
    ExitCode::from(status)
}
