//! A driver of a serial port, run and told.
ghost use Rattle.std.specs.Prelude.{[]};
ghost use Rattle.wdf_base.specs.declared.event.Ending.TheVariants as ending;
ghost use Rattle.law_machine_worked.specs.Shown.{IsShown};
ghost use Rattle.law_machine_worked.specs.RunsOfSerial.{serial_port_plan, serial_port_events};

/// A serial port's driver starts, reads, writes, sleeps, wakes and is pulled out, in 161 events.
#[tactic(auto, using(crate::proofs::RunsOfSerial::serial_port))]
pub fn serial_port()
    ensures { IsShown serial_port_plan serial_port_events ending.Finished [] }
{}
