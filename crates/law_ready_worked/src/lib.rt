//! How many events may follow after each event of a worked run, computed from the definitions. Each number is the length of the
//! list that a plain filter leaves of all candidates; nothing that the code counts or keeps has a part in it.
//!
//! `law_machine_worked` has the plan and the events, and says that they are the run which the plan's picks determine. `test_ready`
//! compares what a core says with these numbers.
#![tactic(auto)]

ghost use Rattle.std.specs.Prelude.{◌≡◌, ◌≤◌, length, take};
ghost use Rattle.wdf_model.specs.agents.AnyAgent.{agents};
ghost use Rattle.wdf_model.specs.rules.Ready.{ready};
ghost use Rattle.law_machine_worked.specs.RunsOfSerial.{serial_port_plan, serial_port_events};

/// How many events the run of the serial port has.
pub const SERIAL_PORT_EVENTS: usize = 161;

/// How many events may follow at the opening, and after each event.
const SERIAL_PORT: [usize; 162] = [
    2, 2, 3, 2, 2, 2, 3, 2, 2, 2, 2, 2, 2, 1, 2, 1, 1, 1, 1, 1, 2, 1, 1, 1, 1, 2, 1, 1, 1, 1, 1, 2,
    1, 1, 2, 1, 1, 1, 1, 1, 1, 1, 2, 1, 1, 1, 1, 1, 1, 1, 1, 2, 1, 1, 1, 1, 1, 1, 1, 1, 1, 1, 2, 1,
    1, 1, 1, 1, 1, 1, 1, 1, 1, 2, 1, 1, 1, 1, 1, 1, 1, 1, 2, 1, 1, 1, 1, 1, 1, 2, 1, 1, 2, 1, 1, 1,
    1, 1, 1, 1, 2, 1, 1, 1, 1, 1, 1, 1, 1, 2, 1, 1, 1, 1, 1, 2, 1, 1, 1, 1, 1, 1, 1, 1, 1, 1, 1, 1,
    1, 1, 1, 1, 1, 1, 1, 1, 1, 1, 1, 2, 1, 1, 1, 1, 1, 1, 2, 1, 2, 3, 4, 5, 6, 7, 6, 5, 4, 3, 2, 1,
    1, 0,
];

/// How many events may follow the first k events of the serial port's run.
pub fn ready_len_after(k: usize) -> usize
    requires { k ≤ SERIAL_PORT_EVENTS }
    ensures { result ≡ length (ready serial_port_plan agents (take k serial_port_events)) }
{
    SERIAL_PORT[k]
}
