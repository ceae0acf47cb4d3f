use crate::log::Log;
use std::test::Fail;
use wdf_base::{Cpu, Event};
use wdf_turn::{Attempt, Chronicle, Seat, Turn};

const STEP: Event = Event::Local {
    cpu: Cpu(0),
    line: 3,
};

#[test]
fn the_value_goes_from_seat_to_seat(rt: HostRuntime) -> Result<(), Fail> {
    let log = Log::new(rt.alloc(), 7);
    let Ok((turn, mut first)) = Turn::make(rt.alloc(), 2, log) else {
        panic!(rt; "there is memory")
    };
    let mut second = turn.split(&mut first);
    let mut held = match turn.try_take(&mut first) {
        Attempt::Taken(held) => held,
        Attempt::Busy(_) => panic!(rt; "nobody holds"),
    };
    match turn.try_take(&mut second) {
        Attempt::Taken(_held) => panic!(rt; "seat 1 holds"),
        Attempt::Busy(holder) => assert_eq!(rt; holder, 1),
    }
    held.value_mut()
        .events
        .push(STEP)
        .expect(&rt, "there is memory");
    turn.give(&mut first, held);
    assert_eq!(rt; turn.seen(&mut second), 1);
    let held = match turn.try_take(&mut second) {
        Attempt::Taken(held) => held,
        Attempt::Busy(_) => panic!(rt; "nobody holds"),
    };
    assert_eq!(rt; held.value().events.as_slice(), [STEP].as_slice());
    turn.give(&mut second, held);
    turn.join(second, &mut first);
    let log = turn.close(first);
    assert_eq!(rt; log.from, 7);
    assert_eq!(rt; log.events.as_slice(), [STEP].as_slice());
    Ok(())
}

fn shared<X: Sync>(_value: &X) {}

fn sent<X: Send>(_value: &X) {}

// A turnstile may be shared and its seats sent, where the value may be sent.
fn may_cross<T: Chronicle + Send>(turn: &Turn<T>, seat: &Seat<T>) {
    shared(turn);
    sent(seat);
}

#[test]
fn turnstiles_are_shared_and_seats_are_sent(rt: HostRuntime) -> Result<(), Fail> {
    let Ok((turn, first)) = Turn::make(rt.alloc(), 1, Log::new(rt.alloc(), 7)) else {
        panic!(rt; "there is memory")
    };
    may_cross(&turn, &first);
    let log = turn.close(first);
    assert_eq!(rt; log.events.len(), 0);
    Ok(())
}
