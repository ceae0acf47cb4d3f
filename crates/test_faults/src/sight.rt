//! A view made by hand: what a frame of EvtIoRead sees, but for the changes of a case.
ghost use Rattle.std.specs.Prelude.{◌≡◌, ◌==◌, if◌then◌else◌};

use std::process::Abort;
use wdf_base::{
    Arg, Call, CallKind, Callback, Fault, Frame, FrameId, Handle, Intent, Irql, Kind, Life,
    LockRef, Mark, ObjectId, Place, Status, VARIABLES, Value,
};
use wdf_rules::{View, fault_of};
use wdf_same::same_lock;

/// The object that a case is about: the frame's request, where the case says nothing else.
pub(crate) const OBJECT: Handle = Handle {
    id: ObjectId(5),
    name: 1,
};

/// The queue on which the frame runs, and from which the request came.
pub(crate) const OWN_QUEUE: Handle = Handle {
    id: ObjectId(3),
    name: 4,
};

/// A target.
pub(crate) const LOWER: Handle = Handle {
    id: ObjectId(4),
    name: 5,
};

/// The frame's number.
const NUMBER: FrameId = FrameId(7);

/// What is seen of an object.
#[derive(Clone, Copy)]
struct Seen {
    life: Life,
    kind: Kind,
    references: u32,
    level: Irql,
    scope: Option<LockRef>,
    place: Place,
    mark: Mark,
    held: bool,
    acknowledged: bool,
}

/// What the frame sees.
#[derive(Clone, Copy)]
struct Sight {
    frame: Frame,
    irql: Irql,
    /// Of the object that the case is about.
    it: Seen,
    /// Of the target.
    target: Seen,
    /// Of every other object.
    others: Seen,
    /// The one lock that may be held.
    lock: LockRef,
    holder: Option<FrameId>,
    by_call: bool,
    hardware: bool,
}

/// What a case sees otherwise than it is seen of the request in its EvtIoRead.
#[derive(Clone, Copy, Debug)]
pub(crate) enum But {
    Life(Life),
    Kind(Kind),
    Unreferenced,
    LevelOfIt(u8),
    Scope(LockRef),
    Place(Place),
    Mark(Mark),
    NotHeld,
    Acknowledged,
    /// How far the deletion of all other objects has come.
    Others(Life),
    /// The level of the processor.
    Irql(u8),
    Runs(Callback),
    RunsFor(ObjectId),
    RunsOn(ObjectId),
    /// A frame holds the lock.
    Holds(LockRef, u32),
    /// This frame took it by a call.
    Took(LockRef),
    NoHardware,
}

const READING: Frame = Frame {
    callback: Callback::EvtIoRead,
    object: OWN_QUEUE,
    device: Handle {
        id: ObjectId(2),
        name: 3,
    },
    request: Some(OBJECT),
    length: 16,
    code: 0,
    status: Status::Success,
    script: 0,
    at: 0,
    variables: [Value::Num(0); VARIABLES],
    counters: [0; VARIABLES],
    until: 0,
    pending: None,
};

/// The request is live and the driver's, one reference to it is held, and it isn't cancelable.
const REQUEST: Seen = Seen {
    life: Life::Live,
    kind: Kind::Request,
    references: 1,
    level: Irql(0),
    scope: None,
    place: Place::Owned,
    mark: Mark::Unmarked,
    held: true,
    acknowledged: false,
};

/// Every other object is a live queue.
const OTHER: Seen = Seen {
    life: Life::Live,
    kind: Kind::Queue,
    references: 0,
    level: Irql(0),
    scope: None,
    place: Place::Done,
    mark: Mark::Unmarked,
    held: false,
    acknowledged: false,
};

/// The target is live.
const TARGET: Seen = Seen {
    life: Life::Live,
    kind: Kind::Target,
    references: 0,
    level: Irql(0),
    scope: None,
    place: Place::Done,
    mark: Mark::Unmarked,
    held: false,
    acknowledged: false,
};

/// The processor is at level 0, no lock is held, and the hardware is there.
const CALM: Sight = Sight {
    frame: READING,
    irql: Irql(0),
    it: REQUEST,
    target: TARGET,
    others: OTHER,
    lock: LockRef::Object(ObjectId(0)),
    holder: None,
    by_call: false,
    hardware: true,
};

impl Sight {
    /// What is seen of an object.
    fn of(&self, o: ObjectId) -> &Seen
        ensures { result.now ≡ (if o.0 == 5 then self.now.it else if o.0 == 4 then self.now.target else self.now.others) }
    {
        if o.0 == OBJECT.id.0 {
            &self.it
        } else if o.0 == LOWER.id.0 {
            &self.target
        } else {
            &self.others
        }
    }

    /// It is seen otherwise.
    fn change(&mut self, but: But) {
        match but {
            But::Life(life) => self.it.life = life,
            But::Kind(kind) => self.it.kind = kind,
            But::Unreferenced => self.it.references = 0,
            But::LevelOfIt(level) => self.it.level = Irql(level),
            But::Scope(lock) => self.it.scope = Some(lock),
            But::Place(place) => self.it.place = place,
            But::Mark(mark) => self.it.mark = mark,
            But::NotHeld => self.it.held = false,
            But::Acknowledged => self.it.acknowledged = true,
            But::Others(life) => {
                self.target.life = life;
                self.others.life = life;
            }
            But::Irql(level) => self.irql = Irql(level),
            But::Runs(callback) => self.frame.callback = callback,
            But::RunsFor(id) => self.frame.request = Some(Handle { id, name: 1 }),
            But::RunsOn(id) => self.frame.object = Handle { id, name: 6 },
            But::Holds(lock, frame) => {
                self.lock = lock;
                self.holder = Some(FrameId(frame));
            }
            But::Took(lock) => {
                self.lock = lock;
                self.holder = Some(NUMBER);
                self.by_call = true;
            }
            But::NoHardware => self.hardware = false,
        }
    }
}

impl View for Sight {
    ghost use Rattle.std.specs.Prelude.{◌==◌, ◌&&◌, if◌then◌else◌, Some, None};
    ghost use Rattle.std.specs.Option.{option_map};
    ghost use Rattle.wdf_base.specs.Same.{same_lock};
    ghost use Rattle.wdf_model.specs.Tables.{flag};

    ghost seen = { λ v. record { frame = v.frame; number = 7; irql = v.irql.0; life = λ o. (if o == 5 then v.it else if o == 4 then v.target else v.others).life; kind = λ o. (if o == 5 then v.it else if o == 4 then v.target else v.others).kind; references = λ o. (if o == 5 then v.it else if o == 4 then v.target else v.others).references; level_of = λ o. (if o == 5 then v.it else if o == 4 then v.target else v.others).level.0; scope = λ o. (if o == 5 then v.it else if o == 4 then v.target else v.others).scope; place = λ o. (if o == 5 then v.it else if o == 4 then v.target else v.others).place; origin = λ o. Some 3; mark = λ o. (if o == 5 then v.it else if o == 4 then v.target else v.others).mark; held = λ o. (if o == 5 then v.it else if o == 4 then v.target else v.others).held; acknowledged = λ o. (if o == 5 then v.it else if o == 4 then v.target else v.others).acknowledged; holder = λ l. (if same_lock v.lock l then option_map (λ f. f.0) v.holder else None); by_call = λ l. same_lock v.lock l && v.by_call; held_by_call = flag v.by_call; hardware = λ k. v.hardware } };

    fn frame(&self) -> &Frame {
        &self.frame
    }

    fn number(&self) -> FrameId {
        NUMBER
    }

    fn irql(&self) -> Irql {
        self.irql
    }

    fn life(&self, o: ObjectId) -> Life {
        self.of(o).life
    }

    fn kind(&self, o: ObjectId) -> Kind {
        self.of(o).kind
    }

    fn references(&self, o: ObjectId) -> u32 {
        self.of(o).references
    }

    fn level_of(&self, i: ObjectId) -> Irql {
        self.of(i).level
    }

    fn scope(&self, o: ObjectId) -> Option<LockRef> {
        self.of(o).scope
    }

    fn place(&self, r: ObjectId) -> Place {
        self.of(r).place
    }

    fn origin(&self, _r: ObjectId) -> Option<ObjectId> {
        Some(OWN_QUEUE.id)
    }

    fn mark(&self, r: ObjectId) -> Mark {
        self.of(r).mark
    }

    fn held(&self, r: ObjectId) -> bool {
        self.of(r).held
    }

    fn acknowledged(&self, r: ObjectId) -> bool {
        self.of(r).acknowledged
    }

    fn holder(&self, lock: LockRef) -> Option<FrameId> {
        if same_lock(self.lock, lock) {
            self.holder
        } else {
            None
        }
    }

    fn by_call(&self, lock: LockRef) -> bool {
        same_lock(self.lock, lock) && self.by_call
    }

    fn held_by_call(&self) -> u32 {
        u32::from(self.by_call)
    }

    fn hardware(&self, _register: u32) -> bool {
        self.hardware
    }
}

/// What is seen of an object of this kind, where these things are otherwise.
fn sight_of(kind: Kind, buts: &[But]) -> Sight {
    let mut sight = CALM;
    sight.it.kind = kind;
    for but in buts {
        sight.change(*but);
    }
    sight
}

/// The fault of an intent where these things are otherwise.
pub(crate) fn fault_at(buts: &[But], intent: &Intent) -> Option<Fault> {
    fault_of(&sight_of(Kind::Request, buts), intent)
}

/// A call with its arguments, and the kind of the object that it is about.
pub(crate) type Doing = (Kind, CallKind, &'static [Arg]);

/// A call. An argument that isn't given is 0.
fn call_of(kind: CallKind, args: &[Arg]) -> Call {
    let zero = Arg::Val(Value::Num(0));
    Call {
        kind,
        count: kind.signature().count(),
        a: args.get(0).copied().unwrap_or(zero),
        b: args.get(1).copied().unwrap_or(zero),
        c: args.get(2).copied().unwrap_or(zero),
    }
}

/// The fault of a call where these things are otherwise.
pub(crate) fn fault_in(doing: Doing, buts: &[But]) -> Option<Fault> {
    let (kind, call, args) = doing;
    let intent = Intent::Do(call_of(call, args));
    fault_of(&sight_of(kind, buts), &intent)
}

/// Each of these calls has this fault where these things are otherwise.
pub(crate) fn check(rt: &impl Abort, all: &[Doing], buts: &[But], fault: Option<Fault>) {
    for doing in all {
        assert_eq!(rt;
            fault_in(*doing, buts),
            fault,
            "{:?} with {:?}",
            doing.1,
            buts
        );
    }
}
