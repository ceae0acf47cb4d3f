//! Trees as they come to be, change and go.
use crate::acts::{Act, does};
use crate::facts::Fact;
use crate::openings::{opening, plan};
use std::alloc::Global;
use std::test::Fail;
use wdf_base::{Callback, Kind, Life, Memory, Plan, Status, Value};
use wdf_tree::{CreateRefusal, Subtree, Tree};

const DRIVER: u32 = 1;

const DEVICE: u32 = 2;

const QUEUE: u32 = 3;

/// What happens in a tree whose plan allows so many counted objects; 0 for the plan that declares
/// nothing.
struct Case {
    name: &'static str,
    objects: u32,
    acts: &'static [Act],
}

static CASES: [Case; 9] = [
    Case {
        name: "declared objects live from the opening",
        objects: 8,
        acts: &[
            Act::Is(Fact::LifeOf(DRIVER, Life::Live)),
            Act::Is(Fact::Kin(DRIVER, Kind::Driver, 0, DRIVER)),
            Act::Is(Fact::Name(DRIVER, 0)),
            Act::Is(Fact::LifeOf(DEVICE, Life::Live)),
            Act::Is(Fact::Kin(DEVICE, Kind::Device, DRIVER, DEVICE)),
            Act::Is(Fact::Name(DEVICE, 2)),
            Act::Is(Fact::LifeOf(QUEUE, Life::Live)),
            Act::Is(Fact::Kin(QUEUE, Kind::Queue, DEVICE, DEVICE)),
            Act::Is(Fact::Name(QUEUE, 3)),
            Act::Is(Fact::LifeOf(0, Life::Gone)),
            Act::Is(Fact::LifeOf(4, Life::Gone)),
            Act::Is(Fact::NextId(4)),
            Act::Is(Fact::Len(4)),
            Act::Is(Fact::CleanedFrom(0, None)),
        ],
    },
    Case {
        name: "arrived requests don't count",
        objects: 4,
        acts: &[
            Act::Arrive(DEVICE, 4),
            Act::Is(Fact::Full(false)),
            Act::Create(QUEUE, Ok(5)),
            Act::Is(Fact::Full(true)),
            Act::Create(QUEUE, Err(CreateRefusal::Full)),
            Act::Is(Fact::NextId(6)),
            Act::Arrive(DEVICE, 6),
            Act::Is(Fact::Name(5, 4)),
            Act::Is(Fact::Name(6, 1)),
            Act::Is(Fact::IsUndeclared(6)),
            Act::Is(Fact::Kin(5, Kind::General, QUEUE, DEVICE)),
            Act::Is(Fact::OfClass(5, 0)),
        ],
    },
    Case {
        name: "a parent that is deleted comes before full",
        objects: 3,
        acts: &[
            Act::Create(QUEUE, Err(CreateRefusal::Full)),
            Act::AskDelete(QUEUE),
            Act::Create(QUEUE, Err(CreateRefusal::ParentDeleted)),
            Act::Create(9, Err(CreateRefusal::ParentDeleted)),
        ],
    },
    Case {
        name: "cells and callbacks are kept",
        objects: 8,
        acts: &[
            Act::Is(Fact::Cell(QUEUE, 7, Value::Num(0))),
            Act::Set(QUEUE, 7, Value::Stat(Status::Cancelled)),
            Act::Is(Fact::Cell(QUEUE, 7, Value::Stat(Status::Cancelled))),
            Act::Is(Fact::Cell(QUEUE, 6, Value::Num(0))),
            Act::Is(Fact::Cell(DEVICE, 7, Value::Num(0))),
            Act::Start(DEVICE, Callback::EvtCleanupCallback),
            Act::Is(Fact::Started(DEVICE, Callback::EvtCleanupCallback, true)),
            Act::Is(Fact::Started(DEVICE, Callback::EvtDestroyCallback, false)),
            Act::Is(Fact::Started(DEVICE, Callback::EvtIoRead, false)),
        ],
    },
    Case {
        name: "a deletion reaches what is below",
        objects: 16,
        acts: &[
            Act::Create(QUEUE, Ok(4)),
            Act::Create(4, Ok(5)),
            Act::Create(QUEUE, Ok(6)),
            Act::Create(5, Ok(7)),
            Act::Create(5, Ok(8)),
            Act::Gather(4, &[4, 5, 7, 8]),
            Act::Gather(8, &[8]),
            Act::Gather(DEVICE, &[2, 3, 4, 5, 6, 7, 8]),
            Act::Is(Fact::Below(DEVICE, 8, true)),
            Act::Is(Fact::Below(8, 8, false)),
            Act::AskOne(7),
            Act::Clean(7),
            Act::AskDelete(4),
            Act::Is(Fact::LifeOf(3, Life::Live)),
            Act::Is(Fact::LifeOf(4, Life::Asked)),
            Act::Is(Fact::LifeOf(5, Life::Asked)),
            Act::Is(Fact::LifeOf(6, Life::Live)),
            Act::Is(Fact::LifeOf(7, Life::Cleaned)),
            Act::Is(Fact::LifeOf(8, Life::Asked)),
            Act::Is(Fact::CleanedFrom(5, Some(7))),
            Act::Is(Fact::CleanedFrom(8, None)),
        ],
    },
    Case {
        name: "a deletion passes over what is beside, and goes by rising ids",
        objects: 16,
        acts: &[
            Act::Create(QUEUE, Ok(4)),
            Act::Create(QUEUE, Ok(5)),
            Act::Create(5, Ok(6)),
            Act::Create(4, Ok(7)),
            Act::Create(6, Ok(8)),
            Act::Create(4, Ok(9)),
            Act::Create(9, Ok(10)),
            Act::Create(7, Ok(11)),
            Act::Gather(4, &[4, 7, 9, 10, 11]),
            Act::Gather(5, &[5, 6, 8]),
            Act::Gather(0, &[0, 1, 2, 3, 4, 5, 6, 7, 8, 9, 10, 11]),
            Act::Gather(12, &[]),
            Act::AskDelete(4),
            Act::Is(Fact::LifeOf(QUEUE, Life::Live)),
            Act::Is(Fact::LifeOf(5, Life::Live)),
            Act::Is(Fact::LifeOf(6, Life::Live)),
            Act::Is(Fact::LifeOf(8, Life::Live)),
            Act::Is(Fact::LifeOf(7, Life::Asked)),
            Act::Is(Fact::LifeOf(9, Life::Asked)),
            Act::Is(Fact::LifeOf(10, Life::Asked)),
            Act::Is(Fact::LifeOf(11, Life::Asked)),
            Act::Clean(11),
            Act::Destroy(11),
            Act::Gather(4, &[4, 7, 9, 10]),
        ],
    },
    Case {
        name: "children go first, and the younger before the older",
        objects: 16,
        acts: &[
            Act::Create(QUEUE, Ok(4)),
            Act::Create(4, Ok(5)),
            Act::Create(4, Ok(6)),
            Act::Is(Fact::TurnFrom(0, None)),
            Act::Is(Fact::SomeLeaving(false)),
            Act::AskDelete(4),
            Act::Is(Fact::MayClean(6, &[4, 5, 6])),
            Act::Is(Fact::TurnFrom(0, Some(6))),
            Act::Is(Fact::TurnFrom(5, Some(6))),
            Act::Is(Fact::TurnFrom(7, None)),
            Act::Is(Fact::Turns(&[6])),
            Act::Is(Fact::SomeLeaving(true)),
            Act::Clean(6),
            Act::Is(Fact::MayClean(5, &[4, 5, 6])),
            Act::Is(Fact::TurnFrom(5, Some(5))),
            Act::Is(Fact::TurnFrom(6, None)),
            Act::Clean(5),
            Act::Is(Fact::MayClean(4, &[4, 5, 6])),
            Act::Is(Fact::TurnFrom(4, Some(4))),
            Act::Is(Fact::TurnFrom(5, None)),
            Act::Clean(4),
            Act::Is(Fact::TurnFrom(0, None)),
            Act::Is(Fact::CleanedFrom(0, Some(4))),
            Act::Is(Fact::SomeLeaving(true)),
            Act::Is(Fact::MayDestroy(4, false)),
            Act::Is(Fact::Ends(&[5, 6])),
            Act::Destroy(5),
            Act::Is(Fact::LifeOf(5, Life::Gone)),
            Act::Destroy(6),
            Act::Is(Fact::LifeOf(6, Life::Gone)),
            Act::Is(Fact::Ends(&[4])),
            Act::Destroy(4),
            Act::Is(Fact::LifeOf(4, Life::Gone)),
            Act::Is(Fact::SomeLeaving(false)),
            Act::Is(Fact::NextId(7)),
        ],
    },
    Case {
        name: "what goes first is told",
        objects: 16,
        acts: &[
            Act::Create(QUEUE, Ok(4)),
            Act::Create(4, Ok(5)),
            Act::Create(4, Ok(6)),
            Act::AskDelete(4),
            Act::Is(Fact::GoesFirst(4, Some(5))),
            Act::Is(Fact::GoesFirst(5, Some(6))),
            Act::Is(Fact::GoesFirst(6, None)),
            Act::Clean(6),
            Act::Clean(5),
            Act::Clean(4),
            Act::Is(Fact::GoesFirst(4, Some(5))),
        ],
    },
    // With no object of the plan there is room for no other, and the tree begins with a request to
    // which the driver holds a reference.
    Case {
        name: "a reference keeps an object",
        objects: 0,
        acts: &[
            Act::Is(Fact::References(1, 1)),
            Act::AskOne(1),
            Act::Clean(1),
            Act::Is(Fact::MayDestroy(1, false)),
            Act::Is(Fact::Ends(&[])),
            Act::Dereference(1, true),
            Act::Is(Fact::Ends(&[1])),
            Act::Dereference(1, false),
            Act::Destroy(1),
            Act::Is(Fact::References(1, 0)),
        ],
    },
];

/// The place of the first act that isn't as due.
fn first_wrong(tree: &mut Tree, subtree: &mut Subtree, plan: &Plan, acts: &[Act]) -> Option<usize> {
    for (place, act) in acts.iter().enumerate() {
        if !does(tree, subtree, plan, *act) {
            return Some(place);
        }
    }
    None
}

/// The same in a tree that is made for it.
fn wrong_in(mut tree: Tree, subtree: &mut Subtree, plan: &Plan, acts: &[Act]) -> Option<usize> {
    first_wrong(&mut tree, subtree, plan, acts)
}

/// The same in the tree at the opening of a plan that is made for it.
fn wrong_in_plan(
    alloc: Global,
    subtree: &mut Subtree,
    plan: Plan,
    acts: &[Act],
) -> Result<Option<usize>, Memory> {
    match opening(alloc, &plan) {
        Ok(tree) => Ok(wrong_in(tree, subtree, &plan, acts)),
        Err(memory) => Err(memory),
    }
}

#[test]
fn trees_change_as_told(rt: HostRuntime) -> Result<(), Fail> {
    let mut subtree = Subtree::make(rt.alloc())?;
    for case in &CASES {
        let plan = plan(rt.alloc(), case.objects)?;
        assert_eq!(rt;
            wrong_in_plan(rt.alloc(), &mut subtree, plan, case.acts)?,
            None,
            "{}",
            case.name
        );
    }
    Ok(())
}
