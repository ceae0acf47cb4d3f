use std::alloc::Global;
use wdf_base::Plan;
use wdf_parse::{ParseRefusal, TEXT_LIMIT, parse};
use wdf_plan::{PlanRefusal, resolve};

/// What becomes of a text.
#[derive(Clone, Copy, PartialEq)]
pub enum Answer {
    /// No scene stands for it.
    NotParsed,
    /// Memory was wanting.
    NoMemory,
    Resolved,
    Refused(PlanRefusal),
}

/// What becomes of a text.
pub fn answered(alloc: Global, text: &[u8]) -> Answer {
    if text.len() > TEXT_LIMIT {
        return Answer::NotParsed;
    }
    match parse(alloc, text) {
        Ok(scene) => match resolve(alloc, &scene) {
            Ok(_) => Answer::Resolved,
            Err(PlanRefusal::Memory) => Answer::NoMemory,
            Err(refusal) => Answer::Refused(refusal),
        },
        Err(ParseRefusal::Memory) => Answer::NoMemory,
        Err(_) => Answer::NotParsed,
    }
}

/// The plan of a text that has one.
pub fn plan_of(alloc: Global, text: &[u8]) -> Option<Plan> {
    if text.len() > TEXT_LIMIT {
        return None;
    }
    match parse(alloc, text) {
        Ok(scene) => resolve(alloc, &scene).ok(),
        Err(_) => None,
    }
}

/// Whether the names of a plan are these, by their numbers.
pub fn has_names(plan: &Plan, due: &[&str]) -> bool {
    for (name, due) in plan.names.as_slice().iter().zip(due) {
        if name.bytes() != due.as_bytes() {
            return false;
        }
    }
    plan.names.len() as usize == due.len()
}

/// The items from one place on, as many as `count`.
pub fn part<T>(items: &[T], from: usize, count: usize) -> &[T] {
    let (_, after) = items.split_at(from.min(items.len()));
    let (front, _) = after.split_at(count.min(after.len()));
    front
}
