//! The plans of scenarios.
use std::alloc::Global;
use wdf_base::Plan;
use wdf_parse::{TEXT_LIMIT, parse};
use wdf_plan::resolve;

/// The plan of a text that has one.
pub fn plan_of(alloc: Global, text: &str) -> Option<Plan> {
    if text.len() > TEXT_LIMIT {
        return None;
    }
    match parse(alloc, text.as_bytes()) {
        Ok(scene) => resolve(alloc, &scene).ok(),
        Err(_) => None,
    }
}

/// Gives the second register of a plan with two the name of the first, as no text can.
pub fn name_alike(plan: &mut Plan) {
    if plan.register_len() == 2 {
        let name = plan.register(0).name;
        plan.registers.item_mut(1).name = name;
    }
}
