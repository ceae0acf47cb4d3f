use std::alloc::Global;
use wdf_base::Plan;
use wdf_parse::{TEXT_LIMIT, parse};
use wdf_plan::resolve;

/// The plan of a text that has one.
pub fn plan_of(alloc: Global, text: &str) -> Option<Plan> {
    if text.len() > TEXT_LIMIT {
        return None;
    }
    match parse(alloc, text.as_bytes()) {
        Ok(scene) => resolve(alloc, &scene).ok(),
        Err(_) => None,
    }
}
