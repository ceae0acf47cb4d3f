//! Tests of the picture's tables over worked runs: what callbacks do where, where requests are, what holds of devices and queues,
//! worked out by hand from the traces. What a viewer of traces is told of them is read back as JSON.
#![tactic(auto)]

#[cfg(test)]
mod bands;
#[cfg(test)]
mod frames;
#[cfg(test)]
mod json;
#[cfg(test)]
mod requests;
#[cfg(test)]
mod trials;
#[cfg(test)]
mod worked;
