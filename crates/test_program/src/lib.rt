//! Whole scenarios through the top call: tests alone. What is due was worked out by hand.
#![tactic(auto)]

#[cfg(test)]
mod call;
#[cfg(test)]
mod canonical;
#[cfg(test)]
mod faults;
#[cfg(test)]
mod findings;
#[cfg(test)]
mod generated;
#[cfg(test)]
mod loads;
#[cfg(test)]
mod objects;
#[cfg(test)]
mod other_agents;
#[cfg(test)]
mod pages;
#[cfg(test)]
mod processors;
#[cfg(test)]
mod reads;
#[cfg(test)]
mod refusals;
#[cfg(test)]
mod replays;
#[cfg(test)]
mod requests;
#[cfg(test)]
mod seeds;
#[cfg(test)]
mod worked;
