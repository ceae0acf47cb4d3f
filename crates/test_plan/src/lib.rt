//! Tests of plans over texts: what `resolve` answers to the scene that a text stands for.
#![tactic(auto)]

#[cfg(test)]
mod answers;
#[cfg(test)]
mod bounds;
#[cfg(test)]
mod callbacks;
#[cfg(test)]
mod refusals;
#[cfg(test)]
mod second_posts;
#[cfg(test)]
mod second_scripts;
#[cfg(test)]
mod second_text;
#[cfg(test)]
mod serial_port;
