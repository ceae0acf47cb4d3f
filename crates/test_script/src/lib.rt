//! Tests of driver scripts: what each statement, operator and call of a script does in a frame.
#![tactic(auto)]

#[cfg(test)]
mod tests;
