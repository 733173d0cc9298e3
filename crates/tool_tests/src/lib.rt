//! Tests of the tool as a whole: what it answers, writes and prints.
#![tactic(auto)]

#[cfg(test)]
mod checks;
#[cfg(test)]
mod containers;
#[cfg(test)]
mod run;
#[cfg(test)]
mod traces;
#[cfg(test)]
mod typing;
#[cfg(test)]
mod verdicts;
