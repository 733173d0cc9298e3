//! Tests of calls that are removed from the programs of sources.
#![tactic(auto)]

#[cfg(test)]
mod calls;
