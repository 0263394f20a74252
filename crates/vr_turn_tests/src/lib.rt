//! Tests of the turn, with a journal of calls as its value.
#![tactic(auto)]

#[cfg(test)]
mod journals;
