//! Tests of bodies, files and overlays over public calls.
#![tactic(auto)]

#[cfg(test)]
mod files;
