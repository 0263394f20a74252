//! Tests of laws that are stated for every host, at a host of their own. Cases of modules and runs are data: see
//! `vr_wasm_cases`.
#![tactic(auto)]

#[cfg(test)]
mod in_step;
