// This crate has document 01's trials, and each smallest input where the Rust differs. Most are long evaluations of the definitions in crate `spec`
// (specs/), with nothing to run. Those of copying are calls of the library too, which promise what the trials say.
#![tactic(auto)]

pub mod copying_cases;
