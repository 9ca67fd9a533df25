#![tactic(auto)]

// This crate has nothing to run: it holds the theorems about the definitions of crate `spec` (specs/) and their proofs (proofs/).
