// This crate has the types of a solid's elements (conc/element_types.rs), held in lent words behind the solid's lists: the start by distance classes,
// one step at a rank, a sweep of steps, and the sweeps until one leaves the number of types unchanged. The words and their shape are two parameters
// throughout; module `sweeping` says why.
#![tactic(auto)]

pub mod compare;
pub mod counting;
pub mod numbering;
pub mod settling;
pub mod sorting;
pub mod stepping;
pub mod sweeping;
