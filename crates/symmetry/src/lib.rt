// This crate has, of section 6 of document 01, what lists the members of a solid in lent words, flag by flag (conc/symmetry.rs): the exchange of
// facets, a flag's columns and candidate, the candidate's test with its vertex sets, and the members. The calls are in crate `search`.
#![tactic(auto)]

pub mod candidates;
pub mod exchange;
pub mod listing;
pub mod vertex_sets;
