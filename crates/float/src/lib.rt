// This crate has the numbers of document 01, section 1: 64-bit floats, each operation rounded once; the tolerance, the root and vectors.
#![tactic(auto)]

pub mod bits;
pub mod root;
pub mod tolerance;
pub mod vector;

use spec::MAX_DIMENSION;

// The largest dimension, which is the width of every array.
pub const DIMENSION: usize = MAX_DIMENSION;
