// This crate has section 3 of document 01: hulls of points, how far they are from the origin, distance classes, and the distance and the class of
// each proper element.
#![tactic(auto)]

pub mod classes;
pub mod distance;
pub mod elements;
pub mod hull;
