//! Patterns read from their tokens, with their sizes and the types of their segments: the tree that they spell, or the first
//! token with which no pattern can go on.
#![tactic(auto)]

pub mod cursor;
pub mod fault;
pub mod operators;
mod pattern_leaves;
pub mod pattern_segments;
mod pattern_starts;
pub mod patterns;
pub mod placed;
pub mod segment_types;
pub mod sizes;
