// Frames: module numbers, places and versions as kinds of their own, pairs of digits, the one table of kinds, the fields of a frame, the faults that
// every reader tells, and frames as they are written.
#![tactic(auto)]

pub mod access;
pub mod digits;
pub mod faults;
pub mod fields;
pub mod kinds;
pub mod numbers;
pub mod texts;
pub mod written;
