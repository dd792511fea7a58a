// Rows: an incompatibility as words of bits in a lent byte area, a word for each module and one more. A module's word has a bit for each of its versions,
// oldest first from the lowest bit on; the last word has a bit for each module whose set has absent.
#![tactic(auto)]

pub mod area;
pub mod bits;
pub mod derived;
pub mod needed;
