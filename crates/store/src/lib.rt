// The tables of a catalogue: the fault of a frame that does not fit, and what a good frame adds to them; what the tables tell.
#![tactic(auto)]

pub mod frame;
pub mod lent;
pub mod limits;
pub mod lookup;
pub mod tables;
