// What a search asks of the tables of a catalogue: the module to choose next, whether a version fits, and the need that bars it; and the lines that it notes.
#![tactic(auto)]

pub mod fitting;
pub mod noting;
pub mod scan;
pub mod wanted;
