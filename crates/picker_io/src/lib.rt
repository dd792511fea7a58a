// What the programs share: a catalogue read from a reader, picked for, and its answer written to standard output.
#![tactic(auto)]

pub mod answer;
pub mod input;
pub mod run;
