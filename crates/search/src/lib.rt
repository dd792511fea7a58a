// The backtracking search over the tables of a catalogue: a selection, or the lines of a sheet in the work area.
#![tactic(auto)]

pub mod choices;
pub mod find;
pub mod walk;
