// A selection's text, written into a lent area from the table of versions and the record of choices.
#![tactic(auto)]

pub mod text;
