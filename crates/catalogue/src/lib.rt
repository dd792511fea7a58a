// Catalogues: a text read into tables, and refused by number and line as the rules say.
#![tactic(auto)]

pub mod reading;
