// Sheets: a derivation sheet read line by line and judged, apart from the search that wrote it.
#![tactic(auto)]

pub mod frame;
pub mod reading;
