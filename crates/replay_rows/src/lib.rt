// The items of oracle/lists/rows.txt that ask for rows or for a flat table, for try_lookup.
#![tactic(auto)]

pub mod flats;
pub mod rows;
