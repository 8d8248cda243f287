// The items of oracle/lists/rows.txt that ask something of tables as they stand, for try_lookup: lookups, names,
// definitions and numbers.
#![tactic(auto)]

pub mod lookups;
pub mod numbers;
