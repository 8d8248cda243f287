// What the lines of oracle/lists/rows.txt say, for replay_rows, replay_lookup and try_lookup: the change of a table,
// the words of an answer; and how many cases agreed.
#![tactic(auto)]

pub mod change;
pub mod tables;
pub mod tally;
pub mod words;
