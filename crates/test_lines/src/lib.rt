// What the programs that hold the handler against stored lists share: how they find a list and read it, what the bytes of a line
// spell, and the lines of the fixed list of calls.
#![tactic(auto)]

pub mod calls;
pub mod files;
pub mod lines;
pub mod lists;
