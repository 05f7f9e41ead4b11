// What programs over lines share: the lines of standard input, and the answers to them on standard output.
#![tactic(auto)]

pub mod input;
pub mod output;
