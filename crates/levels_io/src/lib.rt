// Standard input and output of the program `levels`.
#![tactic(auto)]

pub mod input; // input.rt: lines of standard input
pub mod output; // output.rt: bytes handed to write
