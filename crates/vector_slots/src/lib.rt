// For the program replay: the second program's vectors lie in slots; what a call was asked, and whether it left what is wanted.
#![tactic(auto)]

pub mod reader;
pub mod slots;
pub mod wanted;
