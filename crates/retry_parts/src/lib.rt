// What both ends of the retry are made of: segment numbers, and bytes laid into lent memory.
#![tactic(auto)]

pub mod lent;
pub mod numbers;
