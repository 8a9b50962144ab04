// What the C host is answered, in numbers and bytes. The definitions are in specs/, what follows from them in proofs/; there is no code here.
#![tactic(auto)]

// An event as C gets it: its number, and its two numbers.
#[derive(Clone, Copy, Debug, PartialEq, Eq)]
pub struct EventNumbers {
    pub event: u32,
    pub value: u32,
    pub number: u32,
}
