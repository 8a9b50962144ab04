// What writing and reading a character answer. The rules are in specs/, the theorems about them in proofs/.
#![tactic(auto)]

use symbol::Symbol;

// A symbol that was written.
#[derive(Clone, Copy, Debug, PartialEq, Eq)]
pub struct Encoded {
    // The character's number.
    pub character: u16,
    // The closing disparity.
    pub disparity: i32,
}

// A character that was read.
#[derive(Clone, Copy, Debug, PartialEq, Eq)]
pub enum Decoded {
    // Legal at the disparity in force: the symbol, and the disparity after it.
    Clean(Symbol, i32),
    // Legal only at the other disparity: the symbol, and the disparity that the other column ends at.
    WrongDisparity(Symbol, i32),
    // Legal at neither: the disparity is kept.
    Invalid(i32),
}
