// The refusals of document 01's table, and their numbers.
#![tactic(auto)]

ghost use Rattle.std.specs.Prelude.{◌≡◌};
ghost use Rattle.refusal.specs.Order.{number_of, order, order_says};

use std::error::Error;
use std::fmt;

#[derive(Clone, Copy, Debug, PartialEq, Eq)]
pub enum Refusal {
    // A number is out of range, or a state breaks its written rule.
    OutOfRange,
    // S is not allowed, or a segment is over S bytes.
    SegmentSize,
    // Control was asked for a byte that is not writable.
    NotWritable,
    // A packet or segment of no bytes.
    NoBytes,
    // Eight segments are stored.
    Full,
    // The output is shorter than the result.
    ShortOutput,
    // The sender's link is down.
    LinkDown,
    // A capture with a wrong length or closing bit, or over 65,535 bytes.
    BadCapture,
}

impl Refusal {
    // Every refusal of the table, in the order in which they are given.
    pub fn in_order() -> [Refusal; 8]
        ensures { order_says result ≡ order }
    {
        [
            Refusal::LinkDown,
            Refusal::BadCapture,
            Refusal::OutOfRange,
            Refusal::SegmentSize,
            Refusal::NotWritable,
            Refusal::NoBytes,
            Refusal::Full,
            Refusal::ShortOutput,
        ]
    }

    // Its number in the table.
    pub fn number(self) -> u8
        ensures { result ≡ number_of self }
    {
        match self {
            Refusal::OutOfRange => 1,
            Refusal::SegmentSize => 2,
            Refusal::NotWritable => 3,
            Refusal::NoBytes => 4,
            Refusal::Full => 5,
            Refusal::ShortOutput => 6,
            Refusal::LinkDown => 7,
            Refusal::BadCapture => 8,
        }
    }
}

// As a call from C answers it.
impl From<Refusal> for u32 {
    ghost from_gives = { λ refusal n. n ≡ number_of refusal };

    fn from(refusal: Refusal) -> u32 {
        u32::from(refusal.number())
    }
}

impl fmt::Display for Refusal {
    fn fmt<W: fmt::Write>(&self, f: &mut fmt::Formatter<W>) -> fmt::Result {
        write!(f, "refused {}", self.number())
    }
}

impl Error for Refusal {}
