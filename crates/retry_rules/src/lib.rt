// The states of both ends of the retry and what each call answers. The rules of them are in specs/, the theorems in proofs/; there is no code here.
#![tactic(auto)]

// The sender's link.
pub const UP: u8 = 1;

pub const DOWN: u8 = 2;

// The sender's numbers. All zeros is no sender: its link is neither up nor down.
#[derive(Clone, Copy, Debug, PartialEq, Eq)]
pub struct Counters {
    // the number of the oldest segment, the first not released
    pub oldest: u8,
    pub stored: u8,
    // of the stored ones, those sent at least once; the others are waiting
    pub outstanding: u8,
    // the send point: how many stored segments lie before the next to go; 0 is the oldest
    pub point: u8,
    // how many of the last eight numbers before the oldest were really released
    pub released: u8,
    // ticks left until the timer expires; at its start it is T
    pub timer: u16,
    // expiries since the last clearing
    pub expiries: u8,
    // T, the columns from the start of the timer to its expiry
    pub columns: u16,
    // S, the segment size
    pub size: u16,
    // UP or DOWN. It is a number and no enum: a host may lend a state with any byte here, which is refused as out of range.
    pub link: u8,
}

// What one of the eight buffers holds beside its bytes.
#[derive(Clone, Copy, Debug, PartialEq, Eq)]
pub struct Slot {
    pub length: u16,
    pub channel: u8,
    pub bad: bool,
}

#[derive(Clone, Copy, Debug, PartialEq, Eq)]
pub struct Sender {
    pub counters: Counters,
    // one for each buffer; segment number k is in buffer k mod 8
    pub slots: [Slot; 8],
}

// All zeros is no receiver: S is not allowed.
#[derive(Clone, Copy, Debug, PartialEq, Eq)]
pub struct Receiver {
    pub expected: u8,
    // how many of the last eight numbers before the expected one were really received
    pub received: u8,
    // S, the segment size
    pub size: u16,
}

// What a send hands out beside the bytes.
#[derive(Clone, Copy, Debug, PartialEq, Eq)]
pub struct Segment {
    pub number: u8,
    pub channel: u8,
    pub bad: bool,
    pub length: u16,
}

// What the receiver answers to a segment, with a segment's number.
#[derive(Clone, Copy, Debug, PartialEq, Eq)]
pub enum Reply {
    Ack(u8),
    Nack(u8),
}

// What is delivered, beside its bytes.
#[derive(Clone, Copy, Debug, PartialEq, Eq)]
pub struct Delivered {
    pub channel: u8,
    pub bad: bool,
    pub length: u16,
}

// What an arrival answers: the reply that goes out, and what is delivered, if it is.
#[derive(Clone, Copy, Debug, PartialEq, Eq)]
pub struct Arrival {
    pub reply: Reply,
    pub delivered: Option<Delivered>,
}
