// The parts of a call in the script. What is not there is zero.
ghost use Rattle.std.specs.Prelude.{◌≤◌};

// What is called: the sender, or the receiver.
#[derive(Clone, Copy, Debug, PartialEq, Eq)]
pub enum What {
    Sender(SenderCall),
    Receiver(ReceiverCall),
}

#[derive(Clone, Copy, Debug, PartialEq, Eq)]
pub enum SenderCall {
    Fresh,
    Offer,
    Send,
    Reply,
    DamagedReply,
    Tick,
    Reset,
    Set,
}

#[derive(Clone, Copy, Debug, PartialEq, Eq)]
pub enum ReceiverCall {
    Fresh,
    Arrival,
    DamagedArrival,
    Set,
}

// One call, and the script that it is a part of.
#[derive(Clone, Copy)]
pub struct Call<'a> {
    pub bytes: &'a [u8],
    pub script: &'a [u8],
}

impl<'a> Call<'a> {
    pub fn byte(self, at: usize) -> u8 {
        self.bytes.get(at).copied().unwrap_or(0)
    }

    // The first byte says what is called.
    pub fn what(self) -> What {
        match self.byte(0) {
            0 => What::Sender(SenderCall::Fresh),
            1 => What::Sender(SenderCall::Offer),
            2 => What::Sender(SenderCall::Send),
            3 => What::Sender(SenderCall::Reply),
            4 => What::Sender(SenderCall::DamagedReply),
            5 => What::Sender(SenderCall::Tick),
            6 => What::Sender(SenderCall::Reset),
            7 => What::Sender(SenderCall::Set),
            8 => What::Receiver(ReceiverCall::Fresh),
            9 => What::Receiver(ReceiverCall::Arrival),
            10 => What::Receiver(ReceiverCall::DamagedArrival),
            _ => What::Receiver(ReceiverCall::Set),
        }
    }

    // The two flags of the flag byte.
    pub fn flags(self) -> (bool, bool) {
        let both = self.byte(1);
        (both % 2 == 1, both / 2 % 2 == 1)
    }

    // The i-th of the three numbers, low byte first.
    pub fn field(self, i: usize) -> u32 {
        let at = 4 + 4 * (i % 3);
        u32::from_le_bytes([
            self.byte(at),
            self.byte(at + 1),
            self.byte(at + 2),
            self.byte(at + 3),
        ])
    }

    // A segment's bytes are a part of the script itself, from a place that the seed gives.
    pub fn segment(self, bytes: u32) -> &'a [u8] {
        let from = clamped(8 * u32::from(self.byte(2)), self.script.len());
        let n = clamped(bytes, self.script.len() - from);
        &self.script[from..from + n]
    }
}

// A length that memory of this program can have.
pub fn clamped(n: u32, most: usize) -> usize
    ensures { result ≤ most }
{
    (n as usize).min(most)
}
