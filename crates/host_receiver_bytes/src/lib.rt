// The receiver's state in lent bytes, stored and loaded, and its reply in numbers.
#![tactic(auto)]

ghost use Rattle.std.specs.Prelude.{◌≡◌};
ghost use Rattle.host_retry_rules.specs.ReceiverBytes.{receiver_in, receiver_bytes, reply_numbers};

use retry_rules::{Receiver, Reply};

// The receiver that bytes stand for.
#[tactic(auto, unfolding(host_retry_rules::specs::ReceiverBytes::receiver_in))]
pub fn receiver_in(b: [u8; 4]) -> Receiver
    ensures { result ≡ receiver_in b }
{
    Receiver {
        expected: b[0],
        received: b[1],
        size: u16::from_be_bytes([b[2], b[3]]),
    }
}

// A receiver as its bytes.
#[tactic(auto, unfolding(host_retry_rules::specs::ReceiverBytes::receiver_bytes))]
pub fn receiver_bytes(r: Receiver) -> [u8; 4]
    ensures { result ≡ receiver_bytes r }
{
    let [high, low] = r.size.to_be_bytes();
    [r.expected, r.received, high, low]
}

// A reply as C is answered it: whether it is NACK, and its segment's number.
pub fn reply_numbers(reply: Reply) -> [u32; 2]
    ensures { result ≡ reply_numbers reply }
{
    match reply {
        Reply::Ack(number) => [0, u32::from(number)],
        Reply::Nack(number) => [1, u32::from(number)],
    }
}
