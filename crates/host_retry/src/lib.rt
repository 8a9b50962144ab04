// The sender's state loaded from lent bytes.
#![tactic(auto)]

ghost use Rattle.std.specs.Prelude.{◌≡◌, ◌<◌};
ghost use Rattle.host_retry_rules.specs.SenderBytes.{counters_in, slot_from, sender_in};

use retry_rules::{Counters, Sender, Slot};
use std::array;

#[tactic(auto, unfolding(host_retry_rules::specs::SenderBytes::counters_in))]
fn counters_in(b: [u8; 38]) -> Counters
    ensures { result ≡ counters_in b }
{
    Counters {
        oldest: b[0],
        stored: b[1],
        outstanding: b[2],
        point: b[3],
        released: b[4],
        timer: u16::from_be_bytes([b[5], b[6]]),
        expiries: b[7],
        columns: u16::from_be_bytes([b[8], b[9]]),
        size: u16::from_be_bytes([b[10], b[11]]),
        link: b[12],
    }
}

// What buffer i holds beside its bytes.
#[tactic(auto, using(crate::proofs::Marks::mark_is_bit), unfolding(host_retry_rules::specs::SenderBytes::slot_from))]
fn slot_from(b: [u8; 38], i: usize) -> Slot
    requires { i < 8 }
    ensures { result ≡ slot_from b i }
{
    Slot {
        length: u16::from_be_bytes([b[13 + 2 * i], b[14 + 2 * i]]),
        channel: b[29 + i],
        bad: (b[37] >> i) % 2 == 1,
    }
}

// The sender that bytes stand for.
#[tactic(auto, unfolding(host_retry_rules::specs::SenderBytes::sender_in))]
pub fn sender_in(b: [u8; 38]) -> Sender
    ensures { result ≡ sender_in b }
{
    Sender {
        counters: counters_in(b),
        slots: array::from_fn(|i| slot_from(b, i)),
    }
}
