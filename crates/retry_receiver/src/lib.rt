// The receiver: its rule, a fresh one, and what it answers where nothing but a damaged segment came.
#![tactic(auto)]

ghost use Rattle.std.specs.Prelude.{◌≡◌};
ghost use Rattle.retry_rules.specs.Answers.{reply_says, arrival_beside, damaged_says};
ghost use Rattle.retry_rules.specs.States.{receiver_rule};
ghost use Rattle.retry_rules.specs.Fresh.{fresh_receiver_of, begun_says};
ghost use Rattle.retry_rules.specs.Arrival.{nack_of, damaged_arrival_of};

use refusal::Refusal;
use retry_parts::numbers::count_is_ruled;
use retry_rules::{Receiver, Reply};
use segment_size::size_is_allowed;

// The written rule of a receiver.
#[tactic(auto, unfolding(retry_rules::specs::States::receiver_rule))]
pub fn receiver_is_ruled(receiver: Receiver) -> bool
    ensures { result ≡ receiver_rule receiver }
{
    size_is_allowed(u32::from(receiver.size))
        && count_is_ruled(receiver.expected, receiver.received)
}

// A receiver that has received nothing, and expects number 0; refused, there is none.
#[tactic(auto, using(segment_size::proofs::Ranges::size_range), unfolding(retry_rules::specs::Fresh::fresh_receiver_of, retry_rules::specs::Fresh::size_checks))]
pub fn fresh_receiver(size: u32) -> Result<Receiver, Refusal>
    ensures { begun_says result ≡ fresh_receiver_of size }
{
    if !size_is_allowed(size) {
        return Err(Refusal::SegmentSize);
    }
    Ok(Receiver {
        expected: 0,
        received: 0,
        size: size as u16,
    })
}

// A NACK carries the expected number.
pub fn nack(receiver: Receiver) -> Reply
    ensures { reply_says result ≡ arrival_beside (nack_of receiver) }
{
    Reply::Nack(receiver.expected)
}

// The arrival of a damaged segment, which brings neither number nor bytes: the reply, and the receiver stays as it is.
#[tactic(auto, unfolding(retry_rules::specs::Arrival::damaged_arrival_of, retry_rules::specs::Arrival::receiver_checks))]
pub fn damaged_arrival(receiver: &Receiver) -> Result<Reply, Refusal>
    ensures { damaged_says result ≡ arrival_beside (damaged_arrival_of receiver.now) }
{
    if !receiver_is_ruled(*receiver) {
        return Err(Refusal::OutOfRange);
    }
    Ok(nack(*receiver))
}
