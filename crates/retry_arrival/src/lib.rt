// The arrival of a valid segment: what it is answered with, and what is delivered.
#![tactic(auto)]

ghost use Rattle.std.specs.Prelude.{◌≡◌, false, length};
ghost use Rattle.refusal.specs.Order.{refusal_says, refusal_of};
ghost use Rattle.retry_rules.specs.Answers.{reply_says, arrival_beside, arrival_says};
ghost use Rattle.retry_rules.specs.Arrival.{wanted, arrival_checks, advanced, answer_to, arrival_of, arrival_output};

use refusal::Refusal;
use retry_parts::lent::lay;
use retry_parts::numbers::{after, among_last, one_more};
use retry_receiver::{nack, receiver_is_ruled};
use retry_rules::{Arrival, Delivered, Receiver, Reply};

// The expected number, and room: the segment is to be delivered.
fn is_wanted(receiver: Receiver, number: u32, room: bool) -> bool
    ensures { result ≡ wanted receiver number room }
{
    number == u32::from(receiver.expected) && room
}

// What an arrival is refused with.
#[tactic(auto, unfolding(retry_rules::specs::Arrival::arrival_checks))]
fn may_arrive(
    receiver: Receiver,
    number: u32,
    channel: u32,
    length: usize,
    room: bool,
    output: usize,
) -> Result<(), Refusal>
    ensures { refusal_says result ≡ refusal_of (arrival_checks receiver number channel length room output) }
{
    if !receiver_is_ruled(receiver) || 16 <= number || 16 <= channel {
        return Err(Refusal::OutOfRange);
    }
    if usize::from(receiver.size) < length {
        return Err(Refusal::SegmentSize);
    }
    if length == 0 {
        return Err(Refusal::NoBytes);
    }
    if is_wanted(receiver, number, room) && output < length {
        return Err(Refusal::ShortOutput);
    }
    Ok(())
}

// The receiver after a delivery: one more is received, and the next number is expected.
fn advanced(receiver: Receiver) -> Receiver
    ensures { result ≡ advanced receiver }
{
    Receiver {
        expected: after(receiver.expected, 1),
        received: one_more(receiver.received),
        ..receiver
    }
}

// The reply to a segment that is not delivered: one of the last eight is acknowledged again, and any other is not.
#[tactic(auto, unfolding(retry_rules::specs::Arrival::answer_to))]
fn reply_to(receiver: Receiver, number: u8) -> Reply
    ensures { reply_says result ≡ arrival_beside (answer_to receiver number 0 false 0 false) }
{
    if number != receiver.expected && among_last(receiver.received, receiver.expected, number) {
        return Reply::Ack(number);
    }
    nack(receiver)
}

// The arrival of a valid segment. Its bytes are in `output` if it is delivered.
pub fn arrival(
    receiver: &mut Receiver,
    number: u32,
    channel: u32,
    bad: bool,
    bytes: &[u8],
    room: bool,
    output: &mut [u8],
) -> Result<Arrival, Refusal>
    ensures { (let answer = arrival_of receiver.old number channel bad (length bytes.now) room (length output.old) in
        (arrival_says result ≡ arrival_beside answer) × (receiver.new ≡ answer.receiver)
        × (output.new ≡ arrival_output receiver.old number channel bytes.now room output.old)) }
{
    may_arrive(*receiver, number, channel, bytes.len(), room, output.len())?;
    if !is_wanted(*receiver, number, room) {
        return Ok(Arrival {
            reply: reply_to(*receiver, number as u8),
            delivered: None,
        });
    }
    lay(bytes, output, 0);
    *receiver = advanced(*receiver);
    let delivered = Delivered {
        channel: channel as u8,
        bad,
        length: bytes.len() as u16,
    };
    Ok(Arrival {
        reply: Reply::Ack(number as u8),
        delivered: Some(delivered),
    })
}
