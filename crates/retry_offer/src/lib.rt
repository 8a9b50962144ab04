// An offer: a segment is stored in one of the sender's eight buffers, one lent run of 8 times S bytes.
#![tactic(auto)]

ghost use Rattle.std.specs.Prelude.{◌≡◌, ◌<◌, length};
ghost use Rattle.refusal.specs.Order.{refusal_says, refusal_of};
ghost use Rattle.retry_rules.specs.Answers.{offer_says, offer_beside};
ghost use Rattle.retry_rules.specs.Offer.{offer_checks, one_stored, stored_in, offer_of, offer_buffers};

use refusal::Refusal;
use retry_parts::lent::lay;
use retry_parts::numbers::after;
use retry_rules::{Counters, Sender, Slot};
use retry_slots::{buffer_of, slot_of};
use retry_state::may_call;

// What an offer is refused with.
#[tactic(auto, using(retry_slots::proofs::First::refused_first), unfolding(retry_rules::specs::Offer::offer_checks, retry_rules::specs::Reply::sender_checks))]
fn may_offer(sender: Sender, lent: usize, channel: u32, length: usize) -> Result<(), Refusal>
    ensures { refusal_says result ≡ refusal_of (offer_checks sender lent channel length) }
{
    may_call(sender)?;
    let c = sender.counters;
    if lent != 8 * usize::from(c.size) || 16 <= channel {
        return Err(Refusal::OutOfRange);
    }
    if usize::from(c.size) < length {
        return Err(Refusal::SegmentSize);
    }
    if length == 0 {
        return Err(Refusal::NoBytes);
    }
    if c.stored == 8 {
        return Err(Refusal::Full);
    }
    Ok(())
}

// One more is stored, and waits.
fn one_stored(c: Counters) -> Counters
    requires { c.stored < 8 }
    ensures { result ≡ one_stored c }
{
    Counters {
        stored: c.stored + 1,
        ..c
    }
}

// The segment is in the free buffer.
fn stored_in(sender: Sender, channel: u8, bad: bool, length: u16) -> Sender
    requires { sender.counters.stored < 8 }
    ensures { result ≡ stored_in sender channel bad length }
{
    let c = sender.counters;
    let mut slots = sender.slots;
    slots[slot_of(c, c.stored)] = Slot {
        length,
        channel,
        bad,
    };
    Sender {
        counters: one_stored(c),
        slots,
    }
}

// An offer: a segment is stored, if there is a free buffer, and gets the number after the last stored one, which is the answer.
pub fn offer(
    sender: &mut Sender,
    buffers: &mut [u8],
    channel: u32,
    bad: bool,
    bytes: &[u8],
) -> Result<u8, Refusal>
    ensures { (offer_says result ≡ offer_beside (offer_of sender.old (length buffers.old) channel bad (length bytes.now)))
        × (sender.new ≡ (offer_of sender.old (length buffers.old) channel bad (length bytes.now)).sender)
        × (buffers.new ≡ offer_buffers sender.old buffers.old channel bytes.now) }
{
    may_offer(*sender, buffers.len(), channel, bytes.len())?;
    let c = sender.counters;
    lay(bytes, buffers, buffer_of(c, c.stored));
    *sender = stored_in(*sender, channel as u8, bad, bytes.len() as u16);
    Ok(after(c.oldest, c.stored))
}
