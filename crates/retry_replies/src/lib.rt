// What the sender makes of a reply, ACK or NACK with a number, and of a damaged one.
#![tactic(auto)]

ghost use Rattle.std.specs.Prelude.{◌≡◌, eqb};
ghost use Rattle.refusal.specs.Order.{refusal_says, refusal_of};
ghost use Rattle.retry_rules.specs.Reply.{to_oldest, restarted, one_released, acked, nacked, heard, reply_checks, reply_of, damaged_reply_of};

use refusal::Refusal;
use retry_parts::numbers::{after, among_last, one_more};
use retry_rules::{Counters, Sender};
use retry_state::may_call;

// Send point to the oldest.
fn to_oldest(c: Counters) -> Counters
    ensures { result ≡ to_oldest c }
{
    Counters { point: 0, ..c }
}

// The timer restarts and the expiry count is cleared.
fn restarted(c: Counters) -> Counters
    ensures { result ≡ restarted c }
{
    Counters {
        timer: c.columns,
        expiries: 0,
        ..c
    }
}

// The oldest is released; a send point left behind moves up, and one at the oldest stays there.
fn one_released(c: Counters) -> Counters
    ensures { result ≡ one_released c }
{
    Counters {
        oldest: after(c.oldest, 1),
        stored: c.stored.saturating_sub(1),
        outstanding: c.outstanding.saturating_sub(1),
        point: c.point.saturating_sub(1),
        released: one_more(c.released),
        ..c
    }
}

// The reply is of the oldest's number.
fn is_of_oldest(c: Counters, number: u8) -> bool
    ensures { result ≡ eqb number c.oldest }
{
    number == c.oldest
}

// ACK of the oldest: release it. ACK of one of the last eight really released: ignored. Any other ACK: send point to the oldest.
#[tactic(auto, unfolding(retry_rules::specs::Reply::acked))]
fn acked(c: Counters, number: u8) -> Counters
    ensures { result ≡ acked c number }
{
    if is_of_oldest(c, number) {
        restarted(one_released(c))
    } else if among_last(c.released, c.oldest, number) {
        c
    } else {
        to_oldest(c)
    }
}

// Any NACK: send point to the oldest. One of the oldest's number restarts the timer and clears the expiry count.
#[tactic(auto, unfolding(retry_rules::specs::Reply::nacked))]
fn nacked(c: Counters, number: u8) -> Counters
    ensures { result ≡ nacked c number }
{
    let back = to_oldest(c);
    if is_of_oldest(c, number) {
        restarted(back)
    } else {
        back
    }
}

// With nothing outstanding any reply is ignored.
#[tactic(auto, unfolding(retry_rules::specs::Reply::heard))]
fn heard(c: Counters, nack: bool, number: u8) -> Counters
    ensures { result ≡ heard c nack number }
{
    if c.outstanding == 0 {
        c
    } else if nack {
        nacked(c, number)
    } else {
        acked(c, number)
    }
}

// What a reply is refused with.
#[tactic(auto, using(crate::proofs::First::refused_first), unfolding(retry_rules::specs::Reply::reply_checks, retry_rules::specs::Reply::sender_checks))]
fn may_hear(sender: Sender, number: u32) -> Result<(), Refusal>
    ensures { refusal_says result ≡ refusal_of (reply_checks sender number) }
{
    may_call(sender)?;
    if 16 <= number {
        return Err(Refusal::OutOfRange);
    }
    Ok(())
}

// A reply: `nack` false is ACK. It comes as C has it, with any number; a `Reply` holds a segment's, and to make one would only be a step more.
#[tactic(auto, using(retry_rules::proofs::Errs::reply_err, retry_rules::proofs::Done::reply_done, retry_rules::proofs::Seen::reply_seen))]
pub fn reply(sender: &mut Sender, nack: bool, number: u32) -> Result<(), Refusal>
    ensures { (refusal_says result ≡ (reply_of sender.old nack number).refusal) × (sender.new ≡ (reply_of sender.old nack number).sender) }
{
    may_hear(*sender, number)?;
    // A plain `as`: the check has made sure that the number is below 16, and a `try_from` would answer an error that cannot come.
    sender.counters = heard(sender.counters, nack, number as u8);
    Ok(())
}

// A damaged reply is ignored: it can only be refused.
#[tactic(auto, unfolding(retry_rules::specs::Reply::damaged_reply_of))]
pub fn damaged_reply(sender: &Sender) -> Result<(), Refusal>
    ensures { refusal_says result ≡ (damaged_reply_of sender.now).refusal }
{
    may_call(*sender)
}
