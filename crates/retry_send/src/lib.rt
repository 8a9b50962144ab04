// A send: the segment at the send point is taken out of the sender's eight buffers, one lent run of 8 times S bytes.
#![tactic(auto)]

ghost use Rattle.std.specs.Prelude.{◌≡◌, ◌<◌, Ok, Some, length};
ghost use Rattle.refusal.specs.Order.{refusal_says, refusal_of};
ghost use Rattle.retry_rules.specs.Answers.{send_says, send_beside};
ghost use Rattle.retry_rules.specs.Send.{send_checks, one_sent, due_sent, send_of, send_output};

use refusal::Refusal;
use retry_parts::lent::lay;
use retry_parts::numbers::after;
use retry_rules::{Counters, Segment, Sender};
use retry_slots::{buffer_of, slot_of};
use retry_state::may_call;

// What a send is refused with.
#[tactic(auto, using(retry_slots::proofs::First::refused_first, retry_slots::proofs::First::passed_first), unfolding(retry_rules::specs::Send::send_checks, retry_rules::specs::Reply::sender_checks))]
fn may_send(sender: Sender, lent: usize, output: usize) -> Result<(), Refusal>
    ensures { refusal_says result ≡ refusal_of (send_checks sender lent output) }
{
    may_call(sender)?;
    let c = sender.counters;
    if lent != 8 * usize::from(c.size) {
        return Err(Refusal::OutOfRange);
    }
    if c.point < c.stored && output < usize::from(sender.slots[slot_of(c, c.point)].length) {
        return Err(Refusal::ShortOutput);
    }
    Ok(())
}

// The send point moves on; a segment sent for the first time waits no longer. The timer goes on as it was.
fn one_sent(c: Counters) -> Counters
    requires { c.point < 8 }
    ensures { result ≡ one_sent c }
{
    let point = c.point + 1;
    Counters {
        outstanding: c.outstanding.max(point),
        point,
        ..c
    }
}

// The segment at the send point.
fn due(sender: Sender) -> Segment
    ensures { send_says (Ok (Some result)) ≡ send_beside (due_sent sender) }
{
    let c = sender.counters;
    let slot = sender.slots[slot_of(c, c.point)];
    Segment {
        number: after(c.oldest, c.point),
        channel: slot.channel,
        bad: slot.bad,
        length: slot.length,
    }
}

// A send: the segment at the send point goes out, its bytes into `output`, and the send point moves on. Past the last stored one there is none.
pub fn send(
    sender: &mut Sender,
    buffers: &[u8],
    output: &mut [u8],
) -> Result<Option<Segment>, Refusal>
    ensures { (send_says result ≡ send_beside (send_of sender.old (length buffers.now) (length output.old)))
        × (sender.new ≡ (send_of sender.old (length buffers.now) (length output.old)).sender)
        × (output.new ≡ send_output sender.old buffers.now output.old) }
{
    may_send(*sender, buffers.len(), output.len())?;
    let c = sender.counters;
    if c.stored <= c.point {
        return Ok(None);
    }
    let segment = due(*sender);
    let from = buffer_of(c, c.point);
    lay(
        &buffers[from..from + usize::from(segment.length)],
        output,
        0,
    );
    sender.counters = one_sent(c);
    Ok(Some(segment))
}
