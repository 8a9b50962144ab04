// A fresh sender, and a sender that is reset.
#![tactic(auto)]

ghost use Rattle.std.specs.Prelude.{◌≡◌};
ghost use Rattle.refusal.specs.Order.{refusal_says, refusal_of};
ghost use Rattle.retry_rules.specs.Fresh.{fresh_sender, fresh_checks, fresh_says, fresh_sender_of, reset_of};

use refusal::Refusal;
use retry_parts::numbers::time_is_allowed;
use retry_rules::{Counters, Sender, Slot, UP};
use retry_state::sender_is_ruled;
use segment_size::size_is_allowed;

// Nothing stored, the timer at its start, the link up.
fn fresh(columns: u16, size: u16) -> Sender
    ensures { result ≡ fresh_sender columns size }
{
    Sender {
        counters: Counters {
            oldest: 0,
            stored: 0,
            outstanding: 0,
            point: 0,
            released: 0,
            timer: columns,
            expiries: 0,
            columns,
            size,
            link: UP,
        },
        slots: [Slot {
            length: 0,
            channel: 0,
            bad: false,
        }; 8],
    }
}

// What a fresh sender is refused with. `columns` and `size` are two parameters and no struct: C gives each by itself, any number.
#[tactic(auto, unfolding(retry_rules::specs::Fresh::fresh_checks))]
fn may_begin(columns: u32, size: u32) -> Result<(), Refusal>
    ensures { refusal_says result ≡ refusal_of (fresh_checks columns size) }
{
    if !time_is_allowed(columns) {
        return Err(Refusal::OutOfRange);
    }
    if !size_is_allowed(size) {
        return Err(Refusal::SegmentSize);
    }
    Ok(())
}

// A sender that has stored nothing yet, on a link that is up; refused, there is none.
#[tactic(auto, using(retry_rules::proofs::Errs::fresh_sender_err, retry_rules::proofs::Done::fresh_sender_done, retry_rules::proofs::Seen::fresh_seen))]
pub fn fresh_sender(columns: u32, size: u32) -> Result<Sender, Refusal>
    ensures { fresh_says result ≡ fresh_sender_of columns size }
{
    may_begin(columns, size)?;
    // A plain `as`: the checks have made sure that both fit, and a `try_from` would answer an error that cannot come.
    Ok(fresh(columns as u16, size as u16))
}

// Makes the sender fresh; refused, it stays, with all that it stores. A link that is down is no reason to refuse.
#[tactic(auto, using(crate::proofs::Anew::broken, crate::proofs::Anew::refused))]
pub fn reset(sender: &mut Sender, columns: u32, size: u32) -> Result<(), Refusal>
    ensures { (refusal_says result ≡ (reset_of sender.old columns size).refusal) × (sender.new ≡ (reset_of sender.old columns size).sender) }
{
    if !sender_is_ruled(*sender) {
        return Err(Refusal::OutOfRange);
    }
    *sender = fresh_sender(columns, size)?;
    Ok(())
}
