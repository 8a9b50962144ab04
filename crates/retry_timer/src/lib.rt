// The sender's timer: one call of tick is one column.
#![tactic(auto)]

ghost use Rattle.std.specs.Prelude.{◌≡◌, ◌<◌};
ghost use Rattle.retry_rules.specs.Answers.{tick_says, tick_beside};
ghost use Rattle.retry_rules.specs.Tick.{expired, fallen, ticked, tick_of};

use refusal::Refusal;
use retry_rules::{Counters, DOWN, Sender};
use retry_state::may_call;

// An expiry is counted, and the timer is at its start.
fn expired(c: Counters) -> Counters
    requires { c.expiries < 3 }
    ensures { result ≡ expired c }
{
    Counters {
        timer: c.columns,
        expiries: c.expiries + 1,
        ..c
    }
}

// The link goes down; nothing is sent, and the send point stays.
fn fallen(c: Counters) -> Counters
    ensures { result ≡ fallen c }
{
    Counters { link: DOWN, ..c }
}

// Expiries one and two: send point to the oldest, timer restarts. The third takes the link down.
#[tactic(auto, unfolding(retry_rules::specs::Tick::ticked))]
fn ticked(c: Counters) -> Counters
    requires { c.expiries < 3 }
    ensures { result ≡ ticked c }
{
    if c.outstanding == 0 {
        c
    } else if c.timer != 1 {
        Counters {
            timer: c.timer.saturating_sub(1),
            ..c
        }
    } else if c.expiries < 2 {
        Counters {
            point: 0,
            ..expired(c)
        }
    } else {
        fallen(expired(c))
    }
}

// One column. It answers whether this call took the link down, and that call is not itself refused.
#[tactic(auto, using(retry_rules::proofs::Errs::tick_err, retry_rules::proofs::Done::tick_done, retry_rules::proofs::Seen::sender_seen))]
pub fn tick(sender: &mut Sender) -> Result<bool, Refusal>
    ensures { (tick_says result ≡ tick_beside (tick_of sender.old)) × (sender.new ≡ (tick_of sender.old).sender) }
{
    may_call(*sender)?;
    sender.counters = ticked(sender.counters);
    Ok(sender.counters.link == DOWN)
}
