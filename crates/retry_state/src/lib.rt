// The written rule of a sender, and what every call but reset is refused with for its state alone.
#![tactic(auto)]

ghost use Rattle.std.specs.Prelude.{◌≡◌, ◌&&◌, ◌||◌, ltb, leb, eqb};
ghost use Rattle.refusal.specs.Order.{refusal_says, refusal_of};
ghost use Rattle.retry_rules.specs.States.{link_rule, timer_rule, window_rule, counters_rule, slots_rule, sender_rule};
ghost use Rattle.retry_rules.specs.Reply.{sender_checks};

use refusal::Refusal;
use retry_parts::numbers::{count_is_ruled, time_is_allowed};
use retry_rules::{Counters, DOWN, Sender, Slot, UP};
use segment_size::size_is_allowed;

// Up: fewer than three expiries; with nothing outstanding none, and the timer at its start.
fn up_is_ruled(c: Counters) -> bool
    ensures { result ≡ ltb c.expiries 3 && (ltb 0 c.outstanding || (eqb c.timer c.columns && eqb c.expiries 0)) }
{
    c.expiries < 3 && (0 < c.outstanding || (c.timer == c.columns && c.expiries == 0))
}

// Down: three expiries, the timer at its start, and something outstanding.
fn down_is_ruled(c: Counters) -> bool
    ensures { result ≡ eqb c.expiries 3 && (eqb c.timer c.columns && ltb 0 c.outstanding) }
{
    c.expiries == 3 && c.timer == c.columns && 0 < c.outstanding
}

#[tactic(auto, unfolding(retry_rules::specs::States::link_rule))]
fn link_is_ruled(c: Counters) -> bool
    ensures { result ≡ link_rule c }
{
    match c.link {
        UP => up_is_ruled(c),
        DOWN => down_is_ruled(c),
        _ => false,
    }
}

// The timer runs from T down.
#[tactic(auto, unfolding(retry_rules::specs::States::timer_rule))]
fn timer_is_ruled(c: Counters) -> bool
    ensures { result ≡ timer_rule c }
{
    time_is_allowed(u32::from(c.columns)) && 0 < c.timer && c.timer <= c.columns && link_is_ruled(c)
}

// At most eight stored; what is outstanding is stored; the send point is not past the first that waits.
#[tactic(auto, unfolding(retry_rules::specs::States::window_rule))]
fn window_is_ruled(c: Counters) -> bool
    ensures { result ≡ window_rule c }
{
    c.stored <= 8 && c.outstanding <= c.stored && c.point <= c.outstanding
}

#[tactic(auto, unfolding(retry_rules::specs::States::counters_rule))]
fn counters_are_ruled(c: Counters) -> bool
    ensures { result ≡ counters_rule c }
{
    size_is_allowed(u32::from(c.size))
        && count_is_ruled(c.oldest, c.released)
        && window_is_ruled(c)
        && timer_is_ruled(c)
}

// 1 to S bytes, and a channel from 0 to 15.
fn slot_is_ruled(size: u16, slot: Slot) -> bool
    ensures { result ≡ ltb 0 slot.length && (leb slot.length size && ltb slot.channel 16) }
{
    0 < slot.length && slot.length <= size && slot.channel < 16
}

// The slots of the stored segments; what the others hold does not matter.
fn slots_are_ruled(sender: Sender) -> bool
    ensures { result ≡ slots_rule sender }
{
    let c = sender.counters;
    let oldest = usize::from(c.oldest);
    (0..usize::from(c.stored)).all(|i| slot_is_ruled(c.size, sender.slots[(oldest + i) % 8]))
}

// The written rule of a sender.
#[tactic(auto, unfolding(retry_rules::specs::States::sender_rule))]
pub fn sender_is_ruled(sender: Sender) -> bool
    ensures { result ≡ sender_rule sender }
{
    counters_are_ruled(sender.counters) && slots_are_ruled(sender)
}

// What a call that takes the sender alone is refused with.
#[tactic(auto, unfolding(retry_rules::specs::Reply::sender_checks))]
pub fn may_call(sender: Sender) -> Result<(), Refusal>
    ensures { refusal_says result ≡ refusal_of (sender_checks sender) }
{
    if sender.counters.link == DOWN {
        return Err(Refusal::LinkDown);
    }
    if !sender_is_ruled(sender) {
        return Err(Refusal::OutOfRange);
    }
    Ok(())
}
