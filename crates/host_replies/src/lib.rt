// What C calls of the sending end of the retry when a reply or a column of time comes, its state in 38 lent bytes.
#![tactic(auto)]

ghost use Rattle.std.specs.Prelude.{◌≡◌};
ghost use Rattle.host_calls.specs.SenderCalls.{hears, hears_damaged, ticks};

use host_marks::mark_number;
use host_retry::sender_in;
use host_retry_bytes::sender_bytes;

// A reply, ACK or NACK with a number.
#[tactic(auto, using(host_retry_rules::proofs::Called::done_refusal, host_retry_rules::proofs::Called::done_lent), unfolding(host_calls::specs::SenderCalls::hears))]
#[unsafe(no_mangle)]
pub extern "C" fn buzz_sender_reply(sender: &mut [u8; 38], nack: u32, number: u32) -> u32
    ensures { let after = hears nack number sender.old in (result ≡ after.refusal) × (sender.new ≡ after.lent) }
{
    let mut state = sender_in(*sender);
    match retry_replies::reply(&mut state, nack != 0, number) {
        Ok(()) => {
            *sender = sender_bytes(state);
            0
        }
        Err(refusal) => u32::from(refusal),
    }
}

// A damaged reply, which is ignored.
#[tactic(auto, using(host_retry_rules::proofs::Called::done_refusal, host_retry_rules::proofs::Called::done_lent), unfolding(host_calls::specs::SenderCalls::hears_damaged))]
#[unsafe(no_mangle)]
pub extern "C" fn buzz_sender_damaged_reply(sender: &mut [u8; 38]) -> u32
    ensures { let after = hears_damaged sender.old in (result ≡ after.refusal) × (sender.new ≡ after.lent) }
{
    let state = sender_in(*sender);
    match retry_replies::damaged_reply(&state) {
        Ok(()) => {
            *sender = sender_bytes(state);
            0
        }
        Err(refused) => u32::from(refused),
    }
}

// One column of the timer; `fell` says that this tick took the link down.
#[tactic(auto, using(host_retry_rules::proofs::Called::done_refusal, host_retry_rules::proofs::Called::done_lent), unfolding(host_calls::specs::SenderCalls::ticks))]
#[unsafe(no_mangle)]
pub extern "C" fn buzz_sender_tick(sender: &mut [u8; 38], fell: &mut u32) -> u32
    ensures { let after = ticks (record { sender = sender.old; fell = fell.old }) in
        (result ≡ after.refusal) × (sender.new ≡ after.lent.sender) × (fell.new ≡ after.lent.fell) }
{
    let mut state = sender_in(*sender);
    match retry_timer::tick(&mut state) {
        Ok(down) => {
            *sender = sender_bytes(state);
            *fell = mark_number(down);
            0
        }
        Err(refusal) => u32::from(refusal),
    }
}
