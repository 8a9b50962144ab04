// What C calls to begin the sending end of the retry, its state in 38 lent bytes.
#![tactic(auto)]

ghost use Rattle.std.specs.Prelude.{◌≡◌};
ghost use Rattle.host_calls.specs.SenderCalls.{begins_sender, resets};

use host_retry::sender_in;
use host_retry_bytes::sender_bytes;

// A fresh sender with T and S.
#[tactic(auto, using(host_retry_rules::proofs::Called::done_refusal, host_retry_rules::proofs::Called::done_lent), unfolding(host_calls::specs::SenderCalls::begins_sender))]
#[unsafe(no_mangle)]
pub extern "C" fn buzz_sender_fresh(columns: u32, size: u32, sender: &mut [u8; 38]) -> u32
    ensures { let after = begins_sender columns size sender.old in (result ≡ after.refusal) × (sender.new ≡ after.lent) }
{
    match retry_beginning::fresh_sender(columns, size) {
        Ok(made) => {
            *sender = sender_bytes(made);
            0
        }
        Err(refusal) => u32::from(refusal),
    }
}

// The sender again fresh, with the T and S that are given.
#[tactic(auto, using(host_retry_rules::proofs::Called::done_refusal, host_retry_rules::proofs::Called::done_lent), unfolding(host_calls::specs::SenderCalls::resets))]
#[unsafe(no_mangle)]
pub extern "C" fn buzz_sender_reset(sender: &mut [u8; 38], columns: u32, size: u32) -> u32
    ensures { let after = resets columns size sender.old in (result ≡ after.refusal) × (sender.new ≡ after.lent) }
{
    let mut state = sender_in(*sender);
    match retry_beginning::reset(&mut state, columns, size) {
        Ok(()) => {
            *sender = sender_bytes(state);
            0
        }
        Err(refusal) => u32::from(refusal),
    }
}
