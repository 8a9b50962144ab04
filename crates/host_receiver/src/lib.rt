// What C calls of the receiving end of the retry, its state in 4 lent bytes.
#![tactic(auto)]

ghost use Rattle.std.specs.Prelude.{◌≡◌};
ghost use Rattle.host_calls.specs.ReceiverCalls.{begins_receiver, ArrivesDamaged, arrives_damaged};

use host_receiver_bytes::{receiver_bytes, receiver_in, reply_numbers};

// A fresh receiver with S.
#[tactic(auto, using(host_retry_rules::proofs::Called::done_refusal, host_retry_rules::proofs::Called::done_lent), unfolding(host_calls::specs::ReceiverCalls::begins_receiver))]
#[unsafe(no_mangle)]
pub extern "C" fn buzz_receiver_fresh(size: u32, receiver: &mut [u8; 4]) -> u32
    ensures { let after = begins_receiver size receiver.old in (result ≡ after.refusal) × (receiver.new ≡ after.lent) }
{
    match retry_receiver::fresh_receiver(size) {
        Ok(made) => {
            *receiver = receiver_bytes(made);
            0
        }
        Err(refused) => u32::from(refused),
    }
}

// A damaged segment arrives: the reply. The receiver stays, so its bytes are not stored again.
#[tactic(auto, using(host_retry_rules::proofs::Called::done_refusal, host_retry_rules::proofs::Called::done_lent), unfolding(host_calls::specs::ReceiverCalls::arrives_damaged))]
#[unsafe(no_mangle)]
pub extern "C" fn buzz_receiver_damaged_arrival(
    receiver: &mut [u8; 4],
    nack: &mut u32,
    reply: &mut u32,
) -> u32
    ensures { (let old : ArrivesDamaged = record { receiver = receiver.old; nack = nack.old; reply = reply.old } in
        let after = arrives_damaged old in
        (result ≡ after.refusal) × (receiver.new ≡ after.lent.receiver) × (nack.new ≡ after.lent.nack) × (reply.new ≡ after.lent.reply)) }
{
    let state = receiver_in(*receiver);
    match retry_receiver::damaged_arrival(&state) {
        Ok(answer) => {
            let [mark, number] = reply_numbers(answer);
            *nack = mark;
            *reply = number;
            0
        }
        Err(refusal) => u32::from(refusal),
    }
}
