// What C calls of the receiving end of the retry when a segment comes that is not damaged, its state in 4 lent bytes.
#![tactic(auto)]

ghost use Rattle.std.specs.Prelude.{◌≡◌, Ok};
ghost use Rattle.std.specs.Option.{is_some};
ghost use Rattle.retry_rules.specs.Answers.{arrival_says};
ghost use Rattle.host_arrivals.specs.Taken.{taken_says};
ghost use Rattle.host_calls.specs.ReceiverCalls.{Arrives, arrives};

use host_marks::mark_number;
use host_receiver_bytes::{receiver_bytes, receiver_in, reply_numbers};
use retry_rules::{Arrival, Delivered};

// What is delivered, or zeros where nothing is: C is given zeros, and what is delivered has no such default.
fn delivered_or_zeros(arrived: Arrival) -> Delivered
    ensures { taken_says arrived.reply (is_some arrived.delivered) result ≡ arrival_says (Ok arrived) }
{
    arrived.delivered.unwrap_or(Delivered {
        channel: 0,
        bad: false,
        length: 0,
    })
}

// A segment that arrives: whether it is delivered, and the reply. What is delivered stands in the front of the output, with its channel, mark and length.
#[tactic(auto, using(host_retry_rules::proofs::Called::done_refusal, host_retry_rules::proofs::Called::done_lent), unfolding(host_calls::specs::ReceiverCalls::arrives))]
#[unsafe(no_mangle)]
pub extern "C" fn buzz_receiver_arrival(
    receiver: &mut [u8; 4],
    number: u32,
    channel: u32,
    bad: u32,
    bytes: &[u8],
    room: u32,
    output: &mut [u8],
    delivered: &mut u32,
    delivered_channel: &mut u32,
    delivered_bad: &mut u32,
    delivered_length: &mut u32,
    nack: &mut u32,
    reply: &mut u32,
) -> u32
    ensures { (let old : Arrives = record {
      receiver = receiver.old;
      output = output.old;
      delivered = delivered.old;
      channel = delivered_channel.old;
      bad = delivered_bad.old;
      size = delivered_length.old;
      nack = nack.old;
      reply = reply.old;
    } in
        let after = arrives number channel bad bytes.now room old in
        (result ≡ after.refusal) × (receiver.new ≡ after.lent.receiver) × (output.new ≡ after.lent.output)
        × (delivered.new ≡ after.lent.delivered) × (delivered_channel.new ≡ after.lent.channel)
        × (delivered_bad.new ≡ after.lent.bad) × (delivered_length.new ≡ after.lent.size)
        × (nack.new ≡ after.lent.nack) × (reply.new ≡ after.lent.reply)) }
{
    let mut state = receiver_in(*receiver);
    match retry_arrival::arrival(
        &mut state,
        number,
        channel,
        bad != 0,
        bytes,
        room != 0,
        output,
    ) {
        Ok(arrived) => {
            let [mark, answered] = reply_numbers(arrived.reply);
            let taken = delivered_or_zeros(arrived);
            *receiver = receiver_bytes(state);
            *delivered = mark_number(arrived.delivered.is_some());
            *delivered_channel = u32::from(taken.channel);
            *delivered_bad = mark_number(taken.bad);
            *delivered_length = u32::from(taken.length);
            *nack = mark;
            *reply = answered;
            0
        }
        Err(refusal) => u32::from(refusal),
    }
}
