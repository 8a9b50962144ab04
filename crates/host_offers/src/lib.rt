// What C calls to store a segment and to send one: the eight buffers are one lent run of 8 times S bytes.
#![tactic(auto)]

ghost use Rattle.std.specs.Prelude.{◌≡◌, Ok};
ghost use Rattle.std.specs.Option.{is_some};
ghost use Rattle.retry_rules.specs.Answers.{send_says};
ghost use Rattle.host_offers.specs.Gone.{segment_says};
ghost use Rattle.host_calls.specs.SenderCalls.{Offers, offers, Sends, sends};

use host_marks::mark_number;
use host_retry::sender_in;
use host_retry_bytes::sender_bytes;
use retry_rules::Segment;

// The segment that goes out, or zeros where none does: C is given zeros, and a segment of our own has no such default.
fn segment_or_zeros(gone: Option<Segment>) -> Segment
    ensures { segment_says (is_some gone) result ≡ send_says (Ok gone) }
{
    gone.unwrap_or(Segment {
        number: 0,
        channel: 0,
        bad: false,
        length: 0,
    })
}

// A segment stored, with the number that it has.
#[tactic(auto, using(host_retry_rules::proofs::Called::done_refusal, host_retry_rules::proofs::Called::done_lent), unfolding(host_calls::specs::SenderCalls::offers))]
#[unsafe(no_mangle)]
pub extern "C" fn buzz_sender_offer(
    sender: &mut [u8; 38],
    buffers: &mut [u8],
    channel: u32,
    bad: u32,
    bytes: &[u8],
    number: &mut u32,
) -> u32
    ensures { (let old : Offers = record { sender = sender.old; buffers = buffers.old; number = number.old } in
        let after = offers channel bad bytes.now old in
        (result ≡ after.refusal) × (sender.new ≡ after.lent.sender) × (buffers.new ≡ after.lent.buffers)
        × (number.new ≡ after.lent.number)) }
{
    let mut state = sender_in(*sender);
    match retry_offer::offer(&mut state, buffers, channel, bad != 0, bytes) {
        Ok(stored) => {
            *sender = sender_bytes(state);
            *number = u32::from(stored);
            0
        }
        Err(refusal) => u32::from(refusal),
    }
}

// The segment at the send point: whether one is sent, its number, channel, bad mark and length, and its bytes in the front of the output.
#[tactic(auto, using(host_retry_rules::proofs::Called::done_refusal, host_retry_rules::proofs::Called::done_lent), unfolding(host_calls::specs::SenderCalls::sends))]
#[unsafe(no_mangle)]
pub extern "C" fn buzz_sender_send(
    sender: &mut [u8; 38],
    buffers: &[u8],
    output: &mut [u8],
    sent: &mut u32,
    number: &mut u32,
    channel: &mut u32,
    bad: &mut u32,
    bytes: &mut u32,
) -> u32
    ensures { (let old : Sends = record {
      sender = sender.old;
      output = output.old;
      sent = sent.old;
      number = number.old;
      channel = channel.old;
      bad = bad.old;
      size = bytes.old;
    } in
        let after = sends buffers.now old in
        (result ≡ after.refusal) × (sender.new ≡ after.lent.sender) × (output.new ≡ after.lent.output)
        × (sent.new ≡ after.lent.sent) × (number.new ≡ after.lent.number) × (channel.new ≡ after.lent.channel)
        × (bad.new ≡ after.lent.bad) × (bytes.new ≡ after.lent.size)) }
{
    let mut state = sender_in(*sender);
    match retry_send::send(&mut state, buffers, output) {
        Ok(gone) => {
            let segment = segment_or_zeros(gone);
            *sender = sender_bytes(state);
            *sent = mark_number(gone.is_some());
            *number = u32::from(segment.number);
            *channel = u32::from(segment.channel);
            *bad = mark_number(segment.bad);
            *bytes = u32::from(segment.length);
            0
        }
        Err(refusal) => u32::from(refusal),
    }
}
