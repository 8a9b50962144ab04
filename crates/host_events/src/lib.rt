// What C calls to read a whole capture into events, an event a character, the reader's state in 15 lent bytes.
#![tactic(auto)]

ghost use Rattle.std.specs.Prelude.{◌≡◌};
ghost use Rattle.refusal.specs.Order.{refusal_says};
ghost use Rattle.host_calls.specs.EventCalls.{ReadsCapture, reads_capture};

use refusal::Refusal;

// A capture read by a reader in bytes: refusal 8 before bytes that encode no state.
fn read(
    capture: &[u8],
    bytes: &mut [u8; 15],
    disparity: &mut i32,
    events: &mut [u32],
    count: &mut usize,
) -> Result<(), Refusal>
    ensures { (let old : ReadsCapture = record {
      reader = bytes.old;
      disparity = disparity.old;
      events = events.old;
      count = count.old;
    } in
        let after = reads_capture capture.now old in
        (refusal_says result ≡ after.refusal) × (bytes.new ≡ after.lent.reader) × (disparity.new ≡ after.lent.disparity)
        × (events.new ≡ after.lent.events) × (count.new ≡ after.lent.count)) }
{
    if !capture::is_legal(capture) {
        return Err(Refusal::BadCapture);
    }
    let mut reader = host_reader_bytes::reader_from(*bytes)?;
    *count = events::read_capture(capture, &mut reader, disparity, events)?;
    *bytes = host_reader_bytes::reader_bytes(reader);
    Ok(())
}

// A capture's events in the front of a lent run, and their number; the state and the disparity become those after it.
#[unsafe(no_mangle)]
pub extern "C" fn buzz_read_capture(
    capture: &[u8],
    reader: &mut [u8; 15],
    disparity: &mut i32,
    events: &mut [u32],
    count: &mut usize,
) -> u32
    ensures { (let old : ReadsCapture = record {
      reader = reader.old;
      disparity = disparity.old;
      events = events.old;
      count = count.old;
    } in
        let after = reads_capture capture.now old in
        (result ≡ after.refusal) × (reader.new ≡ after.lent.reader) × (disparity.new ≡ after.lent.disparity)
        × (events.new ≡ after.lent.events) × (count.new ≡ after.lent.count)) }
{
    match read(capture, reader, disparity, events, count) {
        Ok(()) => 0,
        Err(refusal) => u32::from(refusal),
    }
}
