// Which refusal writing a packet is answered with, if any.
#![tactic(auto)]

ghost use Rattle.std.specs.Prelude.{◌≡◌, false};
ghost use Rattle.refusal.specs.Order.{refusal_of, refusal_says};
ghost use Rattle.packet_rules.specs.Packets.{in_data, in_priority, retry, packet_checks};

use disparity::is_disparity;
use refusal::Refusal;
use segment_size::size_is_allowed;

// A data packet, into an output of so many characters. S plays no part in it.
pub fn may_write_data(
    channel: u32,
    bytes: &[u8],
    disparity: i32,
    room: usize,
) -> Result<(), Refusal>
    ensures { refusal_says result ≡ refusal_of (packet_checks 0 (in_data channel bytes.now false) disparity room) }
{
    if !is_disparity(disparity) || 255 < channel {
        return Err(Refusal::OutOfRange);
    }
    if bytes.is_empty() {
        return Err(Refusal::NoBytes);
    }
    if room < bytes.len() + 6 {
        return Err(Refusal::ShortOutput);
    }
    Ok(())
}

// A priority packet, for segments of S bytes.
pub fn may_write_priority(
    size: u32,
    channel: u32,
    segment: u32,
    bytes: &[u8],
    disparity: i32,
    room: usize,
) -> Result<(), Refusal>
    ensures { refusal_says result ≡ refusal_of (packet_checks size (in_priority channel segment bytes.now false) disparity room) }
{
    if !is_disparity(disparity) || 15 < channel || 15 < segment {
        return Err(Refusal::OutOfRange);
    }
    if !size_is_allowed(size) || (size as usize) < bytes.len() {
        return Err(Refusal::SegmentSize);
    }
    if bytes.is_empty() {
        return Err(Refusal::NoBytes);
    }
    if room < bytes.len() + 6 {
        return Err(Refusal::ShortOutput);
    }
    Ok(())
}

// A retry LMP.
pub fn may_write_lmp(number: u32, disparity: i32, room: usize) -> Result<(), Refusal>
    ensures { refusal_says result ≡ refusal_of (packet_checks 0 (retry false number) disparity room) }
{
    if !is_disparity(disparity) || 15 < number {
        return Err(Refusal::OutOfRange);
    }
    if room < 4 {
        return Err(Refusal::ShortOutput);
    }
    Ok(())
}
