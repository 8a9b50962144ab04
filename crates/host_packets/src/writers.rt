// The packet writer: one whole data packet, priority packet or retry LMP a call, as characters in the front of a lent run.
ghost use Rattle.std.specs.Prelude.{◌≡◌};
ghost use Rattle.refusal.specs.Order.{refusal_says};
ghost use Rattle.packet_rules.specs.Packets.{in_data, in_priority, retry, written_says};
ghost use Rattle.host_rules.specs.Numbers.{mark_of, or_old};
ghost use Rattle.host_calls.specs.PacketCalls.{WritesPacket, writes_packet};

use packet_rules::Written;
use refusal::Refusal;

// The disparity, the characters and their count stand one by one in the three calls, and not in a struct: so C passes them.

// What C is told of a packet: the closing disparity and how many characters there are, or the refusal's number.
fn told(written: Result<Written, Refusal>, disparity: &mut i32, count: &mut usize) -> u32
    ensures { (result ≡ refusal_says written) × (disparity.new ≡ or_old (written_says written).disparity disparity.old)
        × (count.new ≡ or_old (written_says written).count count.old) }
{
    match written {
        Ok(packet) => {
            *disparity = packet.disparity;
            *count = packet.count;
            0
        }
        Err(refusal) => u32::from(refusal),
    }
}

// A data packet; the disparity is turned to the closing one.
#[unsafe(no_mangle)]
pub extern "C" fn buzz_write_data(
    channel: u32,
    bytes: &[u8],
    bad: u32,
    disparity: &mut i32,
    characters: &mut [u16],
    count: &mut usize,
) -> u32
    ensures { (let old : WritesPacket = record { disparity = disparity.old; characters = characters.old; count = count.old } in
        let after = writes_packet 0 (in_data channel bytes.now (mark_of bad)) old in
        (result ≡ after.refusal) × (disparity.new ≡ after.lent.disparity) × (characters.new ≡ after.lent.characters)
        × (count.new ≡ after.lent.count)) }
{
    let written = packet_writer::write_data(channel, bytes, bad != 0, *disparity, characters);
    told(written, disparity, count)
}

// A priority packet of a segment of at most S bytes; the disparity is turned to the closing one.
#[unsafe(no_mangle)]
pub extern "C" fn buzz_write_priority(
    size: u32,
    channel: u32,
    segment: u32,
    bytes: &[u8],
    bad: u32,
    disparity: &mut i32,
    characters: &mut [u16],
    count: &mut usize,
) -> u32
    ensures { (let old : WritesPacket = record { disparity = disparity.old; characters = characters.old; count = count.old } in
        let after = writes_packet size (in_priority channel segment bytes.now (mark_of bad)) old in
        (result ≡ after.refusal) × (disparity.new ≡ after.lent.disparity) × (characters.new ≡ after.lent.characters)
        × (count.new ≡ after.lent.count)) }
{
    let written = packet_writer::write_priority(
        size,
        channel,
        segment,
        bytes,
        bad != 0,
        *disparity,
        characters,
    );
    told(written, disparity, count)
}

// A retry LMP; the disparity is turned to the closing one.
#[unsafe(no_mangle)]
pub extern "C" fn buzz_write_lmp(
    nack: u32,
    number: u32,
    disparity: &mut i32,
    characters: &mut [u16],
    count: &mut usize,
) -> u32
    ensures { (let old : WritesPacket = record { disparity = disparity.old; characters = characters.old; count = count.old } in
        let after = writes_packet 0 (retry (mark_of nack) number) old in
        (result ≡ after.refusal) × (disparity.new ≡ after.lent.disparity) × (characters.new ≡ after.lent.characters)
        × (count.new ≡ after.lent.count)) }
{
    let written = packet_writer::write_lmp(nack != 0, number, *disparity, characters);
    told(written, disparity, count)
}
