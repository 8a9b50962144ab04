// The packet reader's state from its 15 bytes.
#![tactic(auto)]

ghost use Rattle.std.specs.Prelude.{◌≡◌};
ghost use Rattle.host_rules.specs.ReaderBytes.{packet_of, priority_of, phase_of, reader_in};

use packet_rules::{DataPacket, Due, Phase, PriorityPacket, Reader};

// The tags are numbers since C keeps them as bytes; a From for these types could stand only in packet_rules, which knows no bytes.

#[tactic(auto, unfolding(host_rules::specs::ReaderBytes::packet_of))]
fn packet_of(tag: u8, channel: u8, register: u16) -> Option<DataPacket>
    ensures { result ≡ packet_of tag channel register }
{
    let begun = match tag {
        1 => false,
        2 => true,
        _ => return None,
    };
    Some(DataPacket {
        channel,
        begun,
        register,
    })
}

#[tactic(auto, unfolding(host_rules::specs::ReaderBytes::priority_of))]
fn priority_of(tag: u8, opening: u8, count: u16, register: u16) -> Option<PriorityPacket>
    ensures { result ≡ priority_of tag opening count register }
{
    if tag != 1 {
        return None;
    }
    Some(PriorityPacket {
        opening,
        count,
        register,
    })
}

#[tactic(auto, unfolding(host_rules::specs::ReaderBytes::phase_of))]
fn phase_of(tag: u8, a: u8, b: u8) -> Phase
    ensures { result ≡ phase_of tag a b }
{
    let mark = a != 0;
    match tag {
        1 => Phase::Dropping,
        2 => Phase::Idles(a),
        3 => Phase::Next(Due::Channel),
        4 => Phase::Next(Due::Opening),
        5 => Phase::Next(Due::Closing(mark)),
        6 => Phase::Next(Due::FirstCrc(mark)),
        7 => Phase::Next(Due::SecondCrc(mark, b)),
        8 => Phase::Next(Due::LmpType),
        9 => Phase::Next(Due::LmpNumber(a)),
        10 => Phase::Next(Due::LmpCheck(a, b)),
        _ => Phase::Free,
    }
}

// The state that bytes stand for.
#[tactic(auto, unfolding(host_rules::specs::ReaderBytes::reader_in))]
pub fn reader_in(b: [u8; 15]) -> Reader
    ensures { result ≡ reader_in b }
{
    Reader {
        size: u16::from_be_bytes([b[0], b[1]]),
        packet: packet_of(b[2], b[3], u16::from_be_bytes([b[4], b[5]])),
        priority: priority_of(
            b[6],
            b[7],
            u16::from_be_bytes([b[8], b[9]]),
            u16::from_be_bytes([b[10], b[11]]),
        ),
        phase: phase_of(b[12], b[13], b[14]),
    }
}
