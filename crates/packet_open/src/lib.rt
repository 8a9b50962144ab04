// What is open in a state.
#![tactic(auto)]

ghost use Rattle.std.specs.Prelude.{◌≡◌};
ghost use Rattle.packet_rules.specs.State.{no_priority, outside, has_byte, opening_byte, register_in};

use packet_rules::Reader;

// No packet is open.
pub fn is_outside(r: Reader) -> bool
    ensures { result ≡ outside r.packet r.priority }
{
    r.packet.is_none() && r.priority.is_none()
}

// No priority packet is open.
pub fn has_no_priority(r: Reader) -> bool
    ensures { result ≡ no_priority r.priority }
{
    r.priority.is_none()
}

// The packet that takes the bytes has one.
pub fn has_byte(r: Reader) -> bool
    ensures { result ≡ has_byte r.packet r.priority }
{
    match (r.packet, r.priority) {
        (_, Some(inner)) => 0 < inner.count,
        (Some(outer), None) => outer.begun,
        (None, None) => false,
    }
}

// The byte after its start symbol.
pub fn opening_byte(r: Reader) -> u8
    ensures { result ≡ opening_byte r.packet r.priority }
{
    match (r.packet, r.priority) {
        (_, Some(inner)) => inner.opening,
        (Some(outer), None) => outer.channel,
        (None, None) => 0,
    }
}

// The CRC register over its bytes.
pub fn register_in(r: Reader) -> u16
    ensures { result ≡ register_in r.packet r.priority }
{
    match (r.packet, r.priority) {
        (_, Some(inner)) => inner.register,
        (Some(outer), None) => outer.register,
        (None, None) => crc::start(),
    }
}
