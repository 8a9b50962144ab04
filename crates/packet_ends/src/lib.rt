// How a packet ends at its second CRC byte.
#![tactic(auto)]

ghost use Rattle.std.specs.Prelude.{◌≡◌};
ghost use Rattle.packet_rules.specs.Violations.{right_crc};
ghost use Rattle.packet_ends.specs.Ends.{end_of};

use packet_rules::{Event, Reader, Violation};

fn is_right_crc(register: u16, a: u8, b: u8) -> bool
    ensures { result ≡ right_crc register a b }
{
    crc::check_bytes(register) == [a, b]
}

// The CRC's bytes are a and b.
pub fn end_event(r: Reader, bad: bool, a: u8, b: u8) -> Event
    ensures { result ≡ end_of r.packet r.priority bad a b }
{
    if is_right_crc(packet_open::register_in(r), a, b) {
        Event::End { bad }
    } else {
        Event::Violation(Violation::Crc.number())
    }
}
