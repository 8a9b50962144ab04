// A symbol where no sequence is begun.
#![tactic(auto)]

ghost use Rattle.std.specs.Prelude.{◌≡◌};
ghost use Rattle.packet_turns.specs.Turns.{byte_in, end_in, may_start, free_of};

use packet_answers::{moved, violated};
use packet_rules::{
    DataPacket, Due, Event, Kind, Opener, Phase, PriorityPacket, Reader, Step, Violation,
};

fn user_byte(r: Reader, b: u8) -> Step
    ensures { result ≡ byte_in r.packet r.priority b r }
{
    match (r.packet, r.priority) {
        (_, Some(inner)) => {
            if r.size <= inner.count {
                return violated(Violation::TooLong.number(), r);
            }
            let priority = Some(PriorityPacket {
                count: inner.count + 1,
                register: crc::step(inner.register, b),
                ..inner
            });
            moved(Event::Byte(b), Phase::Free, Reader { priority, ..r })
        }
        (Some(outer), None) => {
            let packet = Some(DataPacket {
                begun: true,
                register: crc::step(outer.register, b),
                ..outer
            });
            moved(Event::Byte(b), Phase::Free, Reader { packet, ..r })
        }
        (None, None) => match b {
            0 => moved(Event::Nothing, Phase::Free, r),
            _ => violated(Violation::Outside.number(), r),
        },
    }
}

fn end_symbol(r: Reader, bad: bool) -> Step
    ensures { result ≡ end_in r.packet r.priority bad r }
{
    if packet_open::is_outside(r) {
        violated(Violation::OutOfPlace.number(), r)
    } else if packet_open::has_byte(r) {
        moved(Event::Nothing, Phase::Next(Due::Closing(bad)), r)
    } else {
        violated(Violation::NoByte.number(), r)
    }
}

fn may_start(o: Opener, r: Reader) -> bool
    ensures { result ≡ may_start o r.packet r.priority }
{
    match o {
        Opener::Sdp => packet_open::is_outside(r),
        Opener::Spp => packet_open::has_no_priority(r),
        Opener::Slp => true,
    }
}

// One symbol where no byte and no idle is due.
#[tactic(auto, unfolding(crate::specs::Turns::free_of))]
pub fn free(r: Reader, k: Kind) -> Step
    ensures { result ≡ free_of k r }
{
    match k {
        Kind::Data(b) => user_byte(r, b),
        Kind::Idl => moved(Event::Nothing, Phase::Free, r),
        Kind::Com => moved(Event::Nothing, Phase::Idles(3), r),
        Kind::Opens(o) => {
            if may_start(o, r) {
                moved(Event::Nothing, Phase::Next(packet_answers::due_after(o)), r)
            } else {
                violated(Violation::OutOfPlace.number(), r)
            }
        }
        Kind::Closes(bad) => end_symbol(r, bad),
        Kind::NoPlace => violated(Violation::OutOfPlace.number(), r),
        Kind::Unsupported => violated(Violation::Unsupported.number(), r),
    }
}
