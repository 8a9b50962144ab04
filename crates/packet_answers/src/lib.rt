// The answers of a step: an event, and the state after it; what is due after a symbol that opens.
#![tactic(auto)]

ghost use Rattle.std.specs.Prelude.{◌≡◌};
ghost use Rattle.packet_rules.specs.Step.{due_after};
ghost use Rattle.packet_answers.specs.Answers.{moved_to, violated_to, closed_to, started_data, started_priority};

use packet_rules::{DataPacket, Due, Event, Opener, Phase, PriorityPacket, Reader, Step};

// The packets stay as they are.
pub fn moved(event: Event, phase: Phase, r: Reader) -> Step
    ensures { result ≡ moved_to event phase r }
{
    Step {
        event,
        reader: Reader { phase, ..r },
    }
}

// A violation, by its number, that closes all open packets.
pub fn violated(n: u8, r: Reader) -> Step
    ensures { result ≡ violated_to n r }
{
    let closed = Reader {
        packet: None,
        priority: None,
        ..r
    };
    moved(Event::Violation(n), Phase::Dropping, closed)
}

// The packet to which an end belongs is closed.
pub fn closed(event: Event, r: Reader) -> Step
    ensures { result ≡ closed_to event r r.priority }
{
    let packet = if r.priority.is_some() { r.packet } else { None };
    let closed = Reader {
        packet,
        priority: None,
        ..r
    };
    moved(event, Phase::Free, closed)
}

// The channel byte opens a data packet.
pub fn started_data(channel: u8, r: Reader) -> Step
    ensures { result ≡ started_data channel r }
{
    let packet = Some(DataPacket {
        channel,
        begun: false,
        register: crc::start(),
    });
    moved(
        Event::StartData(channel),
        Phase::Free,
        Reader { packet, ..r },
    )
}

// The byte after SPP opens a priority packet. No twin of `started_data`: another packet opens, and the event has the byte in two halves.
pub fn started_priority(opening: u8, r: Reader) -> Step
    ensures { result ≡ started_priority opening r }
{
    let priority = Some(PriorityPacket {
        opening,
        count: 0,
        register: crc::start(),
    });
    let event = Event::StartPriority {
        channel: opening % 16,
        segment: opening / 16,
    };
    moved(event, Phase::Free, Reader { priority, ..r })
}

// What comes after a symbol that opens.
pub fn due_after(o: Opener) -> Due
    ensures { result ≡ due_after o }
{
    match o {
        Opener::Sdp => Due::Channel,
        Opener::Spp => Due::Opening,
        Opener::Slp => Due::LmpType,
    }
}
