// A symbol where a sequence is begun.
#![tactic(auto)]

ghost use Rattle.std.specs.Prelude.{◌≡◌};
ghost use Rattle.packet_sequences.specs.Sequences.{lmp_of, due_of, seq_of};

use packet_answers::{closed, moved, started_data, started_priority, violated};
use packet_rules::{Due, Event, Kind, Phase, Reader, Step, Violation};

// What a right LMP gives: its first two bytes, type and parameter, and reserved and number.
fn lmp(t: u8, n: u8) -> Event
    ensures { result ≡ lmp_of t n }
{
    match (t, n) {
        (0x20, 0..=15) => Event::Lmp {
            nack: false,
            segment: n,
        },
        (0x21, 0..=15) => Event::Lmp {
            nack: true,
            segment: n,
        },
        _ => Event::Nothing,
    }
}

#[tactic(auto, unfolding(crate::specs::Sequences::due_of))]
fn due_byte(r: Reader, due: Due, b: u8) -> Step
    ensures { result ≡ due_of due b r }
{
    match due {
        Due::Channel => started_data(b, r),
        Due::Opening => started_priority(b, r),
        Due::Closing(bad) => {
            if b == packet_open::opening_byte(r) {
                moved(Event::Nothing, Phase::Next(Due::FirstCrc(bad)), r)
            } else {
                violated(Violation::Channel.number(), r)
            }
        }
        Due::FirstCrc(bad) => moved(Event::Nothing, Phase::Next(Due::SecondCrc(bad, b)), r),
        Due::SecondCrc(bad, a) => closed(packet_ends::end_event(r, bad, a, b), r),
        Due::LmpType => moved(Event::Nothing, Phase::Next(Due::LmpNumber(b)), r),
        Due::LmpNumber(t) => moved(Event::Nothing, Phase::Next(Due::LmpCheck(t, b)), r),
        Due::LmpCheck(t, n) => {
            let event = if b == t ^ n {
                lmp(t, n)
            } else {
                Event::Violation(Violation::LmpCheck.number())
            };
            moved(event, Phase::Free, r)
        }
    }
}

// A byte that is due is data.
#[tactic(auto, unfolding(crate::specs::Sequences::seq_of))]
pub fn in_sequence(r: Reader, due: Due, k: Kind) -> Step
    ensures { result ≡ seq_of due k r }
{
    match k {
        Kind::Data(b) => due_byte(r, due, b),
        Kind::Idl | Kind::Com | Kind::Opens(_) | Kind::Closes(_) | Kind::NoPlace => {
            violated(Violation::OutOfPlace.number(), r)
        }
        Kind::Unsupported => violated(Violation::Unsupported.number(), r),
    }
}
