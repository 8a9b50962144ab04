// A symbol after COM, and while dropping.
#![tactic(auto)]

ghost use Rattle.std.specs.Prelude.{◌≡◌};
ghost use Rattle.packet_idles.specs.Idles.{idle_of, drop_of};

use packet_answers::{moved, violated};
use packet_rules::{Event, Kind, Phase, Reader, Step, Violation};

// After COM, n IDL are due.
#[tactic(auto, unfolding(crate::specs::Idles::idle_of))]
pub fn in_idles(r: Reader, n: u8, k: Kind) -> Step
    ensures { result ≡ idle_of n k r }
{
    match k {
        Kind::Idl => {
            let phase = if n <= 1 {
                Phase::Free
            } else {
                Phase::Idles(n - 1)
            };
            moved(Event::Nothing, phase, r)
        }
        Kind::Data(_) | Kind::Com | Kind::Opens(_) | Kind::Closes(_) | Kind::NoPlace => {
            violated(Violation::OutOfPlace.number(), r)
        }
        Kind::Unsupported => violated(Violation::Unsupported.number(), r),
    }
}

// Only a symbol that opens is seen.
#[tactic(auto, unfolding(crate::specs::Idles::drop_of))]
pub fn dropping(r: Reader, k: Kind) -> Step
    ensures { result ≡ drop_of k r }
{
    let phase = match k {
        Kind::Opens(o) => Phase::Next(packet_answers::due_after(o)),
        _ => Phase::Dropping,
    };
    moved(Event::Nothing, phase, r)
}
