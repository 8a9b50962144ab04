// Whether a capture may be read into events, or which refusal is given.
#![tactic(auto)]

ghost use Rattle.std.specs.Prelude.{◌≡◌};
ghost use Rattle.refusal.specs.Order.{refusal_of, refusal_says};
ghost use Rattle.events_rules.specs.Events.{capture_checks};

use capture::Legal;
use disparity::is_disparity;
use packet_rules::Reader;
use refusal::Refusal;

// Refusal 8, 1 or 6 in their order, for an output with so many places.
pub fn may_read(capture: &[u8], reader: Reader, disparity: i32, room: usize) -> Result<(), Refusal>
    ensures { refusal_says result ≡ refusal_of (capture_checks capture.now reader disparity room) }
{
    let legal = Legal::new(capture)?;
    if !packet_state::is_well_formed(reader) || !is_disparity(disparity) {
        return Err(Refusal::OutOfRange);
    }
    if room < legal.count() {
        return Err(Refusal::ShortOutput);
    }
    Ok(())
}
