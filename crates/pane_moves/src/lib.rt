// A place in a capture, and the moves from it to the next and to the one before.
#![tactic(auto)]

ghost use Rattle.std.specs.Prelude.{◌≡◌};
ghost use Rattle.capture_rules.specs.Calls.{says};
ghost use Rattle.capture_rules.specs.Panes.{place_says, move_says, forward_from, back_from};

use capture::Legal;
use refusal::Refusal;

// A place in a capture, where it is one.
pub fn place_in(capture: &[u8], place: usize) -> Result<usize, Refusal>
    ensures { says result ≡ place_says capture.now place }
{
    let count = Legal::new(capture)?.count();
    if place <= count {
        Ok(place)
    } else {
        Err(Refusal::OutOfRange)
    }
}

// The place one character forward from a place; none at the end.
pub fn forward_from(capture: &[u8], place: usize) -> Result<Option<usize>, Refusal>
    ensures { let says = move_says place in says result ≡ forward_from capture.now place }
{
    let count = Legal::new(capture)?.count();
    if count < place {
        return Err(Refusal::OutOfRange);
    }
    Ok(if place < count { Some(place + 1) } else { None })
}

// The place one character back from a place; none at the start. One function for both ways would need the way as a parameter, and is no plainer.
pub fn back_from(capture: &[u8], place: usize) -> Result<Option<usize>, Refusal>
    ensures { let says = move_says place in says result ≡ back_from capture.now place }
{
    Ok(place_in(capture, place)?.checked_sub(1))
}
