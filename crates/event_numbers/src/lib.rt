// An event as a number: the event's own, the segment number and the value. C is given it, so it is a number and no enum.
#![tactic(auto)]

ghost use Rattle.std.specs.Prelude.{◌≡◌, ◌+◌, ◌*◌, ◌<◌};
ghost use Rattle.events_rules.specs.Numbers.{mark_number, packed_answer};

use packet_rules::Event;

fn mark_number(mark: bool) -> u8
    ensures { result ≡ mark_number mark }
{
    u8::from(mark)
}

// The event's number, the segment number and the value, as one.
fn number_of(event: u32, segment: u8, value: u8) -> u32
    requires { event < 65536 }
    ensures { result ≡ 65536 * event + 256 * segment + value }
{
    event * 65536 + u32::from(segment) * 256 + u32::from(value)
}

// The number of what a step answers; 0 for a refusal, whatever refused it, as for nothing.
#[tactic(auto, unfolding(events_rules::specs::Numbers::packed_event))]
pub fn event_number<E: Drop>(said: Result<Event, E>) -> u32
    ensures { result ≡ packed_answer said }
{
    let Ok(event) = said else {
        return 0;
    };
    match event {
        Event::Nothing => 0,
        Event::Violation(n) => number_of(1, 0, n),
        Event::StartData(channel) => number_of(2, 0, channel),
        Event::StartPriority { channel, segment } => number_of(3, segment, channel),
        Event::Byte(b) => number_of(4, 0, b),
        Event::End { bad } => number_of(5, 0, mark_number(bad)),
        Event::Lmp { nack, segment } => number_of(6, segment, mark_number(nack)),
    }
}
