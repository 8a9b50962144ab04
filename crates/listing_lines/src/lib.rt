// The lines of a run of results: each is a step of the reader and perhaps a line.
#![tactic(auto)]

ghost use Rattle.std.specs.Prelude.{◌≡◌, cond, [], ◌∷◌, ◌+◌, ◌≤◌, ◌<◌};
ghost use Rattle.packet_rules.specs.Answers.{event_says};
ghost use Rattle.listing_rules.specs.Lines.{fields_of, event_line, listed};
ghost use Rattle.listing_text.specs.Writing.{Wrote};
ghost use Rattle.listing_lines.specs.Results.{is_block, progress_of, lines_put, Listed};

use listing_rules::Reached;
use packet_rules::{Event, Reader};
use refusal::Refusal;

// How the lines of a run stand so far: the index after them, the events, and the reader after the run.
#[derive(Clone, Copy, Debug, PartialEq, Eq)]
pub struct Progress {
    pub at: usize,
    pub events: usize,
    pub reader: Reader,
}

// A line of at most 32 bytes has room from 2,016 on; the output and the index go side by side as in `listing_text`.
fn put_end_of_packet(place: usize, bad: bool, at: usize, out: &mut [u8; 2048]) -> usize
    requires { at ≤ 2016 }
    ensures { Wrote at (event_line place (fields_of (event_says (Event.End bad)))) out.old out.new result }
{
    if bad {
        return listing_text::put_worded(place, b" end bad\n", at, out);
    }
    listing_text::put_worded(place, b" end good\n", at, out)
}

fn put_lmp(place: usize, nack: bool, number: u8, at: usize, out: &mut [u8; 2048]) -> usize
    requires { at ≤ 2016 }
    ensures { Wrote at (event_line place (fields_of (event_says (Event.Lmp nack number)))) out.old out.new result }
{
    if nack {
        return listing_text::put_numbered(place, b" lmp NACK ", usize::from(number), at, out);
    }
    listing_text::put_numbered(place, b" lmp ACK ", usize::from(number), at, out)
}

// An event's line; none for nothing and for a byte.
fn put_event(place: usize, event: Event, at: usize, out: &mut [u8; 2048]) -> usize
    requires { at ≤ 2016 }
    ensures { Wrote at (event_line place (fields_of (event_says event))) out.old out.new result }
{
    match event {
        Event::Nothing | Event::Byte(_) => at,
        Event::StartData(channel) => listing_text::put_numbered(
            place,
            b" start data ",
            usize::from(channel),
            at,
            out,
        ),
        Event::StartPriority { channel, .. } => listing_text::put_numbered(
            place,
            b" start priority ",
            usize::from(channel),
            at,
            out,
        ),
        Event::End { bad } => put_end_of_packet(place, bad, at, out),
        Event::Lmp { nack, segment } => put_lmp(place, nack, segment, at, out),
        Event::Violation(n) => {
            listing_text::put_numbered(place, b" violation ", usize::from(n), at, out)
        }
    }
}

// Whether an event has a line.
fn has_line(event: Event) -> bool
    ensures { cond result 1 0 ≡ listed (fields_of (event_says event)) }
{
    !matches!(event, Event::Nothing | Event::Byte(_))
}

// One result: a step of the reader, and the event's line. Most have none, and are done first.
fn put_result(res: u16, place: usize, p: Progress, out: &mut [u8; 2048]) -> Progress
    requires { (p.at ≤ 2016) × (p.events < 65536) }
    ensures { Listed place (res ∷ []) p out.old out.new result × (result.at ≤ p.at + 32) }
{
    let mut reader = p.reader;
    let decoded = character_reader::unpack_result(res);
    let Ok(event) = packet_reader::step::<Refusal>(&mut reader, Ok(decoded)) else {
        return Progress { reader, ..p };
    };
    if !has_line(event) {
        return Progress { reader, ..p };
    }
    Progress {
        at: put_event(place, event, p.at, out),
        events: p.events + 1,
        reader,
    }
}

// Whether so many results, from such a place on, are a block.
fn is_block(n: usize, place: usize, events: usize) -> bool
    ensures { result ≡ is_block n place events }
{
    n <= 64 && place <= 52428 && events <= 52428
}

// The lines of a block, at the front of the output; where it is no block, nothing is done.
pub fn put_results(results: &[u16], from: Reached, out: &mut [u8; 2048]) -> Progress
    ensures { (result ≡ progress_of results.now from)
        × (out.new ≡ lines_put results.now from out.old) }
{
    let mut p = Progress {
        at: 0,
        events: from.events,
        reader: from.reader,
    };
    if !is_block(results.len(), from.place, from.events) {
        return p;
    }
    for (i, &res) in results.iter().enumerate() {
        p = put_result(res, from.place + i, p, &mut *out);
    }
    p
}
