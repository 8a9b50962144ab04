// A whole capture read into events, one packed number a character, with the tables taken once and the state's rule tested once.
#![tactic(auto)]

mod place;
mod runs;
mod source;

ghost use Rattle.std.specs.Prelude.{◌≡◌, true, ◌+◌, ◌≤◌, ◌<◌, length};
ghost use Rattle.capture_rules.specs.Capture.{character_count, characters_of};
ghost use Rattle.packet_rules.specs.State.{well_formed};
ghost use Rattle.events_rules.specs.Answers.{read_says, read_beside};
ghost use Rattle.events_rules.specs.Events.{capture_read, events_left};
ghost use Rattle.events_rules.proofs.Runs.{Ran};
ghost use Rattle.events.specs.Sources.{characters_in, places_in};

use crate::place::Place;
use crate::source::Source;
use capture::Legal;
use disparity::{disparity_of, is_plus};
use packet_rules::Reader;
use refusal::Refusal;

// One character: its event into the output, and the place after it. The output stays beside the source, with the fact that it has room for each
// character: a struct that held it would have each function promise besides that it still holds the same one.
fn read_one(source: &Source, from: Place, events: &mut [u32]) -> Place
    requires { (from.at < places_in source.now) × (places_in source.now ≤ length events.old) }
    ensures { Ran (characters_in source.now) from.at from.plus from.reader
        events.old result.at result.plus result.reader events.new
        × (result.at ≡ from.at + 1) }
{
    let result = source.result_at(from.at, from.plus);
    let mut reader = from.reader;
    let answer = packet_reader::advance::<Refusal>(
        &mut reader,
        Ok(character_reader::unpack_result(result)),
    );
    events[from.at] = event_numbers::event_number(answer);
    Place {
        at: from.at + 1,
        plus: 2048 <= result,
        reader,
    }
}

// A run of user bytes, if one stands here, and the character after it: at least one.
fn read_some(source: &Source, from: Place, events: &mut [u32]) -> Place
    requires { (from.at < places_in source.now) × (places_in source.now ≤ length events.old) }
    ensures { Ran (characters_in source.now) from.at from.plus from.reader
        events.old result.at result.plus result.reader events.new
        × (from.at < result.at) }
{
    let p = runs::user_bytes(source, from, &mut *events);
    if p.at < source.count() {
        return read_one(source, p, events);
    }
    p
}

// All characters from the first on. A turn takes as many as it can, so no iterator gives the places.
fn read_each(source: &Source, plus: bool, reader: Reader, events: &mut [u32]) -> Place
    requires { (places_in source.now ≤ length events.old) × (well_formed reader ≡ true) }
    ensures { Ran (characters_in source.now) 0 plus reader
        events.old (places_in source.now) result.plus result.reader events.new }
{
    let n = source.count();
    let mut p = Place {
        at: 0,
        plus,
        reader,
    };
    while p.at < n {
        p = read_some(source, p, &mut *events);
    }
    p
}

// All characters of a legal capture. The tables are taken here and not beside the checks, so that a refused capture does not pay for them.
fn read_all(capture: Legal, plus: bool, reader: Reader, events: &mut [u32]) -> Place
    requires { (character_count (length capture.bytes.now) ≤ length events.old) × (well_formed reader ≡ true) }
    ensures { Ran (characters_of capture.entry.bytes.now) 0 plus reader
        events.old (character_count (length capture.entry.bytes.now)) result.plus result.reader events.new }
{
    let results = character_reader::Table::new();
    let registers = crc::table::Table::new();
    let source = Source {
        capture,
        results: &results,
        registers: &registers,
    };
    read_each(&source, plus, reader, events)
}

// A capture read from a reader's state and a disparity, which go on to those after it: an event for each character into the front of `events`,
// and how many they are; or refusal 8, 1 or 6.
pub fn read_capture(
    capture: &[u8],
    reader: &mut Reader,
    disparity: &mut i32,
    events: &mut [u32],
) -> Result<usize, Refusal>
    ensures { let read = capture_read capture.now reader.old disparity.old (length events.old) in
        (read_says result ≡ read_beside read)
        × (reader.new ≡ read.reader)
        × (disparity.new ≡ read.disparity)
        × (events.new ≡ events_left capture.now reader.old disparity.old events.old) }
{
    event_checks::may_read(capture, *reader, *disparity, events.len())?;
    let legal = Legal { bytes: capture };
    let p = read_all(legal, is_plus(*disparity), *reader, events);
    *reader = p.reader;
    *disparity = disparity_of(p.plus);
    Ok(legal.count())
}
