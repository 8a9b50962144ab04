// Runs of user bytes, which are most of a capture: while a packet takes bytes, each clean data symbol is an event and a step of the CRC.
ghost use Rattle.std.specs.Prelude.{◌≡◌, ◌+◌, ◌≤◌, length};
ghost use Rattle.events_rules.proofs.Runs.{Ran};
ghost use Rattle.events.specs.Sources.{characters_in, places_in};
ghost use Rattle.events_rules.proofs.Feeding.{Fed, Takes, count_in, fed_to};

use crate::place::Place;
use crate::source::Source;
use packet_open::register_in;
use packet_rules::{DataPacket, Phase, PriorityPacket, Reader};

// Where a run of bytes stands: the next character, whether the disparity is +1, and the packet's register.
#[derive(Clone, Copy, Debug, PartialEq, Eq)]
pub struct Taken {
    pub at: usize,
    pub plus: bool,
    pub register: u16,
}

// Bytes as long as they come, none past `until`. The index is a place of the capture and of the output, where the capture has no slice of characters.
fn take_bytes(source: &Source, from: Taken, until: usize, events: &mut [u32]) -> Taken
    requires { (until ≤ places_in source.now) × (places_in source.now ≤ length events.old)
        × (from.at ≤ until) }
    ensures { Fed (characters_in source.now) until from.at from.plus from.register
        events.old result.at result.plus result.register events.new }
{
    let mut plus = from.plus;
    let mut register = from.register;
    for at in from.at..until {
        let result = source.result_at(at, plus);
        if 256 <= result % 2048 {
            return Taken { at, plus, register };
        }
        let byte = (result % 256) as u8;
        events[at] = 262144 + u32::from(byte);
        register = source.step(register, byte);
        plus = 2048 <= result;
    }
    Taken {
        at: until,
        plus,
        register,
    }
}

// How many of so many bytes the open packet takes: a data packet that has begun all, a priority packet no more than S in all.
fn room_in(r: Reader, most: usize) -> usize
    requires { most ≤ 65535 }
    ensures { Takes r.size r.packet r.priority r.phase most result }
{
    match (r.phase, r.priority, r.packet) {
        (Phase::Free, Some(inner), _) if inner.count <= r.size => {
            most.min((r.size - inner.count) as usize)
        }
        (Phase::Free, None, Some(outer)) if outer.begun => most,
        _ => 0,
    }
}

// The state after so many bytes, with that register: the packet that took them is written anew.
fn reader_after(r: Reader, more: usize, register: u16) -> Reader
    requires { count_in r.priority + more ≤ 65535 }
    ensures { result ≡ fed_to r.size r.packet r.priority r.phase more register }
{
    match (r.priority, r.packet) {
        (Some(inner), _) => Reader {
            priority: Some(PriorityPacket {
                count: inner.count + more as u16,
                register,
                ..inner
            }),
            ..r
        },
        (None, Some(outer)) => Reader {
            packet: Some(DataPacket { register, ..outer }),
            ..r
        },
        (None, None) => r,
    }
}

// As many user bytes as come next, where a packet takes them.
pub(crate) fn user_bytes(source: &Source, from: Place, events: &mut [u32]) -> Place
    requires { (from.at ≤ places_in source.now)
        × (places_in source.now ≤ length events.old) }
    ensures { Ran (characters_in source.now) from.at from.plus from.reader
        events.old result.at result.plus result.reader events.new }
{
    let reader = from.reader;
    let room = room_in(reader, source.count() - from.at);
    if room == 0 {
        return from;
    }
    let start = Taken {
        at: from.at,
        plus: from.plus,
        register: register_in(reader),
    };
    let taken = take_bytes(source, start, from.at + room, events);
    Place {
        at: taken.at,
        plus: taken.plus,
        reader: reader_after(reader, taken.at - from.at, taken.register),
    }
}
