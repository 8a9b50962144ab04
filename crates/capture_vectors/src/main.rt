// Runs packing, unpacking, the edge lengths and the pane's moves on fixed inputs, and writes what came of each, a line to a case.
// The expected lines are made by tests/capture/expected.py.
#![tactic(auto)]

use refusal::Refusal;
use std::{fmt, io};

// The bench's line: K28.5, then D21.5.
const BENCH: [u16; 2] = [0b0011111010, 0b1010101010];

// What a line of numbers is made of: bytes, as two hexadecimal digits each, and characters, as decimals.
trait Item: Copy {
    fn put(self, rt: &impl Print) -> io::Result<()>;
}

impl Item for u8 {
    fn put(self, rt: &impl Print) -> io::Result<()> {
        print!(rt; " {self:02x}")
    }
}

impl Item for u16 {
    fn put(self, rt: &impl Print) -> io::Result<()> {
        print!(rt; " {self}")
    }
}

fn items<T: Item>(rt: &impl Print, s: &[T]) -> io::Result<()> {
    for item in s {
        item.put(rt)?;
    }
    Ok(())
}

// A Result has no Display of its own.
fn answer<T: fmt::Display + Copy>(rt: &impl Print, a: Result<T, Refusal>) -> io::Result<()> {
    match a {
        Ok(n) => print!(rt; " {n}"),
        Err(refusal) => print!(rt; " {refusal}"),
    }
}

// What a call on some items answers, and the whole of the output that it leaves.
fn case<A: Item, B: Item, F: FnOnce(&[A], &mut [B]) -> Result<usize, Refusal>>(
    rt: &impl Print,
    name: &str,
    call: F,
    s: &[A],
    out: &mut [B],
) -> io::Result<()>
    requires { F.IsAlwaysCallable call }
{
    print!(rt; "{name}")?;
    items(rt, s)?;
    print!(rt; " into {}:", out.len())?;
    answer(rt, call(s, out))?;
    print!(rt; " leaves")?;
    items(rt, out)?;
    println!(rt)
}

fn pack_case(rt: &impl Print, cs: &[u16], out: &mut [u8]) -> io::Result<()> {
    case(rt, "pack", capture_packing::pack, cs, out)
}

fn unpack_case(rt: &impl Print, s: &[u8], out: &mut [u16]) -> io::Result<()> {
    case(rt, "unpack", capture_unpacking::unpack, s, out)
}

fn set_last(s: &mut [u8], last: u8) {
    if let Some(end) = s.last_mut() {
        *end = last;
    }
}

// A capture of zero bytes, and the same with each single bit of its last byte set.
fn length_case(rt: &impl Print, s: &mut [u8]) -> io::Result<()> {
    print!(rt; "length {}:", s.len())?;
    answer(rt, capture::character_count(s))?;
    if !s.is_empty() {
        for bit in 0u32..8 {
            set_last(s, 1 << bit);
            print!(rt; ",")?;
            answer(rt, capture::character_count(s))?;
        }
        set_last(s, 0);
    }
    println!(rt)
}

// Where a move from a place leads, whether it moves, and the refusal's number, 0 for none: the lines that the reference makes, and no Display's.
fn moved(rt: &impl Print, place: usize, to: Result<Option<usize>, Refusal>) -> io::Result<()> {
    match to {
        Ok(Some(next)) => print!(rt; " {next} moved 0"),
        Ok(None) => print!(rt; " {place} stays 0"),
        Err(refusal) => print!(rt; " {place} stays {}", refusal.number()),
    }
}

// A place of a capture: itself, the character there, and what a move forward and a move back come to.
fn place_case(rt: &impl Print, s: &[u8], place: usize) -> io::Result<()> {
    print!(rt; "place {place}:")?;
    answer(rt, pane_moves::place_in(s, place))?;
    print!(rt; ",")?;
    answer(rt, capture::character_at(s, place))?;
    print!(rt; ", forward")?;
    moved(rt, place, pane_moves::forward_from(s, place))?;
    print!(rt; ", back")?;
    moved(rt, place, pane_moves::back_from(s, place))?;
    println!(rt)
}

// Outputs that are too short or just long enough, characters over 1,023, and both.
fn pack_refusal_cases(rt: &impl Print) -> io::Result<()> {
    pack_case(rt, &BENCH, &mut [0xEEu8; 2])?;
    pack_case(rt, &BENCH, &mut [0xEEu8; 3])?;
    pack_case(rt, &[1023, 1024], &mut [0xEEu8; 5])?;
    pack_case(rt, &[1024, 1023], &mut [0xEEu8; 0])
}

// The same for unpacking, and captures that are not legal.
fn unpack_refusal_cases(rt: &impl Print) -> io::Result<()> {
    unpack_case(rt, &[0x3E, 0xAA, 0xA0], &mut [4444u16; 1])?;
    unpack_case(rt, &[0x3E, 0xAA, 0xA0], &mut [4444u16; 2])?;
    unpack_case(rt, &[0x3E, 0xAA, 0xA8], &mut [4444u16; 2])?;
    unpack_case(rt, &[0x3E], &mut [4444u16; 0])
}

fn short_cases(rt: &impl Print) -> io::Result<()> {
    let mut s = [0u8; 11];
    for n in 0..12 {
        length_case(rt, &mut s[..n])?;
    }
    Ok(())
}

fn longest_cases(rt: &impl Print) -> io::Result<()> {
    let mut s = [0u8; 65537];
    for n in 65532..65538 {
        length_case(rt, &mut s[..n])?;
    }
    Ok(())
}

// What packing some characters answers, into so many bytes, at most as many as a capture has.
fn many_case(rt: &impl Print, cs: &[u16], room: usize) -> io::Result<()> {
    let mut out = [0u8; 65535];
    let room = room.min(65535);
    print!(rt; "many {} {room}:", cs.len())?;
    answer(rt, capture_packing::pack(cs, &mut out[..room]))?;
    println!(rt)
}

// Zero characters as many as a capture holds and one more, and the first of them over 1,023.
fn many_cases(rt: &impl Print) -> io::Result<()> {
    let mut cs = [0u16; 52429];
    many_case(rt, &cs[..52428], 65534)?;
    many_case(rt, &cs[..52428], 65535)?;
    many_case(rt, &cs, 65535)?;
    cs[0] = 1024;
    many_case(rt, &cs[..52428], 65534)?;
    many_case(rt, &cs, 65534)
}

// The first n characters of a pattern, packed into sixteen bytes, and back into twelve characters.
fn pattern_cases(rt: &impl Print) -> io::Result<()> {
    for n in 0..10 {
        let mut cs = [0u16; 10];
        for (i, character) in cs.iter_mut().enumerate() {
            *character = ((i * 397 + n * 61 + 5) % 1024) as u16;
        }
        let mut out = [0xEEu8; 16];
        let mut back = [4444u16; 12];
        pack_case(rt, &cs[..n], &mut out)?;
        unpack_case(rt, &out[..(10 * n + 7) / 8], &mut back)?;
    }
    Ok(())
}

fn place_cases(rt: &impl Print) -> io::Result<()> {
    for place in 0..4 {
        place_case(rt, &[0x3E, 0xAA, 0xA0], place)?;
    }
    place_case(rt, &[0x3E, 0xAA, 0xA1], 0)?;
    place_case(rt, &[], 0)?;
    print!(rt; "first:")?;
    answer(rt, pane::first(&[0x3E, 0xAA, 0xA0]))?;
    print!(rt; ",")?;
    answer(rt, pane::first(&[]))?;
    println!(rt)
}

fn main(rt: HostRuntime) -> io::Result<()> {
    pack_case(&rt, &BENCH, &mut [0xEEu8; 5])?;
    pattern_cases(&rt)?;
    pack_refusal_cases(&rt)?;
    unpack_refusal_cases(&rt)?;
    short_cases(&rt)?;
    longest_cases(&rt)?;
    many_cases(&rt)?;
    place_cases(&rt)
}
