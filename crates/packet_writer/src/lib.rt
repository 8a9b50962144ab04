// The packet writer: one whole data packet, priority packet or retry LMP a call, as ten-bit characters into lent memory.
#![tactic(auto)]

ghost use Rattle.std.specs.Prelude.{◌≡◌, [], ◌∷◌, map, ◌+◌, ◌≤◌, ◌<◌, T, length};
ghost use Rattle.laws.specs.Lists.{all_of};
ghost use Rattle.symbol.specs.Symbols.{data_symbol};
ghost use Rattle.character_rules.specs.Disparity.{is_disparity};
ghost use Rattle.character_rules.specs.Demand.{can_write};
ghost use Rattle.packet_rules.specs.Line.{end_symbol};
ghost use Rattle.packet_rules.specs.Packets.{in_data, in_priority, retry, retry_byte, packet_symbols, written_says, packet_writing, packet_output};
ghost use Rattle.packet_writer.specs.Writing.{lmp_symbols, Wrote};

use packet_refusals::{may_write_data, may_write_lmp, may_write_priority};
use packet_rules::Written;
use refusal::Refusal;
use symbol::Symbol;

// The output and what is written so far go side by side: a struct over the output would have each contract say that its loan is still the same one.
// That the disparity is one stands in each contract: a type with that as its invariant would have the fields of `Written` a second time.

// One character after those that are written. What can be written, at a disparity, is not refused: no answer is handed on for each character.
fn put(out: &mut [u16], w: Written, s: Symbol) -> Written
    requires { (w.count < length out.old) × T (can_write s) × T (is_disparity w.disparity) }
    ensures { Wrote w (s ∷ []) out.old out.new result }
{
    let encoded = character_writer::write(s, w.disparity).unwrap();
    out[w.count] = encoded.character;
    Written {
        count: w.count + 1,
        disparity: encoded.disparity,
    }
}

fn put_symbols(out: &mut [u16], from: Written, symbols: &[Symbol]) -> Written
    requires { (from.count + length symbols.now ≤ length out.old) × T (all_of can_write symbols.now) × T (is_disparity from.disparity) }
    ensures { Wrote from symbols.now out.old out.new result }
{
    let mut w = from;
    for &s in symbols {
        w = put(&mut *out, w, s);
    }
    w
}

// The user bytes are written as one run.
fn put_bytes(out: &mut [u16], w: Written, bytes: &[u8]) -> Written
    requires { (w.count + length bytes.now ≤ length out.old) × T (is_disparity w.disparity) }
    ensures { Wrote w (map data_symbol bytes.now) out.old out.new result }
{
    let disparity = run_writer::write_run(bytes, w.disparity, &mut out[w.count..]).unwrap();
    Written {
        count: w.count + bytes.len(),
        disparity,
    }
}

fn end_symbol(bad: bool) -> Symbol
    ensures { result ≡ end_symbol bad }
{
    if bad { Symbol::EBP } else { Symbol::EGP }
}

// A whole packet: its start symbol, the opening byte, the bytes, the end symbol, the opening byte again, and the CRC.
fn put_packet(
    out: &mut [u16],
    from: Written,
    start: Symbol,
    opening: u8,
    bytes: &[u8],
    bad: bool,
) -> Written
    requires { (from.count + (length bytes.now + 6) ≤ length out.old) × T (can_write start) × T (is_disparity from.disparity) }
    ensures { Wrote from (packet_symbols start opening bytes.now bad) out.old out.new result }
{
    let o = Symbol::data(opening);
    let check = crc::check_of(bytes);
    let head = [start, o];
    let tail = [
        end_symbol(bad),
        o,
        Symbol::data(check[0]),
        Symbol::data(check[1]),
    ];
    let opened = put_symbols(&mut *out, from, &head);
    let filled = put_bytes(&mut *out, opened, bytes);
    put_symbols(&mut *out, filled, &tail)
}

fn put_lmp(out: &mut [u16], from: Written, t: u8, n: u8) -> Written
    requires { (from.count + 4 ≤ length out.old) × T (is_disparity from.disparity) }
    ensures { Wrote from (lmp_symbols t n) out.old out.new result }
{
    let symbols = [
        Symbol::SLP,
        Symbol::data(t),
        Symbol::data(n),
        Symbol::data(t ^ n),
    ];
    put_symbols(&mut *out, from, &symbols)
}

// One whole data packet. S plays no part in it.
pub fn write_data(
    channel: u32,
    bytes: &[u8],
    bad: bool,
    disparity: i32,
    out: &mut [u16],
) -> Result<Written, Refusal>
    ensures { (written_says result ≡ packet_writing 0 (in_data channel bytes.now bad) disparity out.old)
        × (out.new ≡ packet_output 0 (in_data channel bytes.now bad) disparity out.old) }
{
    may_write_data(channel, bytes, disparity, out.len())?;
    let from = Written {
        count: 0,
        disparity,
    };
    Ok(put_packet(&mut *out, from, Symbol::SDP, channel as u8, bytes, bad))
}

// One whole priority packet, for segments of S bytes.
pub fn write_priority(
    size: u32,
    channel: u32,
    segment: u32,
    bytes: &[u8],
    bad: bool,
    disparity: i32,
    out: &mut [u16],
) -> Result<Written, Refusal>
    ensures { (written_says result ≡ packet_writing size (in_priority channel segment bytes.now bad) disparity out.old)
        × (out.new ≡ packet_output size (in_priority channel segment bytes.now bad) disparity out.old) }
{
    may_write_priority(size, channel, segment, bytes, disparity, out.len())?;
    let from = Written {
        count: 0,
        disparity,
    };
    let opening = (16 * segment + channel) as u8;
    Ok(put_packet(&mut *out, from, Symbol::SPP, opening, bytes, bad))
}

fn retry_byte(nack: bool) -> u8
    ensures { result ≡ retry_byte nack }
{
    if nack { 0x21 } else { 0x20 }
}

// One retry LMP: ACK or NACK of a number. Both come as C has them, with any number: the retry's `Reply` holds a segment's, and 16 is to be refused.
pub fn write_lmp(
    nack: bool,
    number: u32,
    disparity: i32,
    out: &mut [u16],
) -> Result<Written, Refusal>
    ensures { (written_says result ≡ packet_writing 0 (retry nack number) disparity out.old)
        × (out.new ≡ packet_output 0 (retry nack number) disparity out.old) }
{
    may_write_lmp(number, disparity, out.len())?;
    let from = Written {
        count: 0,
        disparity,
    };
    Ok(put_lmp(&mut *out, from, retry_byte(nack), number as u8))
}
