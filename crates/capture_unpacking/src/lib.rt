// Unpacking: a capture's characters, four from five bytes.
#![tactic(auto)]

ghost use Rattle.std.specs.Prelude.{◌≡◌, ◌+◌, ◌*◌, ◌/◌, ◌%◌, ◌^◌, ◌≤◌, length, take, set};
ghost use Rattle.capture_rules.specs.Capture.{character_count, characters_of};
ghost use Rattle.capture_rules.specs.Calls.{says, unpack_says, unpack_leaves};

use capture::{Legal, character_of, ten_bits};
use refusal::Refusal;

// Five bytes hold four characters, which are stored from a place on.
fn store_four(a: u8, b: u8, c: u8, d: u8, e: u8, i: usize, out: &mut [u16])
    requires { i + 4 ≤ length out.old }
    ensures { out.new ≡ set (set (set (set out.old i ((a * 256 + b) / 2 ^ 6 % 1024))
        (i + 1) ((b * 256 + c) / 2 ^ 4 % 1024)) (i + 2) ((c * 256 + d) / 2 ^ 2 % 1024)) (i + 3) ((d * 256 + e) / 2 ^ 0 % 1024) }
{
    out[i] = ten_bits(a, b, 6) as u16;
    out[i + 1] = ten_bits(b, c, 4) as u16;
    out[i + 2] = ten_bits(c, d, 2) as u16;
    out[i + 3] = ten_bits(d, e, 0) as u16;
}

// Fills `out` with so many fours, each read before its first character is stored.
fn store_fours(capture: Legal, out: &mut [u16])
    requires { (length out.old % 4 ≡ 0) × (length out.old ≤ character_count (length capture.bytes.now)) }
    ensures { out.new ≡ take (length out.old) (characters_of capture.entry.bytes.now) }
{
    let bytes = capture.bytes;
    for g in 0..out.len() / 4 {
        let k = 5 * g;
        let a = bytes[k];
        let b = bytes[k + 1];
        let c = bytes[k + 2];
        let d = bytes[k + 3];
        let e = bytes[k + 4];
        store_four(a, b, c, d, e, 4 * g, out);
    }
}

// Fills `out`, which is as long as the result: the fours, and then the last 0 to 3 characters.
fn store_characters(capture: Legal, out: &mut [u16])
    requires { length out.old ≡ character_count (length capture.bytes.now) }
    ensures { out.new ≡ characters_of capture.entry.bytes.now }
{
    let at = out.len() / 4 * 4;
    let (fours, rest) = out.split_at_mut(at);
    store_fours(capture, fours);
    for (i, character) in rest.iter_mut().enumerate() {
        *character = character_of(capture.bytes, at + i);
    }
}

// Unpacks a capture's characters into the front of `out`; answers their number.
pub fn unpack(capture: &[u8], out: &mut [u16]) -> Result<usize, Refusal>
    ensures { (says result ≡ unpack_says capture.now (length out.old)) × (out.new ≡ unpack_leaves capture.now out.old) }
{
    let capture = Legal::new(capture)?;
    let count = capture.count();
    if out.len() < count {
        return Err(Refusal::ShortOutput);
    }
    store_characters(capture, &mut out[..count]);
    Ok(count)
}
