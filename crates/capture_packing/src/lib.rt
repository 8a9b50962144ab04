// Packing: ten-bit characters into bytes, most significant bit first.
#![tactic(auto)]

ghost use Rattle.std.specs.Prelude.{◌≡◌, true, ◌≤◌, ◌<◌, length, get_or};
ghost use Rattle.laws.specs.Groups.{all_below};
ghost use Rattle.capture_rules.specs.Capture.{byte_count, pack_of};
ghost use Rattle.capture_rules.specs.Calls.{says, pack_says, pack_leaves};

use refusal::Refusal;

// The most characters that a capture holds.
const MOST_CHARACTERS: usize = 52428;

// A character, or 0 past the last.
fn character_or_zero(characters: &[u16], i: usize) -> u32
    ensures { result ≡ get_or characters.now i 0 }
{
    characters.get(i).copied().map_or(0, u32::from)
}

// The eight bits from bit 8 k on, which lie in two characters.
fn byte_of(characters: &[u16], k: usize) -> u8
    requires { (all_below 1024 characters.now ≡ true) × (length characters.now ≤ 52428) × (k < byte_count (length characters.now)) }
    ensures { result ≡ get_or (pack_of characters.now) k 0 }
{
    let i = 8 * k / 10;
    let two = character_or_zero(characters, i) * 1024 + character_or_zero(characters, i + 1);
    ((two >> (12 - 8 * k % 10)) % 256) as u8
}

// No character is over 1,023. It goes on after the first that is: a loop with one way out is compiled to eight characters a step, and `all` has two.
// The run reader has the like loop: each is equal to a word of its own rules, and three lines in a crate of their own would be no plainer.
fn in_range(characters: &[u16]) -> bool
    ensures { result ≡ all_below 1024 characters.now }
{
    let mut good = true;
    for &character in characters {
        good &= character < 1024;
    }
    good
}

// Fills `out`, which is as long as the result.
fn store_bytes(characters: &[u16], out: &mut [u8])
    requires { (all_below 1024 characters.now ≡ true) × (length characters.now ≤ 52428) × (length out.old ≡ byte_count (length characters.now)) }
    ensures { out.new ≡ pack_of characters.now }
{
    for (k, byte) in out.iter_mut().enumerate() {
        *byte = byte_of(characters, k);
    }
}

// Packs characters into the front of `out`; answers the number of bytes.
pub fn pack(characters: &[u16], out: &mut [u8]) -> Result<usize, Refusal>
    ensures { (says result ≡ pack_says characters.now (length out.old)) × (out.new ≡ pack_leaves characters.now out.old) }
{
    if MOST_CHARACTERS < characters.len() {
        return Err(Refusal::BadCapture);
    }
    if !in_range(characters) {
        return Err(Refusal::OutOfRange);
    }
    let n = (10 * characters.len() + 7) / 8;
    if out.len() < n {
        return Err(Refusal::ShortOutput);
    }
    store_bytes(characters, &mut out[..n]);
    Ok(n)
}
