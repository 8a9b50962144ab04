// Captures: ten-bit characters packed into bytes. Their number, whether one is legal, and the character at a place.
#![tactic(auto)]

ghost use Rattle.std.specs.Prelude.{◌≡◌, true, ◌+◌, ◌*◌, ◌/◌, ◌%◌, ◌^◌, get_or, length};
ghost use Rattle.capture_rules.specs.Capture.{characters_of, character_count, legal};
ghost use Rattle.capture_rules.specs.Calls.{says, count_says, character_says};

use refusal::Refusal;

// The most bytes that a capture has.
const MOST_BYTES: usize = 65535;

// Whether a capture's length is one that is written, and its closing bits, the lowest of the last byte, are zero.
#[tactic(auto, using(crate::proofs::Facts::one_over))]
pub fn is_legal(capture: &[u8]) -> bool
    ensures { result ≡ legal capture.now }
{
    let n = capture.len();
    if MOST_BYTES < n {
        return false;
    }
    if n % 5 == 1 {
        return false;
    }
    if n == 0 {
        return true;
    }
    let closing = 8 * n % 10;
    let last = usize::from(capture[n - 1]);
    last % (1 << closing) == 0
}

// Ten of the sixteen bits of two bytes, with so many bits after them, 0 to 7.
pub fn ten_bits(first: u8, second: u8, after: usize) -> usize
    ensures { result ≡ (first * 256 + second) / 2 ^ (after % 8) % 1024 }
{
    ((usize::from(first) * 256 + usize::from(second)) >> (after % 8)) % 1024
}

// The ten bits from bit 10 i on, which lie in two bytes; 0 past the last character.
pub fn character_of(capture: &[u8], i: usize) -> u16
    ensures { result ≡ get_or (characters_of capture.now) i 0 }
{
    if capture.len() <= i {
        return 0;
    }
    let k = i + i / 4;
    if capture.len() <= k + 1 {
        return 0;
    }
    ten_bits(capture[k], capture[k + 1], 6 - 2 * (i % 4)) as u16
}

// The bytes of a legal capture.
#[derive(Clone, Copy, Debug)]
pub struct Legal<'a> {
    pub bytes: &'a [u8],
    ghost is_legal: { legal bytes.now ≡ true },
}

impl<'a> Legal<'a> {
    ghost use Rattle.capture.specs.Taken.{legal_says, taken_of};

    // Some bytes, if they are a legal capture.
    pub fn new(bytes: &'a [u8]) -> Result<Legal<'a>, Refusal>
        ensures { legal_says result ≡ taken_of bytes.entry.now }
    {
        if is_legal(bytes) {
            Ok(Legal { bytes })
        } else {
            Err(Refusal::BadCapture)
        }
    }

    // How many characters it holds.
    pub fn count(self) -> usize
        ensures { result ≡ character_count (length self.entry.bytes.now) }
    {
        8 * self.bytes.len() / 10
    }
}

// How many characters a capture holds.
pub fn character_count(capture: &[u8]) -> Result<usize, Refusal>
    ensures { says result ≡ count_says capture.now }
{
    Ok(Legal::new(capture)?.count())
}

// The character at a place.
pub fn character_at(capture: &[u8], place: usize) -> Result<u16, Refusal>
    ensures { says result ≡ character_says capture.now place }
{
    if place < Legal::new(capture)?.count() {
        Ok(character_of(capture, place))
    } else {
        Err(Refusal::OutOfRange)
    }
}
