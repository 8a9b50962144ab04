// The writer of characters: two blocks, each chosen at the disparity in force when it begins.
#![tactic(auto)]

ghost use Rattle.std.specs.Prelude.{◌≡◌, ◌/◌, ◌%◌, ◌<◌, ◌≤◌, ◌||◌, cond, eqb, T, neg_ℤ};
ghost use Rattle.character_rules.specs.Disparity.{is_disparity};
ghost use Rattle.character_rules.specs.Blocks.{unbalanced, in_force, six_listed, six_block, four_listed, four_by_list};
ghost use Rattle.character_rules.specs.Blocks.{alternate_at_minus, alternate_at_plus, four_block, character, closing};
ghost use Rattle.character_rules.specs.Answers.{written, writing_says};
ghost use Rattle.character_rules.specs.Writing.{writing};

use character_rules::Encoded;
use disparity::{is_disparity, is_plus};
use refusal::Refusal;
use symbol::Symbol;

// Six-bit blocks at -1, x from 0 to 31.
const SIX_BLOCKS: [u8; 32] = [
    0b100111, 0b011101, 0b101101, 0b110001, 0b110101, 0b101001, 0b011001, 0b111000, 0b111001,
    0b100101, 0b010101, 0b110100, 0b001101, 0b101100, 0b011100, 0b010111, 0b011011, 0b100011,
    0b010011, 0b110010, 0b001011, 0b101010, 0b011010, 0b111010, 0b110011, 0b100110, 0b010110,
    0b110110, 0b001110, 0b101110, 0b011110, 0b101011,
];

// Four-bit blocks at -1, y from 0 to 7: of data, and of control.
const FOUR_BLOCKS: [u8; 8] = [
    0b1011, 0b1001, 0b0101, 0b1100, 0b1101, 0b1010, 0b0110, 0b1110,
];

const CONTROL_FOUR_BLOCKS: [u8; 8] = [
    0b1011, 0b0110, 0b1010, 0b1100, 0b1101, 0b0101, 0b1001, 0b0111,
];

// A block of twice `half` bits with another number of ones than of zeros.
fn unbalanced(half: u32, b: u8) -> bool
    requires { b < 64 }
    ensures { result ≡ unbalanced half b }
{
    b.count_ones() != half
}

// The disparity after a block: an unbalanced one turns it over.
fn turn(over: bool, d: i32) -> i32
    requires { T (is_disparity d) }
    ensures { (result ≡ cond over (neg_ℤ d) d) × T (is_disparity result) }
{
    if over { -d } else { d }
}

// A block of the lists, for the number k, at the disparity in force: complemented at +1 where it is unbalanced, of control, or that for PAIRED.
fn in_force<const WHOLE: u8, const HALF: u32, const PAIRED: u8>(
    control: bool,
    k: u8,
    plus: bool,
    b: u8,
) -> u8
    requires { (b ≤ WHOLE) × (WHOLE < 64) }
    ensures { (result ≡ in_force WHOLE (control || (unbalanced HALF b || eqb k PAIRED)) plus b) × (result ≤ WHOLE) }
{
    let changes = control || unbalanced(HALF, b) || k == PAIRED;
    if changes && plus { WHOLE - b } else { b }
}

// The six-bit block at -1 for x, the lowest five bits of the byte.
fn six_listed(s: Symbol) -> u8
    ensures { (result ≡ six_listed s.control (s.byte % 32)) × (result < 64) }
{
    let x = (s.byte % 32) as usize;
    if s.control && x == 28 {
        0b001111
    } else {
        SIX_BLOCKS[x]
    }
}

fn six_block(s: Symbol, plus: bool) -> u8
    ensures { (result ≡ six_block s.control (s.byte % 32) plus) × (result < 64) }
{
    in_force::<0b111111, 3, 7>(s.control, s.byte % 32, plus, six_listed(s))
}

// The four-bit block at -1 for y, the highest three bits of the byte. No twin of the six-bit block: that has one array and an exception, this has two arrays.
fn four_listed(s: Symbol) -> u8
    ensures { (result ≡ four_listed s.control (s.byte / 32)) × (result < 16) }
{
    let y = (s.byte / 32) as usize;
    if s.control {
        CONTROL_FOUR_BLOCKS[y]
    } else {
        FOUR_BLOCKS[y]
    }
}

fn four_by_list(s: Symbol, plus: bool) -> u8
    ensures { (result ≡ four_by_list s.control (s.byte / 32) plus) × (result < 16) }
{
    in_force::<0b1111, 2, 3>(s.control, s.byte / 32, plus, four_listed(s))
}

fn alternate_at_minus(x: u8, plus: bool) -> bool
    ensures { result ≡ alternate_at_minus x plus }
{
    !plus && matches!(x, 17 | 18 | 20)
}

fn alternate_at_plus(x: u8, plus: bool) -> bool
    ensures { result ≡ alternate_at_plus x plus }
{
    plus && matches!(x, 11 | 13 | 14)
}

fn four_block(s: Symbol, plus: bool) -> u8
    ensures { (result ≡ four_block s.control (s.byte % 32) (s.byte / 32) plus) × (result < 16) }
{
    let x = s.byte % 32;
    let y = s.byte / 32;
    let listed = four_by_list(s, plus);
    if s.control || y != 7 {
        listed
    } else if alternate_at_minus(x, plus) {
        0b0111
    } else if alternate_at_plus(x, plus) {
        0b1000
    } else {
        listed
    }
}

// The two blocks, and the disparity turned over by each that is unbalanced.
fn write_blocks(s: Symbol, d: i32) -> Encoded
    requires { T (is_disparity d) }
    ensures { written result.character result.disparity ≡ written (character s d) (closing s d) }
{
    let first = six_block(s, is_plus(d));
    let between = turn(unbalanced(3, first), d);
    let second = four_block(s, is_plus(between));
    let closing = turn(unbalanced(2, second), between);
    Encoded {
        character: u16::from(first) * 16 + u16::from(second),
        disparity: closing,
    }
}

// A symbol as a character at a disparity, with the closing disparity; or refusal 1 or 3.
pub fn write(symbol: Symbol, disparity: i32) -> Result<Encoded, Refusal>
    ensures { writing_says result ≡ writing symbol disparity }
{
    if !is_disparity(disparity) {
        return Err(Refusal::OutOfRange);
    }
    if !symbol.is_writable() {
        return Err(Refusal::NotWritable);
    }
    Ok(write_blocks(symbol, disparity))
}
