// Text put into a piece of a listing. The answer is the index after it; where there is no room, the same index.
#![tactic(auto)]

ghost use Rattle.std.specs.Prelude.{◌≡◌, ◌+◌, ◌≤◌, length};
ghost use Rattle.listing_rules.specs.Text.{five_digits, leading_zeros, decimal};
ghost use Rattle.listing_text.specs.Writing.{worded_line, numbered_line, has_room, front_room, worded_room, numbered_room, index_after, output_after, Wrote};

// The output and the index go side by side: a struct that holds a lent output has each function promise besides that it is the same one, and so
// no equation of the whole, and one that owns its bytes copies 2,048 of them in and out for each piece.
fn put(text: &[u8], at: usize, out: &mut [u8]) -> usize
    requires { at + length text.now ≤ length out.old }
    ensures { Wrote at text.now out.old out.new result }
{
    let end = at + text.len();
    out[at..end].copy_from_slice(text);
    end
}

// The listing's own definition of a digit: the numbers go into lent bytes, without a formatter.
fn digit(n: usize) -> u8
    ensures { result ≡ Rattle.listing_rules.specs.Text.digit n }
{
    b'0' + (n % 10) as u8
}

fn five_digits(n: usize) -> [u8; 5]
    ensures { result ≡ five_digits n }
{
    [
        digit(n / 10000),
        digit(n / 1000),
        digit(n / 100),
        digit(n / 10),
        digit(n),
    ]
}

fn leading_zeros(n: usize) -> usize
    ensures { result ≡ leading_zeros n }
{
    match n {
        0..=9 => 4,
        10..=99 => 3,
        100..=999 => 2,
        1000..=9999 => 1,
        _ => 0,
    }
}

#[tactic(auto, using(crate::proofs::Decimal::decimal_part))]
fn put_number(n: usize, at: usize, out: &mut [u8]) -> usize
    requires { at + 5 ≤ length out.old }
    ensures { Wrote at (decimal n) out.old out.new result }
{
    let digits = five_digits(n);
    let zeros = leading_zeros(n);
    put(&digits[zeros..], at, out)
}

// Whether a text with some bytes more has room from an index on.
fn has_room(at: usize, length: usize, more: usize) -> bool
    requires { more ≤ 2048 }
    ensures { result ≡ has_room at (length + more) }
{
    length <= 2048 - more && at <= 2048 - more - length
}

// A text at the front.
pub fn put_front(text: &[u8], out: &mut [u8; 2048]) -> usize
    ensures { (result ≡ index_after (front_room text.now) 0 text.now)
        × (out.new ≡ output_after (front_room text.now) 0 text.now out.old) }
{
    if 2048 < text.len() {
        return 0;
    }
    put(text, 0, out)
}

// A line that ends in words: the place, then the words with the space before them and the line feed.
#[tactic(auto, using(crate::proofs::Decimal::decimal_short))]
pub fn put_worded(place: usize, words: &[u8], at: usize, out: &mut [u8; 2048]) -> usize
    ensures { (result ≡ index_after (worded_room at words.now) at (worded_line place words.now))
        × (out.new ≡ output_after (worded_room at words.now) at (worded_line place words.now) out.old) }
{
    if !has_room(at, words.len(), 5) {
        return at;
    }
    let a = put_number(place, at, &mut *out);
    put(words, a, out)
}

// A line that ends in a number: the place, the words with the spaces about them, the number.
#[tactic(auto, using(crate::proofs::Decimal::decimal_short))]
pub fn put_numbered(place: usize, words: &[u8], n: usize, at: usize, out: &mut [u8; 2048]) -> usize
    ensures { (result ≡ index_after (numbered_room at words.now) at (numbered_line place words.now n))
        × (out.new ≡ output_after (numbered_room at words.now) at (numbered_line place words.now n) out.old) }
{
    if !has_room(at, words.len(), 11) {
        return at;
    }
    let a = put_number(place, at, &mut *out);
    let b = put(words, a, &mut *out);
    let c = put_number(n, b, &mut *out);
    put(b"\n", c, out)
}
