// A later piece of a listing: the characters are taken and read in bulk, and their results are listed; after the last comes the end.
#![tactic(auto)]

ghost use Rattle.std.specs.Prelude.{◌≡◌, true, ◌++◌, ◌+◌, ◌≤◌, ◌<◌, length, take, drop};
ghost use Rattle.capture_rules.specs.Capture.{characters_of, character_count};
ghost use Rattle.listing_rules.specs.Lines.{end_line};
ghost use Rattle.listing_rules.specs.Pieces.{later_says, later_beside, keeps_rule, next_says, next_leaves, Puts};
ghost use Rattle.listing_rules.specs.declared.Listing.TheVariants.{Going as IsGoing};
ghost use Rattle.listing_pieces.specs.Blocks.{block_length};

use capture::Legal;
use listing_rules::{Listing, Piece, Reached};
use refusal::Refusal;

// The rule of a listing that goes on.
fn keeps_rule(p: Reached) -> bool
    ensures { result ≡ keeps_rule p }
{
    p.events <= p.place
        && disparity::is_disparity(p.disparity)
        && packet_state::is_well_formed(p.reader)
}

// The characters from a place on, as many as `out` has room for.
fn take_characters(capture: Legal, place: usize, out: &mut [u16])
    requires { place + length out.old ≤ character_count (length capture.bytes.now) }
    ensures { out.new ≡ take (length out.old) (drop place (characters_of capture.entry.bytes.now)) }
{
    for (i, character) in out.iter_mut().enumerate() {
        *character = capture::character_of(capture.bytes, place + i);
    }
}

// At most 64 of the characters that are left.
fn block_length(left: usize) -> usize
    ensures { result ≡ block_length left }
{
    left.min(64)
}

// The lines of the next characters.
fn next_lines(capture: Legal, p: Reached, out: &mut [u8; 2048]) -> Piece
    requires { (keeps_rule p ≡ true) × (p.place < character_count (length capture.bytes.now)) }
    ensures { Puts capture.entry.bytes.now (IsGoing p) out.old result out.new }
{
    let n = block_length(capture.count() - p.place);
    // Two arrays of fixed size, as there is no heap: a block is at most 64 characters.
    let mut characters = [0u16; 64];
    let mut results = [0u16; 64];
    take_characters(capture, p.place, &mut characters[..n]);
    let disparity = run_reader::read_run(&characters[..n], p.disparity, &mut results).unwrap();
    let q = listing_lines::put_results(&results[..n], p, out);
    Piece {
        length: q.at,
        listing: Listing::Going(Reached {
            place: p.place + n,
            events: q.events,
            disparity,
            reader: q.reader,
        }),
    }
}

// The last line.
fn put_end(characters: usize, events: usize, out: &mut [u8; 2048]) -> usize
    ensures { (result ≡ length (end_line characters events))
        × (out.new ≡ end_line characters events ++ drop (length (end_line characters events)) out.old) }
{
    let at = listing_text::put_front(b"end ", &mut *out);
    listing_text::put_numbered(characters, b" ", events, at, out)
}

// The lines of the next characters, or the last line.
fn lines_or_end(capture: Legal, p: Reached, out: &mut [u8; 2048]) -> Piece
    requires { (keeps_rule p ≡ true) × (p.place ≤ character_count (length capture.bytes.now)) }
    ensures { Puts capture.entry.bytes.now (IsGoing p) out.old result out.new }
{
    if p.place < capture.count() {
        return next_lines(capture, p, out);
    }
    Piece {
        length: put_end(p.place, p.events, out),
        listing: Listing::Ended,
    }
}

// The next piece of a listing that goes on, into the front of `out`.
pub fn later_piece(capture: &[u8], p: Reached, out: &mut [u8; 2048]) -> Result<Piece, Refusal>
    ensures { (later_says result ≡ later_beside (next_says capture.now (IsGoing p)))
        × (out.new ≡ next_leaves capture.now (IsGoing p) out.old) }
{
    let capture = Legal::new(capture)?;
    if !keeps_rule(p) {
        return Err(Refusal::OutOfRange);
    }
    if capture.count() < p.place {
        return Err(Refusal::OutOfRange);
    }
    Ok(lines_or_end(capture, p, out))
}
