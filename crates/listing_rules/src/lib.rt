// Where a listing stands, and a piece of it. The rules are in specs/, the theorems about them in proofs/.
#![tactic(auto)]

use packet_rules::Reader;

// The characters before a place are listed: so many events, the disparity there, and the reader after them.
#[derive(Clone, Copy, Debug, PartialEq, Eq)]
pub struct Reached {
    pub place: usize,
    pub events: usize,
    pub disparity: i32,
    pub reader: Reader,
}

#[derive(Clone, Copy, Debug, PartialEq, Eq)]
pub enum Listing {
    // Nothing is listed yet.
    Fresh,
    // The header is listed, and the characters before a place.
    Going(Reached),
    // All is listed.
    Ended,
}

// A piece that was put at the front of an output, and the listing after it.
#[derive(Clone, Copy, Debug, PartialEq, Eq)]
pub struct Piece {
    pub length: usize,
    pub listing: Listing,
}
