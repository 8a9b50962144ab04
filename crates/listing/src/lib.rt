// The listing of a capture, handed out in pieces.
#![tactic(auto)]

ghost use Rattle.std.specs.Prelude.{◌≡◌};
ghost use Rattle.listing_rules.specs.Pieces.{piece_says, piece_beside, next_says, next_leaves, Puts};
ghost use Rattle.listing_rules.specs.declared.Listing.TheVariants.{Fresh as IsFresh};

use listing_rules::{Listing, Piece, Reached};
use refusal::Refusal;

// The header, or the one line of a refused capture.
fn first_piece(capture: &[u8], out: &mut [u8; 2048]) -> Piece
    ensures { Puts capture.now IsFresh out.old result out.new }
{
    if !capture::is_legal(capture) {
        return Piece {
            length: listing_text::put_front(b"refused 8\n", out),
            listing: Listing::Ended,
        };
    }
    let length = listing_text::put_front(b"place event detail\n", out);
    let start = Reached {
        place: 0,
        events: 0,
        disparity: -1,
        reader: packet_reader::fresh(8).unwrap(),
    };
    Piece {
        length,
        listing: Listing::Going(start),
    }
}

// The next piece of a capture's listing, into the front of `out`: how many bytes it has, or none when all is listed. The listing goes on by it.
pub fn next(
    capture: &[u8],
    listing: &mut Listing,
    out: &mut [u8; 2048],
) -> Result<Option<usize>, Refusal>
    ensures { (piece_says result ≡ piece_beside (next_says capture.now listing.old))
        × (listing.new ≡ (next_says capture.now listing.old).listing)
        × (out.new ≡ next_leaves capture.now listing.old out.old) }
{
    let piece = match *listing {
        Listing::Fresh => first_piece(capture, out),
        Listing::Going(p) => listing_pieces::later_piece(capture, p, out)?,
        Listing::Ended => return Ok(None),
    };
    *listing = piece.listing;
    Ok(Some(piece.length))
}
