// Reads a capture from standard input and writes its listing to standard output.
#![tactic(auto)]

ghost use Rattle.std.specs.Prelude.{◌≤◌, IfOk, length};

use listing_rules::Listing;
use std::io;
use std::io::Read;

// More than the pieces of any capture's listing: the header, 820 of lines, the last line.
const TURNS: usize = 1024;

// One byte more than a capture may have, so that a longer one is seen and refused.
const MOST_READ: usize = 65536;

// Reads until the buffer is full or the input ends, and answers how many bytes came. Each program that reads has this for itself: what stands on the
// input no equation says, and a contract of a library's public function is equations alone.
fn read_full(rt: &impl Input, buf: &mut [u8]) -> io::Result<usize>
    ensures { IfOk result (λ n. n ≤ length buf.old) }
{
    let mut reader = rt.reader();
    let mut n = 0;
    for _ in 0..MOST_READ {
        if n == buf.len() {
            return Ok(n);
        }
        let got = reader.read(&mut buf[n..])?;
        if got == 0 {
            return Ok(n);
        }
        n += got;
    }
    Ok(n)
}

// Writes the next piece, and answers whether there was one.
fn write_piece(rt: &impl Print, capture: &[u8], listing: &mut Listing) -> io::Result<bool> {
    let mut out = [0u8; 2048];
    match listing::next(capture, listing, &mut out) {
        Ok(Some(n)) if n <= out.len() => {
            rt.write_all(&out[..n])?;
            Ok(true)
        }
        _ => Ok(false),
    }
}

fn write_listing(rt: &impl Print, capture: &[u8]) -> io::Result<()> {
    let mut listing = Listing::Fresh;
    for _ in 0..TURNS {
        if !write_piece(rt, capture, &mut listing)? {
            break;
        }
    }
    Ok(())
}

fn main(rt: HostRuntime) -> io::Result<()> {
    let mut input = [0u8; MOST_READ];
    let n = read_full(&rt, &mut input)?;
    write_listing(&rt, &input[..n])
}
