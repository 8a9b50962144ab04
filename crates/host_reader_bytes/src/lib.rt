// The packet reader's state as its 15 bytes, and the state of such bytes.
#![tactic(auto)]

mod parts;

ghost use Rattle.std.specs.Prelude.{◌≡◌};
ghost use Rattle.packet_rules.specs.Answers.{fresh_says};
ghost use Rattle.host_rules.specs.ReaderBytes.{reader_bytes, is_reader, loaded};

use packet_rules::Reader;
use refusal::Refusal;

// A state as its bytes. It is no From: one could stand only in packet_rules, which knows no bytes.
#[tactic(auto, unfolding(host_rules::specs::ReaderBytes::reader_bytes))]
pub fn reader_bytes(r: Reader) -> [u8; 15]
    ensures { result ≡ reader_bytes r }
{
    let [s0, s1] = r.size.to_be_bytes();
    let [d0, d1, d2, d3] = parts::packet_part(r.packet);
    let [p0, p1, p2, p3, p4, p5] = parts::priority_part(r.priority);
    let [w0, w1, w2] = parts::phase_part(r.phase);
    [s0, s1, d0, d1, d2, d3, p0, p1, p2, p3, p4, p5, w0, w1, w2]
}

// Whether bytes are the encoding of the state that they stand for.
pub fn is_reader(b: [u8; 15]) -> bool
    ensures { result ≡ is_reader b }
{
    reader_bytes(host_reader::reader_in(b)) == b
}

// The state whose encoding bytes are; refusal 1: they are that of none.
#[tactic(auto, unfolding(host_rules::specs::ReaderBytes::loaded))]
pub fn reader_from(b: [u8; 15]) -> Result<Reader, Refusal>
    ensures { fresh_says result ≡ loaded b }
{
    if is_reader(b) {
        Ok(host_reader::reader_in(b))
    } else {
        Err(Refusal::OutOfRange)
    }
}
