// Which of the sender's eight buffers a segment is in, and where that one begins in the lent run of 8 times S bytes.
#![tactic(auto)]

ghost use Rattle.std.specs.Prelude.{◌≡◌, ◌*◌};
ghost use Rattle.retry_rules.specs.States.{slot_of};

use retry_rules::Counters;

// The buffer of the segment that stands i after the oldest: number k is in buffer k mod 8.
pub fn slot_of(c: Counters, i: u8) -> usize
    ensures { result ≡ slot_of c i }
{
    (c.oldest as usize + i as usize) % 8
}

// Where that buffer begins.
pub fn buffer_of(c: Counters, i: u8) -> usize
    ensures { result ≡ slot_of c i * c.size }
{
    slot_of(c, i) * (c.size as usize)
}
