// The sender's state as bytes, to be stored in lent ones.
#![tactic(auto)]

ghost use Rattle.std.specs.Prelude.{◌≡◌, ◌<◌, ◌≤◌, ◌/◌, ◌%◌, [], ◌∷◌};
ghost use Rattle.host_rules.specs.Numbers.{mark_number};
ghost use Rattle.retry_rules.specs.States.{slot_in};
ghost use Rattle.host_retry_rules.specs.SenderBytes.{marks_in, mask_of, sender_bytes};

use retry_rules::Sender;

// The bad mark of what a buffer holds, as a bit.
fn mark(s: Sender, i: usize) -> u8
    requires { i < 8 }
    ensures { (result ≡ mark_number (slot_in s i).bad) × (result ≤ 1) }
{
    u8::from(s.slots[i].bad)
}

// Eight marks in one byte, the first in its lowest bit. They are written out, as a loop would need a bound on each sum that these have of their own.
fn mask_of(s: Sender) -> u8
    ensures { result ≡ mask_of (marks_in s) }
{
    let m0 = mark(s, 0);
    let m1 = mark(s, 1);
    let m2 = mark(s, 2);
    let m3 = mark(s, 3);
    let m4 = mark(s, 4);
    let m5 = mark(s, 5);
    let m6 = mark(s, 6);
    let m7 = mark(s, 7);
    m0 + 2 * (m1 + 2 * (m2 + 2 * (m3 + 2 * (m4 + 2 * (m5 + 2 * (m6 + 2 * m7))))))
}

// The high byte, and the low one.
fn two_bytes(n: u16) -> [u8; 2]
    ensures { result ≡ n / 256 ∷ n % 256 ∷ [] }
{
    n.to_be_bytes()
}

// A sender as its bytes.
pub fn sender_bytes(s: Sender) -> [u8; 38]
    ensures { result ≡ sender_bytes s }
{
    let c = s.counters;
    let [timer_high, timer_low] = two_bytes(c.timer);
    let [columns_high, columns_low] = two_bytes(c.columns);
    let [size_high, size_low] = two_bytes(c.size);
    let [s0, s1, s2, s3, s4, s5, s6, s7] = s.slots;
    let [high0, low0] = two_bytes(s0.length);
    let [high1, low1] = two_bytes(s1.length);
    let [high2, low2] = two_bytes(s2.length);
    let [high3, low3] = two_bytes(s3.length);
    let [high4, low4] = two_bytes(s4.length);
    let [high5, low5] = two_bytes(s5.length);
    let [high6, low6] = two_bytes(s6.length);
    let [high7, low7] = two_bytes(s7.length);
    [
        c.oldest,
        c.stored,
        c.outstanding,
        c.point,
        c.released,
        timer_high,
        timer_low,
        c.expiries,
        columns_high,
        columns_low,
        size_high,
        size_low,
        c.link,
        high0,
        low0,
        high1,
        low1,
        high2,
        low2,
        high3,
        low3,
        high4,
        low4,
        high5,
        low5,
        high6,
        low6,
        high7,
        low7,
        s0.channel,
        s1.channel,
        s2.channel,
        s3.channel,
        s4.channel,
        s5.channel,
        s6.channel,
        s7.channel,
        mask_of(s),
    ]
}
