// Segment numbers, 0 to 15 and round, and the two numbers that an end is made with.
ghost use Rattle.std.specs.Prelude.{◌≡◌};
ghost use Rattle.retry_rules.specs.Numbers.{time_allowed, after, between, among_last, one_more, count_rule};

// T columns, 1 to 65,535.
pub fn time_is_allowed(columns: u32) -> bool
    ensures { result ≡ time_allowed columns }
{
    (1..=65535).contains(&columns)
}

// The number i segments after n.
pub fn after(n: u8, i: u8) -> u8
    ensures { result ≡ after n i }
{
    (n % 16 + i % 16) % 16
}

// One more of the last eight.
pub fn one_more(count: u8) -> u8
    ensures { result ≡ one_more count }
{
    count.saturating_add(1).min(8)
}

// How many numbers lie between k and the number n that it stands before; 0 for a k that is no segment number so near.
fn between(k: u8, n: u8) -> u8
    ensures { result ≡ between k n }
{
    ((u16::from(n) + 15).saturating_sub(u16::from(k)) % 16) as u8
}

// k is one of the last `count` numbers before n: the count of those that really were judges, not the remainder alone.
#[tactic(auto, unfolding(retry_rules::specs::Numbers::among_last))]
pub fn among_last(count: u8, n: u8, k: u8) -> bool
    ensures { result ≡ among_last count n k }
{
    between(k, n) < count
}

// With fewer than eight counted, the number is the count: so it is from fresh.
#[tactic(auto, unfolding(retry_rules::specs::Numbers::count_rule))]
pub fn count_is_ruled(n: u8, count: u8) -> bool
    ensures { result ≡ count_rule n count }
{
    if count < 8 {
        n == count
    } else {
        count == 8 && n < 16
    }
}
