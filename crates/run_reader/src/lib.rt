// The bulk reader: a run of characters looked up in a table that is taken once.
#![tactic(auto)]

ghost use Rattle.std.specs.Prelude.{◌≡◌, ◌++◌, ◌<◌, ◌≤◌, T, eqb, length, drop};
ghost use Rattle.laws.specs.Lists.{all_of};
ghost use Rattle.character_rules.specs.Disparity.{is_plus, disparity_of};
ghost use Rattle.character_rules.specs.Answers.{run_says};
ghost use Rattle.character_rules.specs.Reading.{reading};
ghost use Rattle.character_rules.specs.Results.{packed, in_range, run_results, run_closing, run_reading, run_output};
ghost use Rattle.run_table.specs.Table.{table as halves};

use disparity::{disparity_of, is_disparity, is_plus};
use refusal::Refusal;

// Every character of a run is in range. It goes to the end in any case, so that the compiler tests eight at once.
fn all_in_range(characters: &[u16]) -> bool
    ensures { result ≡ all_of in_range characters.now }
{
    let mut so_far = true;
    for &character in characters {
        so_far &= character < 1024;
    }
    so_far
}

// The look-up of a run, in the table with whole results, so that it needs no branch.
// The run writer's look-up has the same line over a table of its own kind: one function for both would be no plainer, since each says what its table means.
fn half_of(entries: &[u32; 1024], character: usize, p: u32) -> u32
    requires { (entries.now ≡ halves) × (character < 1024) × (p < 2) }
    ensures { (result ≡ packed (reading character (disparity_of (eqb p 1)))) × (result < 4096) }
{
    (entries[character] >> (p * 16)) % 65536
}

// The run, with the table taken once: the results into the output, and whether the disparity after it is +1.
fn read_each(characters: &[u16], plus: bool, results: &mut [u16]) -> bool
    requires { T (all_of in_range characters.now) × (length characters.now ≤ length results.old) }
    ensures { (result ≡ is_plus (run_closing characters.now (disparity_of plus)))
        × (results.new ≡ run_results characters.now (disparity_of plus) ++ drop (length characters.now) results.old) }
{
    let entries = run_table::TABLE;
    let mut p = u32::from(plus);
    for (i, &character) in characters.iter().enumerate() {
        let result = half_of(&entries, character as usize, p);
        results[i] = result as u16;
        p = result / 2048;
    }
    p == 1
}

// A run of characters read from a disparity into packed results, with the disparity after it; or refusal 1 or 6.
pub fn read_run(characters: &[u16], disparity: i32, results: &mut [u16]) -> Result<i32, Refusal>
    ensures { (run_says result ≡ run_reading characters.now disparity (length results.old))
        × (results.new ≡ run_output characters.now disparity results.old) }
{
    if !is_disparity(disparity) {
        return Err(Refusal::OutOfRange);
    }
    if !all_in_range(characters) {
        return Err(Refusal::OutOfRange);
    }
    if results.len() < characters.len() {
        return Err(Refusal::ShortOutput);
    }
    let plus = read_each(characters, is_plus(disparity), results);
    Ok(disparity_of(plus))
}
