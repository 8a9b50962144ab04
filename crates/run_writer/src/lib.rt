// The writer of runs: data bytes as characters, by a table that is taken once for the run.
#![tactic(auto)]

ghost use Rattle.std.specs.Prelude.{◌≡◌, ◌++◌, ◌<◌, ◌≤◌, eqb, length, drop};
ghost use Rattle.symbol.specs.Symbols.{data_symbol};
ghost use Rattle.character_rules.specs.Disparity.{disparity_of};
ghost use Rattle.character_rules.specs.Answers.{run_written_says};
ghost use Rattle.character_rules.specs.Writing.{run_characters, run_end, run_writing, run_stored};
ghost use Rattle.writer_table.specs.Entries.{form};
ghost use Rattle.writer_table.specs.Table.{table};

use disparity::{disparity_of, is_disparity, is_plus};
use refusal::Refusal;
use writer_table::TABLE;

// The look-up: the byte's character, and 1,024 more where it closes at +1.
fn look_up(entries: &[u32; 256], byte: u8, p: u32) -> u32
    requires { (entries.now ≡ table) × (p < 2) }
    ensures { result ≡ form (data_symbol byte) (disparity_of (eqb p 1)) }
{
    (entries[byte as usize] >> (p * 16)) % 65536
}

// The run, with the table taken once: the characters into the output, and the number of the disparity after it.
fn write_each(bytes: &[u8], from: u32, out: &mut [u16]) -> u32
    requires { (from < 2) × (length bytes.now ≤ length out.old) }
    ensures { (disparity_of (eqb result 1) ≡ run_end bytes.now (disparity_of (eqb from 1)))
        × (out.new ≡ run_characters bytes.now (disparity_of (eqb from 1)) ++ drop (length bytes.now) out.old) }
{
    let entries = TABLE;
    let mut p = from;
    for (i, &byte) in bytes.iter().enumerate() {
        let found = look_up(&entries, byte, p);
        out[i] = (found % 1024) as u16;
        p = found / 1024;
    }
    p
}

// A run of data bytes written from a disparity into the front of the output, with the disparity after it; or refusal 1 or 6.
pub fn write_run(bytes: &[u8], disparity: i32, out: &mut [u16]) -> Result<i32, Refusal>
    ensures { (run_written_says result ≡ run_writing bytes.now disparity (length out.old))
        × (out.new ≡ run_stored bytes.now disparity out.old) }
{
    if !is_disparity(disparity) {
        return Err(Refusal::OutOfRange);
    }
    if out.len() < bytes.len() {
        return Err(Refusal::ShortOutput);
    }
    let p = write_each(bytes, u32::from(is_plus(disparity)), out);
    Ok(disparity_of(p == 1))
}
