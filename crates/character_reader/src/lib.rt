// The reader of characters: one look-up in a constant table.
#![tactic(auto)]

ghost use Rattle.std.specs.Prelude.{◌≡◌, ℕ, ◌%◌, List};
ghost use Rattle.character_rules.specs.Disparity.{disparity_of};
ghost use Rattle.character_rules.specs.Answers.{decoded_says, reading_says};
ghost use Rattle.character_rules.specs.Reading.{reading};
ghost use Rattle.character_rules.specs.Results.{packed, unpacked};
ghost use Rattle.character_table.specs.Entries.{result_in};
ghost use Rattle.character_table.specs.Table.{table};

use character_rules::Decoded;
use character_table::TABLE;
use disparity::{disparity_of, is_disparity, is_plus};
use refusal::Refusal;
use std::marker::Model;
use symbol::Symbol;

// A packed result taken apart.
pub fn unpack_result(res: u16) -> Decoded
    ensures { decoded_says result ≡ unpacked res }
{
    let symbol = Symbol {
        byte: (res % 256) as u8,
        control: res / 256 % 2 == 1,
    };
    let disparity = disparity_of(res / 2048 % 2 == 1);
    match res / 512 % 4 {
        0 => Decoded::Clean(symbol, disparity),
        1 => Decoded::Invalid(disparity),
        _ => Decoded::WrongDisparity(symbol, disparity),
    }
}

// The result that an entry holds for a disparity.
pub fn result_in(entry: u16, plus: bool) -> u16
    ensures { result ≡ result_in entry plus }
{
    if plus {
        entry % 512 + entry / 4096 % 8 * 512
    } else {
        entry % 4096
    }
}

// The reader's table, which is taken once for all that is looked up in it.
// The CRC's table is a struct of the same shape: one for both would take the definition of each table as a parameter of its own, and be no plainer.
#[derive(Drop)]
pub struct Table {
    entries: [u16; 1024],
}

impl Model for Table {
    ghost Value = { List ℕ };

    ghost view = { λ t. t.entries };

    ghost invariant = { λ t. t.entries ≡ table };
}

impl Table {
    pub fn new() -> Table
        ensures { result ≡ table }
    {
        Table { entries: TABLE }
    }

    // The packed result of a character, which is the number's lowest ten bits, at a disparity.
    pub fn look_up(&self, character: u16, plus: bool) -> u16
        ensures { result ≡ packed (reading (character % 1024) (disparity_of plus)) }
    {
        result_in(self.entries[(character % 1024) as usize], plus)
    }
}

// A character read at a disparity, with the new disparity; or refusal 1.
pub fn read(character: u32, disparity: i32) -> Result<Decoded, Refusal>
    ensures { reading_says result ≡ reading character disparity }
{
    if 1023 < character {
        return Err(Refusal::OutOfRange);
    }
    if !is_disparity(disparity) {
        return Err(Refusal::OutOfRange);
    }
    let packed = Table::new().look_up(character as u16, is_plus(disparity));
    Ok(unpack_result(packed))
}
