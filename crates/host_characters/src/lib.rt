// What C calls to write and read characters.
#![tactic(auto)]

ghost use Rattle.std.specs.Prelude.{◌≡◌};
ghost use Rattle.std.proofs.Math.Option.{some};
ghost use Rattle.character_rules.specs.Answers.{writing_says, decoded_says};
ghost use Rattle.host_rules.specs.Numbers.{mark_number};
ghost use Rattle.host_rules.specs.Characters.{writing_numbers, byte_in, control_in};
ghost use Rattle.host_calls.specs.CharacterCalls.{writes, Reads, reads, reads_run};

use character_rules::{Decoded, Encoded};
use host_marks::mark_number;
use refusal::Refusal;
use symbol::Symbol;

// A symbol in numbers, written; refusal 1: a byte over 255.
fn write_numbers(byte: u32, control: u32, disparity: i32) -> Result<Encoded, Refusal>
    ensures { writing_says result ≡ writing_numbers byte control disparity }
{
    let Ok(byte) = u8::try_from(byte) else {
        return Err(Refusal::OutOfRange);
    };
    let control = control != 0;
    character_writer::write(Symbol { byte, control }, disparity)
}

// A symbol written as a character at a disparity, which is turned to the closing one.
#[unsafe(no_mangle)]
pub extern "C" fn buzz_write_character(
    byte: u32,
    control: u32,
    disparity: &mut i32,
    character: &mut u32,
) -> u32
    ensures { let after = writes byte control (record { disparity = disparity.old; character = character.old }) in
        (result ≡ after.refusal) × (disparity.new ≡ after.lent.disparity) × (character.new ≡ after.lent.character) }
{
    match write_numbers(byte, control, *disparity) {
        Ok(written) => {
            *disparity = written.disparity;
            *character = u32::from(written.character);
            0
        }
        Err(refusal) => u32::from(refusal),
    }
}

// The new disparity, the violation's number, and the symbol's byte and mark: zero and no where there is none.
fn in_numbers(decoded: Decoded) -> (i32, u32, u8, bool)
    ensures { let says = decoded_says decoded in
        (some result.0 ≡ says.disparity) × (result.1 ≡ says.violation)
        × (result.2 ≡ byte_in says.symbol) × (mark_number result.3 ≡ control_in says.symbol) }
{
    match decoded {
        Decoded::Clean(s, d) => (d, 0, s.byte, s.control),
        Decoded::WrongDisparity(s, d) => (d, 2, s.byte, s.control),
        Decoded::Invalid(d) => (d, 1, 0, false),
    }
}

// A character read at a disparity, which is turned to the new one.
#[unsafe(no_mangle)]
pub extern "C" fn buzz_read_character(
    character: u32,
    disparity: &mut i32,
    violation: &mut u32,
    byte: &mut u32,
    control: &mut u32,
) -> u32
    ensures { (let old : Reads = record {
      disparity = disparity.old;
      violation = violation.old;
      byte = byte.old;
      control = control.old;
    } in
        let after = reads character old in
        (result ≡ after.refusal) × (disparity.new ≡ after.lent.disparity) × (violation.new ≡ after.lent.violation)
        × (byte.new ≡ after.lent.byte) × (control.new ≡ after.lent.control)) }
{
    match character_reader::read(character, *disparity) {
        Ok(decoded) => {
            let (after, found, value, mark) = in_numbers(decoded);
            *disparity = after;
            *violation = found;
            *byte = u32::from(value);
            *control = mark_number(mark);
            0
        }
        Err(refusal) => u32::from(refusal),
    }
}

// A run of characters read from a disparity into packed results; the disparity is turned to the one after the run.
#[unsafe(no_mangle)]
pub extern "C" fn buzz_read_characters(
    characters: &[u16],
    disparity: &mut i32,
    results: &mut [u16],
) -> u32
    ensures { let after = reads_run characters.now (record { disparity = disparity.old; results = results.old }) in
        (result ≡ after.refusal) × (disparity.new ≡ after.lent.disparity) × (results.new ≡ after.lent.results) }
{
    match run_reader::read_run(characters, *disparity, results) {
        Ok(closing) => {
            *disparity = closing;
            0
        }
        Err(refusal) => u32::from(refusal),
    }
}
