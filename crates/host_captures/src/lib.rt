// What C calls of captures: whether one is legal, how many characters it holds, the character at a place, packing and unpacking.
#![tactic(auto)]

ghost use Rattle.std.specs.Prelude.{◌≡◌};
ghost use Rattle.refusal.specs.Order.{refusal_says};
ghost use Rattle.host_calls.specs.CaptureCalls.{counts, finds, packs, unpacks};
ghost use Rattle.host_captures.specs.Lent.{lent_after};

use refusal::Refusal;

// An answer into a lent number, and the refusal's number, 0 for none.
fn answer<T: Copy>(answered: Result<T, Refusal>, lent: &mut T) -> u32
    ensures { (result ≡ refusal_says answered) × (lent.new ≡ lent_after answered lent.old) }
{
    match answered {
        Ok(value) => {
            *lent = value;
            0
        }
        Err(refusal) => u32::from(refusal),
    }
}

// How many characters a capture holds.
#[tactic(auto, using(crate::proofs::Lent::count_lent))]
#[unsafe(no_mangle)]
pub extern "C" fn buzz_capture_count(capture: &[u8], count: &mut usize) -> u32
    ensures { let after = counts capture.now count.old in (result ≡ after.refusal) × (count.new ≡ after.lent) }
{
    answer(capture::character_count(capture), count)
}

// The character at a place.
#[tactic(auto, using(crate::proofs::Lent::find_lent))]
#[unsafe(no_mangle)]
pub extern "C" fn buzz_capture_character(capture: &[u8], place: usize, character: &mut u32) -> u32
    ensures { let after = finds capture.now place character.old in
        (result ≡ after.refusal) × (character.new ≡ after.lent) }
{
    answer(
        capture::character_at(capture, place).map(u32::from),
        character,
    )
}

// Characters packed into the front of a lent run of bytes, and their number of bytes.
#[tactic(auto, using(crate::proofs::Lent::pack_lent))]
#[unsafe(no_mangle)]
pub extern "C" fn buzz_pack(characters: &[u16], capture: &mut [u8], bytes: &mut usize) -> u32
    ensures { let after = packs characters.now (record { capture = capture.old; bytes = bytes.old }) in
        (result ≡ after.refusal) × (capture.new ≡ after.lent.capture) × (bytes.new ≡ after.lent.bytes) }
{
    answer(capture_packing::pack(characters, capture), bytes)
}

// A capture's characters in the front of a lent run, and their number.
#[tactic(auto, using(crate::proofs::Lent::unpack_lent))]
#[unsafe(no_mangle)]
pub extern "C" fn buzz_unpack(capture: &[u8], characters: &mut [u16], count: &mut usize) -> u32
    ensures { let after = unpacks capture.now (record { characters = characters.old; count = count.old }) in
        (result ≡ after.refusal) × (characters.new ≡ after.lent.characters) × (count.new ≡ after.lent.count) }
{
    answer(capture_unpacking::unpack(capture, characters), count)
}
