// A capture, and the tables that its characters and bytes go by: they are taken once for all of it.
ghost use Rattle.std.specs.Prelude.{◌≡◌, ◌≤◌, ◌<◌, length, get_or};
ghost use Rattle.crc.specs.Crc16.{crc_byte};
ghost use Rattle.character_rules.specs.Disparity.{disparity_of};
ghost use Rattle.character_rules.specs.Reading.{reading};
ghost use Rattle.character_rules.specs.Results.{packed};
ghost use Rattle.capture_rules.specs.Capture.{character_count, characters_of};
ghost use Rattle.events.specs.Sources.{characters_in, places_in};

use capture::Legal;

// The ten bits from bit 10 i on, which lie in two bytes. `capture::character_of` answers the same past the end too, by two tests more for each character.
fn character_in(bytes: &[u8], i: usize) -> u16
    requires { (length bytes.now ≤ 65535) × (i < character_count (length bytes.now)) }
    ensures { result ≡ get_or (characters_of bytes.now) i 0 }
{
    let k = 10 * i / 8;
    capture::ten_bits(bytes[k], bytes[k + 1], 6 - 10 * i % 8) as u16
}

#[derive(Drop)]
pub(crate) struct Source<'a> {
    pub(crate) capture: Legal<'a>,
    // Lent, since a table that is moved is copied.
    pub(crate) results: &'a character_reader::Table,
    pub(crate) registers: &'a crc::table::Table,
}

impl<'a> Source<'a> {
    // How many characters it has.
    #[tactic(auto, using(capture::proofs::Taken::legal_short))]
    pub(crate) fn count(&self) -> usize
        ensures exactly { result ≡ places_in self.now }
        ensures few { result ≤ 52428 }
    {
        self.capture.count()
    }

    // The packed result of a character, by one look-up.
    pub(crate) fn result_at(&self, i: usize, plus: bool) -> u16
        requires { i < places_in self.now }
        ensures { result ≡ packed (reading (get_or (characters_in self.now) i 0) (disparity_of plus)) }
    {
        self.results
            .look_up(character_in(self.capture.bytes, i), plus)
    }

    // The register after one more byte.
    pub(crate) fn step(&self, register: u16, byte: u8) -> u16
        ensures { result ≡ crc_byte register byte }
    {
        self.registers.step(register, byte)
    }
}
