// The CRC of a run of bytes.
ghost use Rattle.std.specs.Prelude.{◌≡◌};
ghost use Rattle.crc.specs.Crc16.{crc_of};

// The two check bytes of a run, as they stand in a packet. No call of it is refused.
#[unsafe(no_mangle)]
pub extern "C" fn buzz_crc16(bytes: &[u8], check: &mut [u8; 2]) -> u32
    ensures { (result ≡ 0) × (check.new ≡ crc_of bytes.now) }
{
    *check = crc::check_of(bytes);
    0
}
