// CRC-16 of a run of bytes. A register is a u16 whose lowest bit is X15.
#![tactic(auto)]

pub mod table;

ghost use Rattle.std.specs.Prelude.{◌≡◌};
ghost use Rattle.crc.specs.Crc16.{crc_start, crc_byte, crc_from, check_bytes_of, crc_of};

use crate::table::Table;

pub const START: u16 = 0xFFFF;

// The register before any byte.
pub fn start() -> u16
    ensures { result ≡ crc_start }
{
    START
}

// The register after one more byte. A single byte needs no table: the taps lie so far apart that the eight steps are five moves of what falls out.
pub fn step(register: u16, byte: u8) -> u16
    ensures { result ≡ crc_byte register byte }
{
    let low = (register ^ (byte as u16)) % 256;
    let out = low ^ (low * 16 % 256);
    (register / 256) ^ ((out * 256) ^ ((out * 8) ^ (out / 16)))
}

// The register after a run of bytes. The table is taken once.
pub fn run(register: u16, bytes: &[u8]) -> u16
    ensures { result ≡ crc_from register bytes.now }
{
    let table = Table::new();
    let mut r = register;
    for &byte in bytes {
        r = table.step(r, byte);
    }
    r
}

// The two check bytes of a register, in the order of the line.
pub fn check_bytes(register: u16) -> [u8; 2]
    ensures { result ≡ check_bytes_of register }
{
    [(255 - register % 256) as u8, (255 - register / 256) as u8]
}

// The two check bytes of a message.
pub fn check_of(bytes: &[u8]) -> [u8; 2]
    ensures { result ≡ crc_of bytes.now }
{
    let register = run(START, bytes);
    check_bytes(register)
}
