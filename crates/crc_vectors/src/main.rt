// Prints the check bytes of many messages, a line each: "123456789", each single byte, messages of 0 to 600 bytes, and four long ones.
#![tactic(auto)]

use std::io;

fn print_check(rt: &impl Print, bytes: &[u8]) -> io::Result<()> {
    let [a, b] = crc::check_of(bytes);
    println!(rt; "{a:02X}{b:02X}")
}

// Byte i of the message of n bytes.
fn byte_of(i: usize, n: usize) -> u8 {
    ((i % 251 * 7 + i / 7 % 1000 + n % 1000 * 31) % 256) as u8
}

fn print_message(rt: &impl Print, n: usize) -> io::Result<()> {
    let mut buffer = [0u8; 65536];
    for (i, byte) in buffer.iter_mut().enumerate().take(n) {
        *byte = byte_of(i, n);
    }
    print_check(rt, &buffer[..n.min(65536)])
}

fn main(rt: HostRuntime) -> io::Result<()> {
    print_check(&rt, b"123456789")?;
    for byte in 0..=255 {
        print_check(&rt, &[byte])?;
    }
    for n in 0..=600 {
        print_message(&rt, n)?;
    }
    for n in [1024, 4099, 20000, 65536] {
        print_message(&rt, n)?;
    }
    Ok(())
}
