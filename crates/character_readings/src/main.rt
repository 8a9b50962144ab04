// Reads each of 1,024 characters at both disparities, one at a time; then all of them as one run from -1; then what is out of range.
#![tactic(auto)]

use character_rules::Decoded;
use refusal::Refusal;
use std::io;

fn sign(disparity: i32) -> &'static str {
    match disparity {
        1 => "+1",
        -1 => "-1",
        _ => "none",
    }
}

fn print_result(rt: &impl Print, res: Result<Decoded, Refusal>) -> io::Result<()> {
    match res {
        Ok(Decoded::Clean(s, d)) => println!(rt; "clean {s} {}", sign(d)),
        Ok(Decoded::WrongDisparity(s, d)) => println!(rt; "wrong {s} {}", sign(d)),
        Ok(Decoded::Invalid(d)) => println!(rt; "invalid {}", sign(d)),
        Err(refusal) => println!(rt; "{refusal}"),
    }
}

fn print_reading(rt: &impl Print, c: u32, d: i32) -> io::Result<()> {
    print!(rt; "{c} ")?;
    print_result(rt, character_reader::read(c, d))
}

fn print_end(rt: &impl Print, end: Result<i32, Refusal>) -> io::Result<()> {
    match end {
        Ok(disparity) => println!(rt; "run {}", sign(disparity)),
        Err(refusal) => println!(rt; "run {refusal}"),
    }
}

// One run of all characters, in order.
fn print_long_run(rt: &impl Print) -> io::Result<()> {
    let mut characters = [0u16; 1024];
    for (i, character) in characters.iter_mut().enumerate() {
        *character = i as u16;
    }
    let mut results = [0; 1024];
    print_end(rt, run_reader::read_run(&characters, -1, &mut results))?;
    for res in results {
        print_result(rt, Ok(character_reader::unpack_result(res)))?;
    }
    Ok(())
}

// A run into an output of three numbers, which stood at 7 8 9; and what the output holds then.
fn print_short_run(rt: &impl Print, characters: &[u16], d: i32) -> io::Result<()> {
    let mut results = [7, 8, 9];
    print_end(rt, run_reader::read_run(characters, d, &mut results))?;
    let [a, b, c] = results;
    println!(rt; "{a} {b} {c}")
}

fn main(rt: HostRuntime) -> io::Result<()> {
    for d in [-1, 1] {
        for c in 0..1024 {
            print_reading(&rt, c, d)?;
        }
    }
    print_long_run(&rt)?;
    // too long for the output; from no disparity; with a character out of range; and two characters, which are read
    print_short_run(&rt, &[0, 1, 2, 3], -1)?;
    print_short_run(&rt, &[0, 1, 2], 0)?;
    print_short_run(&rt, &[0, 1, 1024], 1)?;
    print_short_run(&rt, &[0, 1], 1)?;
    for (c, d) in [
        (1024, -1),
        (4294967295, 1),
        (0, 0),
        (0, 2),
        (0, -2),
        (1023, -2147483648),
        (1024, 2147483647),
    ] {
        print_reading(&rt, c, d)?;
    }
    Ok(())
}
