// Writes every code group: the name, the octet, and the character that the writer gives at -1 and at +1, in blocks; and what each reads back as.
// Then what writing each of 256 control bytes is refused with, and what disparities that are none are.
#![tactic(auto)]

use character_rules::{Decoded, Encoded};
use std::io;
use symbol::Symbol;

// The character that reads clean as a symbol at a disparity.
fn find(s: Symbol, disparity: i32) -> u16 {
    for c in 0..1023 {
        if let Ok(Decoded::Clean(r, _)) = character_reader::read(u32::from(c), disparity) {
            if r == s {
                return c;
            }
        }
    }
    1023
}

// The two blocks of a symbol's code group at a disparity. K28.7 is not written, and is found by reading.
// A symbol and a disparity go through three functions side by side: a struct of the two would be no plainer.
fn print_column(rt: &impl Print, s: Symbol, disparity: i32) -> io::Result<()> {
    let c = match character_writer::write(s, disparity) {
        Ok(written) => written.character,
        Err(_) => find(s, disparity),
    };
    print!(rt; "{:06b} {:04b} ", c / 16, c % 16)
}

// What was written at a disparity, read there again: the name, where it is clean with the closing disparity that the writer gave.
fn print_back(rt: &impl Print, s: Symbol, disparity: i32) -> io::Result<()> {
    match character_writer::write(s, disparity) {
        Ok(written) => print_read(rt, written, disparity),
        Err(refusal) => print!(rt; "{refusal}"),
    }
}

fn print_read(rt: &impl Print, written: Encoded, disparity: i32) -> io::Result<()> {
    match character_reader::read(u32::from(written.character), disparity) {
        Ok(Decoded::Clean(s, after)) if after == written.disparity => print!(rt; "{s}"),
        Ok(Decoded::Clean(_, _)) => print!(rt; "another disparity"),
        Ok(Decoded::WrongDisparity(_, _)) => print!(rt; "wrong disparity"),
        Ok(Decoded::Invalid(_)) => print!(rt; "invalid"),
        Err(refusal) => print!(rt; "{refusal}"),
    }
}

fn print_group(rt: &impl Print, s: Symbol) -> io::Result<()> {
    print!(rt; "{s} {} ", s.byte)?;
    print_column(rt, s, -1)?;
    print_column(rt, s, 1)?;
    print_back(rt, s, -1)?;
    print!(rt; " ")?;
    print_back(rt, s, 1)?;
    println!(rt)
}

fn print_asked(rt: &impl Print, s: Symbol, disparity: i32) -> io::Result<()> {
    match character_writer::write(s, disparity) {
        Ok(_) => print!(rt; "written"),
        Err(refusal) => print!(rt; "{refusal}"),
    }
}

// A number that is no disparity, for a symbol that is writable and for one that is not.
fn print_at(rt: &impl Print, disparity: i32) -> io::Result<()> {
    print!(rt; "disparity ")?;
    print_asked(rt, Symbol::COM, disparity)?;
    print!(rt; " ")?;
    print_asked(rt, Symbol::control(Symbol::K28_7_BYTE), disparity)?;
    println!(rt)
}

fn main(rt: HostRuntime) -> io::Result<()> {
    for y in 0..8 {
        print_group(&rt, Symbol::control(y * 32 + 28))?;
    }
    for s in [Symbol::SLP, Symbol::SUP, Symbol::EGP, Symbol::EBP] {
        print_group(&rt, s)?;
    }
    for byte in 0..=255 {
        print_group(&rt, Symbol::data(byte))?;
    }
    // every byte asked for as control, at -1
    for byte in 0..=255 {
        print!(rt; "control {byte} ")?;
        print_asked(&rt, Symbol::control(byte), -1)?;
        println!(rt)?;
    }
    for disparity in [0, 2, -2, -2147483648, 2147483647] {
        print_at(&rt, disparity)?;
    }
    Ok(())
}
