// Runs a script of character results through the packet reader and prints each event. The script is standard input, two bytes a call: what is done, and a byte.
// 0 to 5: a data or control symbol, clean, then with wrong disparity, then an invalid character (any byte); 6: a fresh reader, with S = 8 times the byte.
#![tactic(auto)]

ghost use Rattle.std.specs.Prelude.{◌≤◌, IfOk, length};

use character_rules::Decoded;
use packet_rules::{Event, Reader};
use refusal::Refusal;
use std::io::Read;
use std::{fmt, io};
use symbol::Symbol;

// The bytes of a script that are read.
const MOST_READ: usize = 65536;

// Reads until the buffer is full or the input ends, and answers how many bytes came. Each program that reads has this for itself: what stands on the
// input no equation says, and a contract of a library's public function is equations alone.
fn read_full(rt: &impl Input, buf: &mut [u8]) -> io::Result<usize>
    ensures { IfOk result (λ n. n ≤ length buf.old) }
{
    let mut reader = rt.reader();
    let mut n = 0;
    for _ in 0..MOST_READ {
        if n == buf.len() {
            return Ok(n);
        }
        let got = reader.read(&mut buf[n..])?;
        if got == 0 {
            return Ok(n);
        }
        n += got;
    }
    Ok(n)
}

// What a step answers, as a line says it.
#[derive(Clone, Copy)]
struct Line(Result<Event, Refusal>);

impl fmt::Display for Line {
    fn fmt<W: fmt::Write>(&self, f: &mut fmt::Formatter<W>) -> fmt::Result {
        match self.0 {
            Ok(Event::Nothing) => f.write_str("nothing"),
            Ok(Event::StartData(channel)) => write!(f, "start data {channel}"),
            Ok(Event::StartPriority { channel, segment }) => {
                write!(f, "start priority {channel} {segment}")
            }
            Ok(Event::Byte(b)) => write!(f, "byte {b}"),
            Ok(Event::End { bad }) => write!(f, "end {}", u8::from(bad)),
            Ok(Event::Lmp { nack, segment }) => write!(f, "lmp {} {segment}", u8::from(nack)),
            Ok(Event::Violation(n)) => write!(f, "violation {n}"),
            Err(refusal) => write!(f, "{refusal}"),
        }
    }
}

// What a call of the script asks for.
#[derive(Clone, Copy)]
enum Call {
    Step(Result<Decoded, Refusal>),
    // With S.
    Fresh(u32),
}

impl Call {
    // By its two bytes.
    fn of(kind: u8, byte: u8) -> Call {
        match kind {
            0 => Call::Step(Ok(Decoded::Clean(Symbol::data(byte), 1))),
            1 => Call::Step(Ok(Decoded::Clean(Symbol::control(byte), 1))),
            2 => Call::Step(Ok(Decoded::WrongDisparity(Symbol::data(byte), 1))),
            3 => Call::Step(Ok(Decoded::WrongDisparity(Symbol::control(byte), 1))),
            4 => Call::Step(Ok(Decoded::Invalid(1))),
            6 => Call::Fresh(u32::from(byte) * 8),
            _ => Call::Step(Err(Refusal::OutOfRange)),
        }
    }
}

// A fresh reader takes the place of the one that there was.
fn one_call(rt: &impl Print, call: Call, reader: &mut Reader) -> io::Result<()> {
    match call {
        Call::Step(res) => {
            let line = Line(packet_reader::step(reader, res));
            println!(rt; "{line}")
        }
        Call::Fresh(size) => match packet_reader::fresh(size) {
            Ok(fresh) => {
                *reader = fresh;
                println!(rt; "fresh")
            }
            Err(refusal) => println!(rt; "not fresh {}", refusal.number()),
        },
    }
}

fn run(rt: &impl Print, script: &[u8], reader: &mut Reader) -> io::Result<()> {
    for pair in script.chunks_exact(2) {
        one_call(rt, Call::of(pair[0], pair[1]), reader)?;
    }
    Ok(())
}

fn main(rt: HostRuntime) -> io::Result<()> {
    let mut script = [0u8; MOST_READ];
    let n = read_full(&rt, &mut script)?;
    match packet_reader::fresh(8) {
        Ok(mut reader) => run(&rt, &script[..n], &mut reader),
        Err(_) => println!(&rt; "no reader"),
    }
}
