// What is printed: words and decimal numbers, parted by one space.
use crate::World;
use refusal::Refusal;
use retry_rules::{Arrival, Receiver, Reply, Segment, Sender};
use std::io;

// The number of a refusal, and 0 for none.
pub fn refusal_number<T: Copy>(answer: Result<T, Refusal>) -> u8 {
    match answer {
        Ok(_) => 0,
        Err(refusal) => refusal.number(),
    }
}

// A send: its refusal, whether a segment goes out, and what is said of it.
pub fn print_sent(rt: &impl Print, sent: Result<Option<Segment>, Refusal>) -> io::Result<()> {
    match sent {
        Ok(Some(x)) => {
            let bad = u8::from(x.bad);
            print!(rt; "send 0 1 {} {} {bad} {}", x.number, x.channel, x.length)
        }
        Ok(None) => print!(rt; "send 0 0 0 0 0 0"),
        Err(refusal) => print!(rt; "send {} 0 0 0 0 0", refusal.number()),
    }
}

// An arrival: its refusal, whether it is delivered, the reply, NACK or not and its number, and what is said of what is delivered.
pub fn print_arrived(rt: &impl Print, arrived: Result<Arrival, Refusal>) -> io::Result<()> {
    let answer = match arrived {
        Ok(answer) => answer,
        Err(refusal) => return print!(rt; " {} 0 0 0 0 0 0", refusal.number()),
    };
    let (nack, number) = match answer.reply {
        Reply::Ack(number) => (0, number),
        Reply::Nack(number) => (1, number),
    };
    match answer.delivered {
        Some(d) => {
            let bad = u8::from(d.bad);
            print!(rt; " 0 1 {nack} {number} {} {bad} {}", d.channel, d.length)
        }
        None => print!(rt; " 0 0 {nack} {number} 0 0 0"),
    }
}

pub fn print_sender(rt: &impl Print, sender: Sender) -> io::Result<()> {
    let c = sender.counters;
    print!(rt;
        " | {} {} {} {} {}",
        c.oldest, c.stored, c.outstanding, c.point, c.released
    )?;
    print!(rt;
        " {} {} {} {} {}",
        c.timer, c.expiries, c.columns, c.size, c.link
    )
}

pub fn print_receiver(rt: &impl Print, r: Receiver) -> io::Result<()> {
    print!(rt; " | {} {} {}", r.expected, r.received, r.size)
}

// A sum over bytes that tells their places.
fn sum(bytes: &[u8]) -> u32 {
    bytes.iter().fold(0, |total: u32, b| {
        ((u64::from(total) * 31 + u64::from(*b)) % 65521) as u32
    })
}

// What the memory and the output hold.
pub fn print_memory(rt: &impl Print, world: &World) -> io::Result<()> {
    print!(rt; " | {} {}", sum(&world.memory), sum(&world.output))
}
