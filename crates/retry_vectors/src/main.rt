// Runs a script of calls of both ends of the retry and prints what each answers, the state it hands back, and a sum over the lent memory. The script comes on
// standard input; tests/retry makes it, and what this program must print, from an implementation of its own.
#![tactic(auto)]

ghost use Rattle.std.specs.Prelude.{◌≤◌, IfOk, length};

use retry_rules::{Arrival, Receiver, Sender};
use std::io;
use std::io::Read;

mod print;
mod script;
mod settings;

use crate::print::{
    print_arrived, print_memory, print_receiver, print_sender, print_sent, refusal_number,
};
use crate::script::{Call, ReceiverCall, SenderCall, What, clamped};
use crate::settings::{NO_RECEIVER, NO_SENDER, set_receiver, set_sender};

// A call is 16 bytes: what is called, a flag byte, a seed, a spare byte, and three numbers of four bytes.
const CALL: usize = 16;

// The bytes of a script that are read.
const MOST_READ: usize = 65536;

// Reads until the buffer is full or the input ends, and answers how many bytes came. Each program that reads has this for itself: what stands on the
// input no equation says, and a contract of a library's public function is equations alone.
fn read_full(rt: &impl Input, buf: &mut [u8]) -> io::Result<usize>
    ensures { IfOk result (λ n. n ≤ length buf.old) }
{
    let mut reader = rt.reader();
    let mut n = 0;
    for _ in 0..MOST_READ {
        if n == buf.len() {
            return Ok(n);
        }
        let got = reader.read(&mut buf[n..])?;
        if got == 0 {
            return Ok(n);
        }
        n += got;
    }
    Ok(n)
}

// Both ends, the memory that is lent for the sender's buffers, and that which is lent for outputs.
#[derive(Drop)]
pub struct World {
    sender: Sender,
    receiver: Receiver,
    memory: [u8; 1024],
    output: [u8; 128],
}

fn sender_call(rt: &impl Print, of: SenderCall, call: Call, world: &mut World) -> io::Result<()> {
    let (first, _) = call.flags();
    match of {
        SenderCall::Fresh => {
            let made = retry_beginning::fresh_sender(call.field(0), call.field(1));
            world.sender = made.unwrap_or(NO_SENDER);
            print!(rt; "fresh-sender {}", refusal_number(made))
        }
        SenderCall::Offer => {
            let lent = clamped(call.field(2), world.memory.len());
            let bytes = call.segment(call.field(1));
            let memory = &mut world.memory[..];
            let answer = retry_offer::offer(
                &mut world.sender,
                &mut memory[..lent],
                call.field(0),
                first,
                bytes,
            );
            print!(rt; "offer {} {}", refusal_number(answer), answer.unwrap_or(0))
        }
        SenderCall::Send => {
            let room = clamped(call.field(1), world.output.len());
            let lent = clamped(call.field(2), world.memory.len());
            let output = &mut world.output[..];
            let answer = retry_send::send(
                &mut world.sender,
                &world.memory[..lent],
                &mut output[..room],
            );
            print_sent(rt, answer)
        }
        SenderCall::Reply => {
            let answer = retry_replies::reply(&mut world.sender, first, call.field(0));
            print!(rt; "reply {}", refusal_number(answer))
        }
        SenderCall::DamagedReply => {
            let answer = retry_replies::damaged_reply(&world.sender);
            print!(rt; "damaged-reply {}", refusal_number(answer))
        }
        SenderCall::Tick => {
            let answer = retry_timer::tick(&mut world.sender);
            print!(rt;
                "tick {} {}",
                refusal_number(answer),
                u8::from(answer.unwrap_or(false))
            )
        }
        SenderCall::Reset => {
            let answer = retry_beginning::reset(&mut world.sender, call.field(0), call.field(1));
            print!(rt; "reset {}", refusal_number(answer))
        }
        SenderCall::Set => {
            set_sender(call, &mut world.sender);
            print!(rt; "set-sender")
        }
    }
}

fn receiver_call(
    rt: &impl Print,
    of: ReceiverCall,
    call: Call,
    world: &mut World,
) -> io::Result<()> {
    match of {
        ReceiverCall::Fresh => {
            let made = retry_receiver::fresh_receiver(call.field(1));
            world.receiver = made.unwrap_or(NO_RECEIVER);
            print!(rt; "fresh-receiver {}", refusal_number(made))
        }
        ReceiverCall::Arrival => {
            let (bad, room) = call.flags();
            let both = call.field(2);
            let bytes = call.segment(both % 65536);
            let lent = clamped(both / 65536, world.output.len());
            let output = &mut world.output[..];
            let answer = retry_arrival::arrival(
                &mut world.receiver,
                call.field(0),
                call.field(1),
                bad,
                bytes,
                room,
                &mut output[..lent],
            );
            print!(rt; "arrival")?;
            print_arrived(rt, answer)
        }
        ReceiverCall::DamagedArrival => {
            let answer = retry_receiver::damaged_arrival(&world.receiver);
            print!(rt; "damaged-arrival")?;
            print_arrived(
                rt,
                answer.map(|reply| Arrival {
                    reply,
                    delivered: None,
                }),
            )
        }
        ReceiverCall::Set => {
            set_receiver(call, &mut world.receiver);
            print!(rt; "set-receiver")
        }
    }
}

// One call, with the state of its end after it, and with what the lent memory then holds.
fn step(rt: &impl Print, call: Call, world: &mut World) -> io::Result<()> {
    match call.what() {
        What::Sender(of) => {
            sender_call(rt, of, call, world)?;
            print_sender(rt, world.sender)?;
        }
        What::Receiver(of) => {
            receiver_call(rt, of, call, world)?;
            print_receiver(rt, world.receiver)?;
        }
    }
    print_memory(rt, world)?;
    println!(rt)
}

fn main(rt: HostRuntime) -> io::Result<()> {
    let mut input = [0u8; MOST_READ];
    let n = read_full(&rt, &mut input)?;
    let script = &input[..n];
    let mut world = World {
        sender: retry_beginning::fresh_sender(1, 8).unwrap_or(NO_SENDER),
        receiver: retry_receiver::fresh_receiver(8).unwrap_or(NO_RECEIVER),
        memory: [170; 1024],
        output: [85; 128],
    };
    for bytes in script.chunks_exact(CALL) {
        step(&rt, Call { bytes, script }, &mut world)?;
    }
    Ok(())
}
