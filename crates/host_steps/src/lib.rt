// One step of the packet reader, its state in 15 bytes, and what it says in numbers.
#![tactic(auto)]

ghost use Rattle.std.specs.Prelude.{◌≡◌, ◌≤◌, ◌<◌};
ghost use Rattle.std.specs.Result.{IfOk, IfErr};
ghost use Rattle.refusal.specs.declared.Refusal.TheVariants.{OutOfRange};
ghost use Rattle.character_rules.specs.Answers.{reading_says};
ghost use Rattle.packet_rules.specs.Answers.{answer_says};
ghost use Rattle.host_rules.specs.Characters.{symbol_of};
ghost use Rattle.host_rules.specs.Stepping.{numbers_read, step_numbers, step_leaves};
ghost use Rattle.host_steps.specs.Told.{answer_numbers};

use character_rules::Decoded;
use host_rules::EventNumbers;
use packet_rules::Event;
use refusal::Refusal;
use symbol::Symbol;

// A symbol in numbers; refusal 1: a byte over 255.
fn symbol_of(byte: u32, control: u32) -> Result<Symbol, Refusal>
    ensures ok { IfOk result (λ s. (byte ≤ 255) × (s ≡ symbol_of byte control)) }
    ensures err { IfErr result (λ r. (255 < byte) × (r ≡ OutOfRange)) }
{
    let byte = u8::try_from(byte).map_err(|_| Refusal::OutOfRange)?;
    Ok(Symbol {
        byte,
        control: control != 0,
    })
}

// A character result in the numbers that C passes: 0 clean, 1 invalid, 2 wrong disparity.
fn result_of(violation: u32, byte: u32, control: u32) -> Result<Decoded, Refusal>
    ensures { reading_says result ≡ numbers_read violation byte control }
{
    match violation {
        0 => Ok(Decoded::Clean(symbol_of(byte, control)?, -1)),
        1 => Ok(Decoded::Invalid(-1)),
        2 => Ok(Decoded::WrongDisparity(symbol_of(byte, control)?, -1)),
        _ => Err(Refusal::OutOfRange),
    }
}

// One step over a state in bytes, which a refusal leaves as they stood.
pub fn step(bytes: &mut [u8; 15], violation: u32, byte: u32, control: u32) -> Result<Event, Refusal>
    ensures { (answer_says result ≡ (step_numbers bytes.old violation byte control).said)
        × (bytes.new ≡ step_leaves bytes.old violation byte control) }
{
    let mut reader = host_reader_bytes::reader_from(*bytes)?;
    let decoded = result_of(violation, byte, control)?;
    let event = packet_reader::step::<Refusal>(&mut reader, Ok(decoded))?;
    *bytes = host_reader_bytes::reader_bytes(reader);
    Ok(event)
}

fn event_numbers(event: u32, value: u8, number: u8) -> EventNumbers
    ensures { result ≡ record { event = event; value = value; number = number } }
{
    EventNumbers {
        event,
        value: u32::from(value),
        number: u32::from(number),
    }
}

// What a step says, in the numbers that C gets; a refusal, whatever it is, is handed on. It is no From, which a Result cannot have from another crate.
#[tactic(auto, unfolding(host_rules::specs::Stepping::told_of))]
pub fn told<E>(said: Result<Event, E>) -> Result<EventNumbers, E>
    ensures { result ≡ answer_numbers said }
{
    Ok(match said? {
        Event::Nothing => event_numbers(0, 0, 0),
        Event::Violation(n) => event_numbers(1, n, 0),
        Event::StartData(channel) => event_numbers(2, channel, 0),
        Event::StartPriority { channel, segment } => event_numbers(3, channel, segment),
        Event::Byte(b) => event_numbers(4, b, 0),
        Event::End { bad } => event_numbers(5, u8::from(bad), 0),
        Event::Lmp { nack, segment } => event_numbers(6, u8::from(nack), segment),
    })
}
