// The bytes of each part of a state: its tag, and what goes with it.
ghost use Rattle.std.specs.Prelude.{◌≡◌, [], ◌∷◌, ◌/◌, ◌%◌};
ghost use Rattle.host_rules.specs.ReaderBytes.{packet_tag, packet_channel, packet_register, priority_tag, priority_opening, priority_count, priority_register};
ghost use Rattle.host_rules.specs.ReaderBytes.{due_tag, due_first, due_second, phase_tag, phase_first, phase_second};

use packet_rules::{DataPacket, Due, Phase, PriorityPacket};

pub fn packet_part(p: Option<DataPacket>) -> [u8; 4]
    ensures { result ≡ packet_tag p ∷ packet_channel p ∷ packet_register p / 256 ∷ packet_register p % 256 ∷ [] }
{
    match p {
        None => [0; 4],
        Some(packet) => {
            let [high, low] = packet.register.to_be_bytes();
            [1 + u8::from(packet.begun), packet.channel, high, low]
        }
    }
}

pub fn priority_part(p: Option<PriorityPacket>) -> [u8; 6]
    ensures { result ≡ priority_tag p ∷ priority_opening p ∷ priority_count p / 256 ∷ priority_count p % 256
        ∷ priority_register p / 256 ∷ priority_register p % 256 ∷ [] }
{
    match p {
        None => [0; 6],
        Some(packet) => {
            let [more, fewer] = packet.count.to_be_bytes();
            let [high, low] = packet.register.to_be_bytes();
            [1, packet.opening, more, fewer, high, low]
        }
    }
}

fn due_part(due: Due) -> [u8; 3]
    ensures { result ≡ due_tag due ∷ due_first due ∷ due_second due ∷ [] }
{
    match due {
        Due::Channel => [3, 0, 0],
        Due::Opening => [4, 0, 0],
        Due::Closing(bad) => [5, u8::from(bad), 0],
        Due::FirstCrc(bad) => [6, u8::from(bad), 0],
        Due::SecondCrc(bad, first) => [7, u8::from(bad), first],
        Due::LmpType => [8, 0, 0],
        Due::LmpNumber(t) => [9, t, 0],
        Due::LmpCheck(t, n) => [10, t, n],
    }
}

pub fn phase_part(p: Phase) -> [u8; 3]
    ensures { result ≡ phase_tag p ∷ phase_first p ∷ phase_second p ∷ [] }
{
    match p {
        Phase::Free => [0, 0, 0],
        Phase::Next(due) => due_part(due),
        Phase::Idles(n) => [2, n, 0],
        Phase::Dropping => [1, 0, 0],
    }
}
