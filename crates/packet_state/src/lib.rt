// The state's written rule.
#![tactic(auto)]

ghost use Rattle.std.specs.Prelude.{◌≡◌, eqb};
ghost use Rattle.crc.specs.Crc16.{crc_start};
ghost use Rattle.packet_rules.specs.State.{data_rule, priority_rule, due_rule, phase_rule, well_formed};

use packet_rules::{DataPacket, Due, Phase, PriorityPacket, Reader};

fn is_start(register: u16) -> bool
    ensures { result ≡ eqb register crc_start }
{
    register == crc::start()
}

fn data_rule(d: Option<DataPacket>) -> bool
    ensures { result ≡ data_rule d }
{
    match d {
        None => true,
        Some(outer) => outer.begun || is_start(outer.register),
    }
}

fn priority_rule(size: u16, p: Option<PriorityPacket>) -> bool
    ensures { result ≡ priority_rule size p }
{
    match p {
        None => true,
        Some(inner) => inner.count <= size && (0 < inner.count || is_start(inner.register)),
    }
}

fn due_rule(r: Reader, due: Due) -> bool
    ensures { result ≡ due_rule r.packet r.priority due }
{
    match due {
        Due::Channel => packet_open::is_outside(r),
        Due::Opening => packet_open::has_no_priority(r),
        Due::Closing(_) | Due::FirstCrc(_) | Due::SecondCrc(_, _) => packet_open::has_byte(r),
        Due::LmpType | Due::LmpNumber(_) | Due::LmpCheck(_, _) => true,
    }
}

fn phase_rule(r: Reader) -> bool
    ensures { result ≡ phase_rule r.packet r.priority r.phase }
{
    match r.phase {
        Phase::Free => true,
        Phase::Next(due) => due_rule(r, due),
        Phase::Idles(n) => 0 < n && n <= 3,
        Phase::Dropping => packet_open::is_outside(r),
    }
}

// The written rule, which every state handed out keeps.
#[tactic(auto, unfolding(packet_rules::specs::State::well_formed))]
pub fn is_well_formed(r: Reader) -> bool
    ensures { result ≡ well_formed r }
{
    segment_size::size_is_allowed(u32::from(r.size))
        && data_rule(r.packet)
        && priority_rule(r.size, r.priority)
        && phase_rule(r)
}
