// The packet reader: one character result in, one event out, over a state that is lent.
#![tactic(auto)]

ghost use Rattle.std.specs.Prelude.{◌≡◌};
ghost use Rattle.packet_rules.specs.Answers.{answer_says, fresh_says};
ghost use Rattle.packet_rules.specs.State.{fresh_reader};
ghost use Rattle.packet_rules.specs.Step.{step_with};
ghost use Rattle.packet_reader.specs.Classes.{class_of, clean_of, spoiled_of, advance_of, event_of, reader_of, tried_of};

use character_rules::Decoded;
use packet_rules::{Event, Kind, Opener, Phase, Reader, Step, Violation};
use refusal::Refusal;
use symbol::Symbol;

// A symbol's kind, by its number; none, if it is no symbol.
#[tactic(auto, unfolding(crate::specs::Classes::class_of, packet_rules::specs::Symbols::kind_of, packet_rules::specs::Symbols::control_kind, symbol::specs::Symbols::is_twelve))]
fn classify(s: Symbol) -> Option<Kind>
    ensures { result ≡ class_of s }
{
    if !s.control {
        return Some(Kind::Data(s.byte));
    }
    match s.byte {
        Symbol::COM_BYTE => Some(Kind::Com),
        Symbol::IDL_BYTE => Some(Kind::Idl),
        Symbol::SPP_BYTE => Some(Kind::Opens(Opener::Spp)),
        Symbol::SDP_BYTE => Some(Kind::Opens(Opener::Sdp)),
        Symbol::SLP_BYTE => Some(Kind::Opens(Opener::Slp)),
        Symbol::EGP_BYTE => Some(Kind::Closes(false)),
        Symbol::EBP_BYTE => Some(Kind::Closes(true)),
        Symbol::K28_7_BYTE => Some(Kind::Unsupported),
        Symbol::ALN_BYTE => Some(Kind::NoPlace),
        Symbol::SUP_BYTE => Some(Kind::NoPlace),
        Symbol::CDP_BYTE => Some(Kind::NoPlace),
        Symbol::CPP_BYTE => Some(Kind::NoPlace),
        _ => None,
    }
}

// A clean symbol of kind k.
#[tactic(auto, unfolding(crate::specs::Classes::clean_of))]
fn clean(r: Reader, k: Kind) -> Step
    ensures { result ≡ clean_of r.phase k r }
{
    match r.phase {
        Phase::Free => packet_turns::free(r, k),
        Phase::Next(due) => packet_sequences::in_sequence(r, due, k),
        Phase::Idles(n) => packet_idles::in_idles(r, n, k),
        Phase::Dropping => packet_idles::dropping(r, k),
    }
}

// A result that is not clean: the violation, but while dropping nothing.
fn spoiled(v: Violation, r: Reader) -> Step
    ensures { result ≡ spoiled_of v r.phase r }
{
    match r.phase {
        Phase::Dropping => packet_answers::moved(Event::Nothing, Phase::Dropping, r),
        _ => packet_answers::violated(v.number(), r),
    }
}

// The transition, by value.
#[tactic(auto, unfolding(crate::specs::Classes::advance_of))]
fn advanced(r: Reader, decoded: Decoded) -> Result<Step, Refusal>
    ensures { result ≡ advance_of r decoded }
{
    match decoded {
        Decoded::Clean(s, _) => {
            let k = classify(s).ok_or(Refusal::OutOfRange)?;
            Ok(clean(r, k))
        }
        Decoded::WrongDisparity(s, _) => {
            classify(s).ok_or(Refusal::OutOfRange)?;
            Ok(spoiled(Violation::WrongDisparity, r))
        }
        Decoded::Invalid(_) => Ok(spoiled(Violation::Invalid, r)),
    }
}

// The step in a state that keeps the rule; a run of characters tests the rule once and goes on by this. What refused a character is not looked at.
pub fn advance<E: Drop>(reader: &mut Reader, res: Result<Decoded, E>) -> Result<Event, Refusal>
    ensures { (result ≡ event_of (tried_of reader.old res)) × (reader.new ≡ reader_of reader.old (tried_of reader.old res)) }
{
    let Ok(decoded) = res else {
        return Err(Refusal::OutOfRange);
    };
    let step = advanced(*reader, decoded)?;
    *reader = step.reader;
    Ok(step.event)
}

// One character result in, one event out.
pub fn step<E: Drop>(reader: &mut Reader, res: Result<Decoded, E>) -> Result<Event, Refusal>
    ensures { (answer_says result ≡ (step_with reader.old res).said)
        × (reader.new ≡ (step_with reader.old res).reader) }
{
    if !packet_state::is_well_formed(*reader) {
        return Err(Refusal::OutOfRange);
    }
    advance(reader, res)
}

// A reader before any character, for segments of S bytes.
#[tactic(auto, using(segment_size::proofs::Ranges::size_range), unfolding(packet_rules::specs::State::fresh_reader))]
pub fn fresh(s: u32) -> Result<Reader, Refusal>
    ensures { fresh_says result ≡ fresh_reader s }
{
    if !segment_size::size_is_allowed(s) {
        return Err(Refusal::SegmentSize);
    }
    Ok(Reader {
        size: s as u16,
        packet: None,
        priority: None,
        phase: Phase::Free,
    })
}
