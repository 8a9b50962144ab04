// What the packet reader is given, holds and answers. The rules are in specs/, the theorems about them in proofs/.
#![tactic(auto)]

ghost use Rattle.std.specs.Prelude.{◌≡◌};
ghost use Rattle.packet_rules.specs.Answers.{violation_number};

// What is wrong with a character result where it stands, in document 01's order.
#[derive(Clone, Copy, Debug, PartialEq, Eq)]
pub enum Violation {
    Invalid,
    WrongDisparity,
    // K28.7.
    Unsupported,
    // A symbol that may not stand where it stands.
    OutOfPlace,
    // The byte after an end symbol is not the packet's opening byte.
    Channel,
    Crc,
    LmpCheck,
    // An end symbol in a packet of no bytes.
    NoByte,
    // A byte other than 0 outside packets.
    Outside,
    // A priority packet of more than S bytes.
    TooLong,
}

impl Violation {
    // Its number in document 01.
    pub fn number(self) -> u8
        ensures { result ≡ violation_number self }
    {
        match self {
            Violation::Invalid => 1,
            Violation::WrongDisparity => 2,
            Violation::Unsupported => 3,
            Violation::OutOfPlace => 4,
            Violation::Channel => 5,
            Violation::Crc => 6,
            Violation::LmpCheck => 7,
            Violation::NoByte => 8,
            Violation::Outside => 9,
            Violation::TooLong => 10,
        }
    }
}

// What the reader gives for one character result.
#[derive(Clone, Copy, Debug, PartialEq, Eq)]
pub enum Event {
    Nothing,
    // A data packet: the channel.
    StartData(u8),
    StartPriority { channel: u8, segment: u8 },
    Byte(u8),
    // Bad is the mark EBP.
    End { bad: bool },
    // A retry LMP: ACK or NACK, with its number.
    Lmp { nack: bool, segment: u8 },
    // By its number; the ten that a step gives are the numbers of `Violation`.
    Violation(u8),
}

// The symbols that open something: a data packet, a priority packet, an LMP.
#[derive(Clone, Copy, Debug, PartialEq, Eq)]
pub enum Opener {
    Sdp,
    Spp,
    Slp,
}

// What the reader tells apart among the symbols.
#[derive(Clone, Copy, Debug, PartialEq, Eq)]
pub enum Kind {
    Data(u8),
    Idl,
    Com,
    Opens(Opener),
    // EGP or EBP; EBP is bad.
    Closes(bool),
    // ALN, SUP, CDP, CPP: out of place everywhere.
    NoPlace,
    // K28.7.
    Unsupported,
}

// The data packet that is open: its channel, whether a byte has come, the CRC register over its bytes.
#[derive(Clone, Copy, Debug, PartialEq, Eq)]
pub struct DataPacket {
    pub channel: u8,
    pub begun: bool,
    pub register: u16,
}

// The priority packet that is open: the byte after SPP, how many bytes came, the CRC register over them.
#[derive(Clone, Copy, Debug, PartialEq, Eq)]
pub struct PriorityPacket {
    pub opening: u8,
    pub count: u16,
    pub register: u16,
}

// The byte that a begun sequence is due. The mark is carried to the end, the bytes so far to the check.
#[derive(Clone, Copy, Debug, PartialEq, Eq)]
pub enum Due {
    Channel,
    Opening,
    Closing(bool),
    FirstCrc(bool),
    SecondCrc(bool, u8),
    LmpType,
    LmpNumber(u8),
    LmpCheck(u8, u8),
}

#[derive(Clone, Copy, Debug, PartialEq, Eq)]
pub enum Phase {
    // No sequence is begun.
    Free,
    Next(Due),
    // After COM: so many IDL are due.
    Idles(u8),
    Dropping,
}

#[derive(Clone, Copy, Debug, PartialEq, Eq)]
pub struct Reader {
    // S, the segment size.
    pub size: u16,
    pub packet: Option<DataPacket>,
    pub priority: Option<PriorityPacket>,
    pub phase: Phase,
}

// What a step answers, and the state after it.
#[derive(Clone, Copy, Debug, PartialEq, Eq)]
pub struct Step {
    pub event: Event,
    pub reader: Reader,
}

// What writing a packet gives: how many characters were written, and the closing disparity.
#[derive(Clone, Copy, Debug, PartialEq, Eq)]
pub struct Written {
    pub count: usize,
    pub disparity: i32,
}
