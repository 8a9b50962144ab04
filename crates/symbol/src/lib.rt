// A symbol: a byte and a control mark. Its named values, what kind it is, and how one is made.
#![tactic(auto)]

ghost use Rattle.std.specs.Prelude.{◌≡◌};
ghost use Rattle.symbol.specs.Symbols.{named, data_symbol, control_symbol, is_twelve, is_symbol, is_writable, opens_packet, opens_lmp};

use std::fmt;

#[derive(Clone, Copy, Debug, PartialEq, Eq)]
pub struct Symbol {
    pub byte: u8,
    pub control: bool,
}

// The bytes of the named values, for patterns.
impl Symbol {
    pub const COM_BYTE: u8 = 0xBC;

    pub const IDL_BYTE: u8 = 0x1C;

    pub const SPP_BYTE: u8 = 0x3C;

    pub const SDP_BYTE: u8 = 0x5C;

    pub const CPP_BYTE: u8 = 0x9C;

    pub const CDP_BYTE: u8 = 0xDC;

    pub const ALN_BYTE: u8 = 0x7C;

    pub const SLP_BYTE: u8 = 0xF7;

    pub const SUP_BYTE: u8 = 0xFB;

    pub const EGP_BYTE: u8 = 0xFD;

    pub const EBP_BYTE: u8 = 0xFE;

    // K28.7 has no name: valid, and unsupported.
    pub const K28_7_BYTE: u8 = 0xFC;
}

impl Symbol {
    pub const COM: Symbol = Symbol {
        byte: Symbol::COM_BYTE,
        control: true,
    };

    pub const IDL: Symbol = Symbol {
        byte: Symbol::IDL_BYTE,
        control: true,
    };

    pub const SPP: Symbol = Symbol {
        byte: Symbol::SPP_BYTE,
        control: true,
    };

    pub const SDP: Symbol = Symbol {
        byte: Symbol::SDP_BYTE,
        control: true,
    };

    pub const CPP: Symbol = Symbol {
        byte: Symbol::CPP_BYTE,
        control: true,
    };

    pub const CDP: Symbol = Symbol {
        byte: Symbol::CDP_BYTE,
        control: true,
    };

    pub const ALN: Symbol = Symbol {
        byte: Symbol::ALN_BYTE,
        control: true,
    };

    pub const SLP: Symbol = Symbol {
        byte: Symbol::SLP_BYTE,
        control: true,
    };

    pub const SUP: Symbol = Symbol {
        byte: Symbol::SUP_BYTE,
        control: true,
    };

    pub const EGP: Symbol = Symbol {
        byte: Symbol::EGP_BYTE,
        control: true,
    };

    pub const EBP: Symbol = Symbol {
        byte: Symbol::EBP_BYTE,
        control: true,
    };
}

impl Symbol {
    // The named values in document 01's order: what each constant is, promised.
    pub fn named() -> [Symbol; 11]
        ensures { result ≡ named }
    {
        [
            Symbol::COM,
            Symbol::IDL,
            Symbol::SPP,
            Symbol::SDP,
            Symbol::CPP,
            Symbol::CDP,
            Symbol::ALN,
            Symbol::SLP,
            Symbol::SUP,
            Symbol::EGP,
            Symbol::EBP,
        ]
    }

    pub fn data(byte: u8) -> Symbol
        ensures { result ≡ data_symbol byte }
    {
        Symbol {
            byte,
            control: false,
        }
    }

    pub fn control(byte: u8) -> Symbol
        ensures { result ≡ control_symbol byte }
    {
        Symbol {
            byte,
            control: true,
        }
    }
}

// One of the bytes that the twelve control characters have: K28.0 to K28.7, and four more.
pub fn is_twelve(byte: u8) -> bool
    ensures { result ≡ is_twelve byte }
{
    let others = [
        Symbol::SLP_BYTE,
        Symbol::SUP_BYTE,
        Symbol::EGP_BYTE,
        Symbol::EBP_BYTE,
    ];
    byte % 32 == 28 || others.contains(&byte)
}

impl Symbol {
    // Data of any byte, or one of the twelve.
    pub fn is_symbol(self) -> bool
        ensures { result ≡ is_symbol self }
    {
        !self.control || is_twelve(self.byte)
    }

    // What the writer may be asked for: any but K28.7.
    pub fn is_writable(self) -> bool
        ensures { result ≡ is_writable self }
    {
        !self.control || (self.byte != Symbol::K28_7_BYTE && is_twelve(self.byte))
    }

    // Opens a data packet or a priority packet.
    pub fn opens_packet(self) -> bool
        ensures { result ≡ opens_packet self }
    {
        self.control && matches!(self.byte, Symbol::SDP_BYTE | Symbol::SPP_BYTE)
    }

    // Opens a link management packet.
    pub fn opens_lmp(self) -> bool
        ensures { result ≡ opens_lmp self }
    {
        self.control && self.byte == Symbol::SLP_BYTE
    }
}

// Its name on the line: K28.5, D21.5.
impl fmt::Display for Symbol {
    fn fmt<W: fmt::Write>(&self, f: &mut fmt::Formatter<W>) -> fmt::Result {
        let kind = if self.control { "K" } else { "D" };
        write!(f, "{kind}{}.{}", self.byte % 32, self.byte / 32)
    }
}
