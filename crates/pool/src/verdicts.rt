// What is wrong with a pool: a code of D.9, and the object that it names.
ghost use Rattle.std.specs.Prelude.{◌≡◌};
ghost use Rattle.pool.specs.Faults.{code_number, fault_verdict, said};

use crate::{FINE, Verdict};

// The codes of D.9 that a pool may get, 00 aside.
#[derive(Clone, Copy, Debug, PartialEq, Eq)]
pub enum Code {
    UnknownType = 0x01,
    NoBase = 0x02,
    NoFunction = 0x03,
    NoState = 0x04,
    NumberTwice = 0x05,
    FunctionTwice = 0x06,
    StateTwice = 0x07,
    VersionLength = 0x09,
    VersionBytes = 0x0A,
    ConfigurationLength = 0x0B,
    WrongVersion = 0x0C,
    Other = 0xFF,
}

impl Code {
    pub fn number(self) -> u8
        ensures { result ≡ code_number self }
    {
        self as u8
    }
}

#[derive(Clone, Copy, Debug, PartialEq, Eq)]
pub struct Fault {
    pub code: Code,
    pub object: u16,
}

// "At most 16,384 bytes; more gives FF, object FFFF."
pub const TOO_LONG: Fault = Fault {
    code: Code::Other,
    object: 0xFFFF,
};

impl From<Fault> for Verdict {
    ghost from_gives = { λ fault verdict. verdict ≡ fault_verdict fault };

    fn from(fault: Fault) -> Verdict {
        Verdict {
            code: fault.code.number(),
            object: fault.object,
        }
    }
}

// The verdict that an answer stands for.
pub fn said(answer: Result<(), Fault>) -> Verdict
    ensures { result ≡ said answer }
{
    match answer {
        Ok(()) => FINE,
        Err(fault) => fault.into(),
    }
}
