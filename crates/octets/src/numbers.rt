// The numbers that a call gives back, as document 01 has them, and from 16 on as document 02 has them.
ghost use Rattle.std.specs.Prelude.{◌≡◌};
ghost use Rattle.octets.specs.Refusals.{refusal_number, answer_number};

pub const DONE: u8 = 0;

// Why a call is refused.
#[derive(Clone, Copy, Debug, PartialEq, Eq)]
pub enum Refusal {
    TooShort = 1,
    WrongState = 2,
    WrongSlot = 3,
    WrongValue = 4,
    NotExpected = 5,
    PoolRefused = 6,
    NoStep = 7,
    NotEnabled = 8,
    NameDiffers = 9,
    LabelDiffers = 10,
    NotInPool = 11,
    NotReady = 12,
    NotDisabled = 13,
    NoneEnabled = 14,
    NoMatch = 15,
    CheckWrong = 16,
    NotStored = 17,
}

impl Refusal {
    pub fn number(self) -> u8
        ensures { result ≡ refusal_number self }
    {
        self as u8
    }
}

// The number of an answer: 0 where it is no refusal.
pub fn number_of(answer: Result<(), Refusal>) -> u8
    ensures { result ≡ answer_number answer }
{
    match answer {
        Ok(()) => DONE,
        Err(why) => why.number(),
    }
}
