// Why something is refused, each reason by its number, and where.
ghost use Rattle.std.specs.Prelude.{◌≡◌};
ghost use Rattle.event.specs.Refusals.{refusal_number};

// The reasons, in the order of their numbers: each has the number that its refusal returns.
#[derive(Clone, Copy, PartialEq, Eq)]
pub enum Refusal {
    EmptyPattern = 1,
    TooManySlots = 2,
    UnknownByte = 3,
    CutShort = 4,
    ThreadAboveLimit = 5,
    ObjectAboveLimit = 6,
    NamesItself = 7,
    ByteAfterEnd = 8,
    TooManyEvents = 9,
    ThreadJoined = 10,
    LockHeld = 11,
    LockNotHeld = 12,
    ChildStarted = 13,
    ChildJoined = 14,
    NoRoom = 15,
    NoSuchEvent = 16,
    LockTooDeep = 17,
    RowTooLong = 18,
    LoadTooLong = 22,
    TooManyToOrder = 25,
    NoOrder = 26,
}

impl Refusal {
    // The number of the reason.
    pub fn number(self) -> u8
        ensures { result ≡ refusal_number self }
    {
        self as u8
    }

    // A refusal for this reason, at an offset.
    pub fn at(self, offset: usize) -> Refused
        ensures { result ≡ record { reason = self; offset = offset } }
    {
        Refused {
            reason: self,
            offset,
        }
    }
}

// A refusal, and the offset of the first byte of the command concerned.
#[derive(Clone, Copy, PartialEq, Eq)]
pub struct Refused {
    pub reason: Refusal,
    pub offset: usize,
}
