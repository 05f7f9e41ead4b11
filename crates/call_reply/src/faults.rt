// Why a call is refused.
ghost use Rattle.std.specs.Prelude.{◌≡◌};
ghost use Rattle.call_reply.specs.Faults.{fault_number, number_in, from_block};

use block::BlockFault;

// As a number, that of the table of refusals.
#[derive(Clone, Copy, Debug, PartialEq, Eq)]
pub enum Fault {
    WrongLength = 1,
    OutOfRange = 2,
    NotOpen = 3,
    NotActive = 4,
    AllOpen = 5,
    TicketsSpent = 6,
    Applying = 7,
    Locked = 8,
    Stale = 9,
    WritesetFull = 10,
    NotOurTurn = 11,
    AlreadySent = 12,
    SlotsSpent = 13,
    WrongCheck = 14,
    WrongForm = 15,
    WrongGroup = 16,
    PastSlot = 17,
    FarSlot = 18,
    NotSent = 19,
    SlotTaken = 20,
    NothingWaits = 21,
    LoadWhileApplying = 23,
    StationOnlyReads = 25,
    NoticeRefused = 28,
    SlotOut = 29,
    NobodyUp = 30,
    WindowLacks = 31,
}

impl Fault {
    pub fn number(self) -> u8
        ensures { result ≡ fault_number self }
    {
        self as u8
    }
}

// The number of a call that answers no more.
pub fn number_of(done: Result<(), Fault>) -> u8
    ensures { result ≡ number_in done }
{
    match done {
        Ok(()) => 0,
        Err(fault) => fault.number(),
    }
}

impl From<BlockFault> for Fault {
    ghost from_gives = { λ b f. f ≡ from_block b };

    fn from(fault: BlockFault) -> Self {
        match fault {
            BlockFault::WrongLength => Fault::WrongLength,
            BlockFault::WrongCheck => Fault::WrongCheck,
            BlockFault::WrongForm => Fault::WrongForm,
        }
    }
}
