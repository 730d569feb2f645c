// Replaying the life of a file: a list of calls in, the list of their replies out.
#![tactic(auto)]

ghost use Rattle.std.specs.Prelude.{◌≡◌};
ghost use Rattle.replay.specs.declared.NotRehearsed.TheVariants.{Declined, Memory};
ghost use Rattle.replay.specs.Rehearsals.{shown};

use model::{Answer, Decline, ReadFault};
use search::{Frame, Mark};
use std::alloc::AllocError;
use std::error::Error;
use std::fmt;

mod calls;
pub mod rehearsing;
pub mod replaying;

// A call of a life, with what is handed in. Slips and records are named by their places from 0.
#[derive(Clone, Copy)]
pub enum Call<'a> {
    Enter(&'a [i32]),
    Read(&'a [u8]),
    Open(usize),
    Close(usize),
    Settle(usize),
}

// What the calls of a life are handed beside what they name: the order, the records by their places from 0, the sheet, and memory for the two stacks.
#[derive(Drop)]
pub struct Desk<'a, O, R> {
    pub order: &'a O,
    pub records: &'a mut [R],
    pub sheet: &'a mut [u8],
    pub trail: &'a mut [Mark],
    pub frames: &'a mut [Frame],
}

// What a call replied: to `enter`, to `read`, to `open` and `close`, to `settle`; or that it names a slip or a record that is not there, and was not made.
#[derive(Clone, Copy, PartialEq, Eq, Debug)]
pub enum Reply {
    Entered(Result<u32, Decline>),
    Taken(Result<u32, ReadFault>),
    Trial(Result<(), Decline>),
    Settled(Result<Answer, Decline>),
    Missing,
}

// Why a list of calls was not rehearsed: the file takes no further trial, or memory for the replies is wanting.
#[derive(Debug, Drop)]
pub enum NotRehearsed {
    Declined(Decline),
    Memory(AllocError),
}

impl From<Decline> for NotRehearsed {
    ghost from_gives = { λ d r. r ≡ Declined d };

    fn from(d: Decline) -> NotRehearsed {
        NotRehearsed::Declined(d)
    }
}

impl From<AllocError> for NotRehearsed {
    ghost from_gives = { λ e r. r ≡ Memory e };

    fn from(e: AllocError) -> NotRehearsed {
        NotRehearsed::Memory(e)
    }
}

impl fmt::Display for NotRehearsed {
    ghost output = { shown };

    fn fmt<W: fmt::Write>(&self, f: &mut fmt::Formatter<W>) -> fmt::Result {
        match self {
            NotRehearsed::Declined(_) => f.write_str("the trial was declined"),
            NotRehearsed::Memory(error) => write!(f, "{error}"),
        }
    }
}

impl Error for NotRehearsed {}
