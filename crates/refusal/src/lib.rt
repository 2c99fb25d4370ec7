// The one refusal type of the library, by the numbers of documents 01 and 02. A call that may refuse answers a `Result` with
// it: the value of an accepted call, or why it was refused.
#![tactic(auto)]

ghost use Rattle.std.specs.Prelude.{◌≡◌, cond, ltb, Some};
ghost use Rattle.refusal.specs.Refusals.{number_of, place_of, accepted, refused_for, refusal_text};
ghost use Rattle.refusal.specs.Table.{answer_of};

use std::error::Error;
use std::fmt;

// Why a call was refused. A case holds the place that goes with it where the place varies.
#[derive(Clone, Copy, Debug, PartialEq, Eq)]
pub enum Refusal {
    WordsEndEarly(usize),
    AnotherKindDue(usize),
    OutOfRange(usize),
    SideBelowOrder,
    WordsAfterEnd(usize),
    RecordBreaksRule,
    // The marks, the words that a plan is written to, or the table of a rectangle; strips, map and output have their own.
    BufferTooShort,
    NoSuchTask,
    MarkBroken(usize),
    AlreadyMarked,
    NeedUnmarked,
    RectangleOutside,
    InputUnfit,
    StripsTooShort,
    MapTooShort,
    OutputTooShort,
    BlockNotCollected,
    // The marks of this job run past the common list or overlap another job's.
    JobMisplaced(usize),
}

// What the documents return for a refusal: its number, and the place beside it.
#[derive(Clone, Copy)]
pub struct Reason {
    pub number: u32,
    pub place: usize,
}

impl Refusal {
    // The table of refused calls, document 01's and from 14 on document 02's: the number of each cause, and what is
    // returned beside it.
    pub fn reason(self) -> Reason
        ensures { (result.number ≡ number_of self) × (result.place ≡ place_of self) }
    {
        match self {
            Refusal::WordsEndEarly(place) => row(1, place),
            Refusal::AnotherKindDue(place) => row(2, place),
            Refusal::OutOfRange(place) => row(3, place),
            Refusal::SideBelowOrder => row(4, 1),
            Refusal::WordsAfterEnd(place) => row(5, place),
            Refusal::RecordBreaksRule => row(6, 0),
            Refusal::BufferTooShort => row(7, 0),
            Refusal::NoSuchTask => row(8, 0),
            Refusal::MarkBroken(place) => row(9, place),
            Refusal::AlreadyMarked => row(10, 0),
            Refusal::NeedUnmarked => row(11, 0),
            Refusal::RectangleOutside => row(12, 0),
            Refusal::InputUnfit => row(13, 0),
            Refusal::StripsTooShort => row(14, 0),
            Refusal::MapTooShort => row(15, 0),
            Refusal::OutputTooShort => row(16, 0),
            Refusal::BlockNotCollected => row(17, 0),
            Refusal::JobMisplaced(job) => row(18, job),
        }
    }

    // The number of the refusal.
    pub fn number(self) -> u32
        ensures { result ≡ number_of self }
    {
        let reason = self.reason();
        reason.number
    }

    // The place that is returned beside the number.
    pub fn place(self) -> usize
        ensures { result ≡ place_of self }
    {
        let reason = self.reason();
        reason.place
    }
}

// A refusal is printed as its number and its place.
impl fmt::Display for Refusal {
    ghost output = { λ refusal. Some (refusal_text refusal) };

    fn fmt<W: fmt::Write>(&self, f: &mut fmt::Formatter<W>) -> fmt::Result {
        let Reason { number, place } = self.reason();
        write!(f, "refused {number} at {place}")
    }
}

impl Error for Refusal {}

fn row(number: u32, place: usize) -> Reason
    ensures { (result.number ≡ number) × (result.place ≡ place) }
{
    Reason {
        number: number,
        place: place,
    }
}

// Refused for a cause where a lent buffer of a length has fewer places than are needed.
pub fn too_short(length: usize, needed: usize, cause: Refusal) -> Result<(), Refusal>
    ensures { answer_of result ≡ cond (ltb length needed) (refused_for cause) accepted }
{
    if length < needed { Err(cause) } else { Ok(()) }
}
