// A refusal of the rules page: why, by the page's numbers, and where.
#![tactic(auto)]

ghost use Rattle.std.specs.Prelude.{Some};
ghost use Rattle.refusal.specs.Promises as P;
ghost use Rattle.refusal.specs.Text.{text_of};

use std::fmt;

// Why a call is refused, with the page's number.
#[derive(Clone, Copy, Debug, PartialEq, Eq)]
pub enum Reason {
    MemorySize = 1,
    LayoutSize = 2,
    RegionReversed = 3,
    RegionSize = 4,
    ZeroInCode = 5,
    RegionsShare = 6,
    TraceSize = 7,
    RoomSize = 8,
    StepNotZero = 9,
    ChallengeNotGreater = 10,
    TokenDiffers = 11,
    LengthOrTotal = 12,
    Contents = 13,
    Segment = 14,
    FileSize = 15,
}

// What was refused, and where: the place is 0 unless the page names one.
#[derive(Clone, Copy, Debug, PartialEq, Eq)]
pub struct Refusal {
    pub reason: Reason,
    pub place: usize,
}

impl Reason {
    // The page's number.
    pub fn number(self) -> u8
        ensures { P.IsNumber self result }
    {
        self as u8
    }

    // Refused at a place.
    pub fn at(self, place: usize) -> Refusal
        ensures { P.RefusesAt self place result }
    {
        Refusal {
            reason: self,
            place,
        }
    }
}

// Refused where the page names no place.
impl From<Reason> for Refusal {
    ghost from_gives = { P.RefusesWith };

    fn from(reason: Reason) -> Refusal {
        Refusal { reason, place: 0 }
    }
}

// As the programs print it.
impl fmt::Display for Refusal {
    ghost output = { λ r. Some (text_of r) };

    fn fmt<W: fmt::Write>(&self, f: &mut fmt::Formatter<W>) -> fmt::Result {
        let number = self.reason.number();
        let place = self.place;
        write!(f, "refused {number} {place}")
    }
}
