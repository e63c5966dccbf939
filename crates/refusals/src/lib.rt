// Why a call refuses (document 01, "Refusal numbers"; 15 and 16 are document 02's P5, 17 and 18 its P10, and 24 is a number of our own).
#![tactic(auto)]

ghost use Rattle.std.specs.Prelude.{◌≡◌};
ghost use Rattle.refusals.specs.Numbers.{number_of, unplaced, shown};

use std::fmt;

// What a list, a room, a frame, a table or a capture is refused for, in the order of the numbers.
#[derive(Clone, Copy, Debug, PartialEq, Eq)]
pub enum Refusal {
    ManyFilters,
    CutFilter,
    Rank,
    ManyTests,
    Kind,
    Field,
    Mask,
    Width,
    Value,
    ScratchRoom,
    TableRoom,
    LongFrame,
    Table,
    Text,
    FullTally,
    Verdicts,
    Capture,
    CutRecord,
    Tallies,
}

impl Refusal {
    // The number that the box shows.
    #[tactic(auto, unfolding(crate::specs::Numbers::number_of))]
    pub fn number(self) -> u32
        ensures { result ≡ number_of self }
    {
        match self {
            Refusal::ManyFilters => 1,
            Refusal::CutFilter => 2,
            Refusal::Rank => 3,
            Refusal::ManyTests => 4,
            Refusal::Kind => 5,
            Refusal::Field => 6,
            Refusal::Mask => 7,
            Refusal::Width => 8,
            Refusal::Value => 9,
            Refusal::ScratchRoom => 10,
            Refusal::TableRoom => 11,
            Refusal::LongFrame => 12,
            Refusal::Table => 13,
            Refusal::Text => 14,
            Refusal::FullTally => 15,
            Refusal::Verdicts => 16,
            Refusal::Capture => 17,
            Refusal::CutRecord => 18,
            Refusal::Tallies => 24,
        }
    }
}

// A refusal with the number of the filter or record that has the fault; 0 where none is named.
#[derive(Clone, Copy, Debug, PartialEq, Eq)]
pub struct Refused<N> {
    pub refusal: Refusal,
    pub place: N,
}

// A refusal that names no filter.
impl From<Refusal> for Refused<u32> {
    ghost from_gives = { λ refusal refused. refused ≡ unplaced refusal };

    fn from(refusal: Refusal) -> Refused<u32> {
        Refused { refusal, place: 0 }
    }
}

// A refusal that names no record.
impl From<Refusal> for Refused<u64> {
    ghost from_gives = { λ refusal refused. refused ≡ unplaced refusal };

    fn from(refusal: Refusal) -> Refused<u64> {
        let place = 0;
        Refused { refusal, place }
    }
}

// As the programs print it: the refusal's number, and the place.
impl<N: fmt::Display> fmt::Display for Refused<N> {
    ghost output = { shown N.output };

    fn fmt<W: fmt::Write>(&self, f: &mut fmt::Formatter<W>) -> fmt::Result {
        write!(f, "refused {} {}", self.refusal.number(), self.place)
    }
}
