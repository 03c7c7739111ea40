// The numbers, layers and places of refusals.
ghost use Rattle.std.specs.Prelude.{◌≡◌, Some};
ghost use Rattle.tape.specs.Refusals.{number_of, layer_of, at_place, refused_text};

use crate::refusal::{Layer, Refusal, RefusedAt};
use std::fmt;

impl Refusal {
    // The refusal at a byte place.
    pub fn at(self, place: usize) -> RefusedAt
        ensures { result ≡ at_place self place }
    {
        RefusedAt {
            refusal: self,
            place,
        }
    }

    // The number by which a refusal is told.
    pub fn number(self) -> u8
        ensures { result ≡ number_of self }
    {
        self as u8
    }

    // The layer that checks for a refusal.
    pub fn layer(self) -> Layer
        ensures { result ≡ layer_of self }
    {
        match self {
            Refusal::BadName | Refusal::NamesFull => Layer::Name,
            Refusal::DraftOpen | Refusal::AllFiled | Refusal::NotOpenDraft | Refusal::NotEnded =>
                Layer::Draft,
            Refusal::UnknownByte
            | Refusal::CutOff
            | Refusal::UndeclaredFact
            | Refusal::NotStatable
            | Refusal::NoCombiner
            | Refusal::WrongEntry
            | Refusal::StackFull
            | Refusal::WrongEnd
            | Refusal::AfterEnd => Layer::Command,
            Refusal::NoSlot => Layer::Slots,
            Refusal::TapeTooLong | Refusal::NoEnd => Layer::Tape,
            Refusal::NoPolicy
            | Refusal::NoQuestion
            | Refusal::UndeclaredInRequest
            | Refusal::TooManyFacts => Layer::Question,
            Refusal::BadJob => Layer::Job,
        }
    }
}

// A refusal as the programs print it, by its number and its place.
impl fmt::Display for RefusedAt {
    ghost output = { λ at. Some (refused_text at) };

    fn fmt<W: fmt::Write>(&self, f: &mut fmt::Formatter<W>) -> fmt::Result {
        write!(f, "R {} {}", self.refusal.number(), self.place)
    }
}
