// Document 01's terms and checks as definitions and laws, and the types by which code tells an answer: a `Result` with the reason of a
// refusal. The code of the checks stands in the crate `checking`.
#![tactic(auto)]

ghost use Rattle.std.specs.Prelude.{◌≡◌};
ghost use Rattle.appointments.specs.Answers.{number_of, place_of, figures_of};
ghost use Rattle.appointments.specs.Refusals.{refusal_number, refusal_place, told};

// The mark of a blank end (the law `blank_mark`).
pub const BLANK: u16 = 65535;

// Why a call refuses, in the order of the papers' numbers. A refusal that has a place carries it.
#[derive(Clone, Copy, Debug, PartialEq, Eq)]
pub enum Refusal {
    ManyParties,
    OddLength,
    ManyAppointments,
    BlankEnd(usize),
    UnlistedEnd(usize),
    LargeProduct,
    FewSlots,
    LittleScratch,
    OddRound,
    MalformedLine(usize),
    LongInput,
    WrongLength,
    ShortOutput,
    ManyQueries,
    UnlistedQuery(usize),
    LateSlot,
    UnknownTime,
}

impl Refusal {
    // The papers' number.
    pub fn number(self) -> u32
        ensures { result ≡ refusal_number self }
    {
        match self {
            Refusal::ManyParties => 1,
            Refusal::OddLength => 2,
            Refusal::ManyAppointments => 3,
            Refusal::BlankEnd(_) => 4,
            Refusal::UnlistedEnd(_) => 5,
            Refusal::LargeProduct => 6,
            Refusal::FewSlots => 7,
            Refusal::LittleScratch => 8,
            Refusal::OddRound => 9,
            Refusal::MalformedLine(_) => 10,
            Refusal::LongInput => 11,
            Refusal::WrongLength => 12,
            Refusal::ShortOutput => 13,
            Refusal::ManyQueries => 14,
            Refusal::UnlistedQuery(_) => 15,
            Refusal::LateSlot => 23,
            Refusal::UnknownTime => 24,
        }
    }

    // The place, and 0 where the number has none.
    pub fn place(self) -> usize
        ensures { result ≡ refusal_place self }
    {
        match self {
            Refusal::BlankEnd(place)
            | Refusal::UnlistedEnd(place)
            | Refusal::MalformedLine(place)
            | Refusal::UnlistedQuery(place) => place,
            _ => 0,
        }
    }
}

// How much scratch a list needs: D, and W in words.
#[derive(Clone, Copy, Debug, Default, PartialEq, Eq)]
pub struct Needs {
    pub d: usize,
    pub words: usize,
}

// A call's answer as numbers, as C has them: the papers' number and place, 0 and 0 for acceptance, and the figures.
#[derive(Clone, Copy, Debug, PartialEq, Eq)]
pub struct Numbers<T> {
    pub number: u32,
    pub place: usize,
    pub figures: T,
}

impl<T: Copy> Numbers<T> {
    // A refusal has the figures of `none`.
    pub fn of(answer: Result<T, Refusal>, none: T) -> Numbers<T>
        ensures number { result.number ≡ number_of (told answer) }
        ensures place { result.place ≡ place_of (told answer) }
        ensures figures { result.figures ≡ figures_of none (told answer) }
    {
        match answer {
            Ok(figures) => Numbers {
                number: 0,
                place: 0,
                figures,
            },
            Err(refusal) => Numbers {
                number: refusal.number(),
                place: refusal.place(),
                figures: none,
            },
        }
    }
}
