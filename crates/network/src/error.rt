// Translated and changed from src/error.rs of oxigrid. Copyright 2024-2026 COOLJAPAN OU (Team Kitasan), Apache License 2.0.
// The refusals in place of the source's error texts.
ghost use Rattle.std.specs.Prelude.{◌≡◌, Some, ◌++◌, ◌∷◌};
ghost use Rattle.std.specs.Fmt.{decimal};
ghost use Rattle.network.specs.Answers.{number_of, place_of};

use std::fmt;

// Why a text, its records or a state is refused, with the line, the state (0 present or only one, 1 wanted) or the switch id that it is refused for.
#[derive(Clone, Copy, Debug, PartialEq, Eq)]
pub enum Refusal {
    // The line is not ended, has an odd number of digits or another character.
    Characters { line: u16 },
    // The line has another kind or length, is missing or is one too many.
    Shape { line: u16 },
    // A method, status or flags byte has no meaning, or there are over 1,000 iterations.
    Meaning { line: u16 },
    // A count of the head is over its limit.
    Count { line: u16 },
    // A float is outside its range, or not finite.
    Range { line: u16 },
    // A branch end is no listed bus, or a branch position is not below the count.
    NotListed { line: u16 },
    // An id stands twice in its kind.
    Twice { line: u16 },
    // A third switch on a branch.
    ThirdSwitch { line: u16 },
    // An eleventh normally open switch with method 02.
    EleventhTie { line: u16 },
    // The state is not one byte 00 or 01 for each switch.
    State { which: u16 },
    // The state is not radial.
    NotRadial { which: u16 },
    // A switch that a plan would have to move is locked.
    Locked { switch: u16 },
    // A lent slice is shorter than what it is to hold.
    Room,
    // A supply is named, and no listed bus has its id.
    SupplyNotListed { line: u16 },
    // A supply is named, and the base is not radial.
    SupplyNotRadial { line: u16 },
    // More moves are said to be done than the plan has.
    MovesDone,
    // A branch leads from a bus to itself.
    EqualEnds { line: u16 },
}

impl Refusal {
    // The number that the frame 8F says.
    pub fn number(self) -> u8
        ensures { result ≡ number_of self }
    {
        match self {
            Refusal::Characters { .. } => 1,
            Refusal::Shape { .. } => 2,
            Refusal::Meaning { .. } => 3,
            Refusal::Count { .. } => 4,
            Refusal::Range { .. } => 5,
            Refusal::NotListed { .. } => 6,
            Refusal::Twice { .. } => 7,
            Refusal::ThirdSwitch { .. } => 8,
            Refusal::EleventhTie { .. } => 9,
            Refusal::State { .. } => 10,
            Refusal::NotRadial { .. } => 11,
            Refusal::Locked { .. } => 12,
            Refusal::Room => 13,
            Refusal::SupplyNotListed { .. } => 14,
            Refusal::SupplyNotRadial { .. } => 15,
            Refusal::MovesDone => 16,
            Refusal::EqualEnds { .. } => 17,
        }
    }

    // The place that the frame 8F says: 0 where there is none.
    pub fn place(self) -> u16
        ensures { result ≡ place_of self }
    {
        match self {
            Refusal::Characters { line }
            | Refusal::Shape { line }
            | Refusal::Meaning { line }
            | Refusal::Count { line }
            | Refusal::Range { line }
            | Refusal::NotListed { line }
            | Refusal::Twice { line }
            | Refusal::ThirdSwitch { line }
            | Refusal::EleventhTie { line }
            | Refusal::SupplyNotListed { line }
            | Refusal::SupplyNotRadial { line }
            | Refusal::EqualEnds { line } => line,
            Refusal::State { which } | Refusal::NotRadial { which } => which,
            Refusal::Locked { switch } => switch,
            Refusal::Room | Refusal::MovesDone => 0,
        }
    }
}

// The two numbers, a blank between them.
impl fmt::Display for Refusal {
    ghost output = { λ r. Some (decimal (number_of r) ++ (32 ∷ decimal (place_of r))) };

    fn fmt<W: fmt::Write>(&self, f: &mut fmt::Formatter<W>) -> fmt::Result {
        let number = self.number();
        let place = self.place();
        write!(f, "{number} {place}")
    }
}
