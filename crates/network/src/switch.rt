// Translated and changed from src/network/reconfiguration.rs of oxigrid. Copyright 2024-2026 COOLJAPAN OU (Team Kitasan), Apache License 2.0.

ghost use Rattle.std.specs.Prelude.{◌≡◌};
ghost use Rattle.network.specs.Limits.{method_byte, IsMethod};

// A switch on a branch, which is named by its position. A tie is normally open, a section normally closed; a locked switch cannot operate.
#[derive(Clone, Copy, Debug, PartialEq, Eq)]
pub struct Switch {
    pub id: u16,
    pub branch_idx: u16,
    pub normally_open: bool,
    pub can_operate: bool,
}

// Which search `solve` runs.
#[derive(Clone, Copy, Debug, PartialEq, Eq)]
pub enum ReconfigAlgorithm {
    BranchExchange,
    TabuSearch,
    Exhaustive,
}

// The byte of a head line for each search.
impl From<ReconfigAlgorithm> for u8 {
    ghost from_gives = { λ algorithm r. r ≡ method_byte algorithm };

    fn from(algorithm: ReconfigAlgorithm) -> u8 {
        match algorithm {
            ReconfigAlgorithm::BranchExchange => 0,
            ReconfigAlgorithm::TabuSearch => 1,
            ReconfigAlgorithm::Exhaustive => 2,
        }
    }
}

// A method byte that stands for no search.
#[derive(Clone, Copy, Debug, PartialEq, Eq)]
pub struct NoMethod;

impl TryFrom<u8> for ReconfigAlgorithm {
    type Error = NoMethod;

    ghost try_from_gives = { IsMethod };

    fn try_from(byte: u8) -> Result<Self, NoMethod> {
        match byte {
            0 => Ok(ReconfigAlgorithm::BranchExchange),
            1 => Ok(ReconfigAlgorithm::TabuSearch),
            2 => Ok(ReconfigAlgorithm::Exhaustive),
            _ => Err(NoMethod),
        }
    }
}
