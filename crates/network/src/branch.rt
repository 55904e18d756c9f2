// Translated and changed from src/network/branch.rs of oxigrid. Copyright 2024-2026 COOLJAPAN OU (Team Kitasan), Apache License 2.0.

// A cable section: the ids of the buses at its ends, its resistance in per unit, and whether it is in service. The resistance stands
// first: so a record takes 16 bytes instead of 24, and arrays of them are copied faster.
#[derive(Clone, Copy, Debug, PartialEq)]
pub struct Branch {
    pub r: f64,
    pub from_bus: u16,
    pub to_bus: u16,
    pub status: bool,
}
