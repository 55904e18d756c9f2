// Translated and changed from src/network/bus.rs of oxigrid. Copyright 2024-2026 COOLJAPAN OU (Team Kitasan), Apache License 2.0.

// A load in megawatts. Divided by base_mva it is per unit, a plain f64.
#[derive(Clone, Copy, Debug, PartialEq)]
pub struct Power(pub f64);

// A bus: its id and the load on it.
#[derive(Clone, Copy, Debug, PartialEq)]
pub struct Bus {
    pub id: u16,
    pub pd: Power,
}
