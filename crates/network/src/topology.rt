// Translated and changed from src/network/topology.rs of oxigrid. Copyright 2024-2026 COOLJAPAN OU (Team Kitasan), Apache License 2.0.
// The feeder's records as one value, its limits, and its lookups.
ghost use Rattle.std.specs.Prelude.{◌≡◌, ◌==◌, take};
ghost use Rattle.std.specs.List.{position};
ghost use Rattle.network.specs.Lookups.{bus_count, branch_count, bus_index};
ghost use Rattle.network.specs.Records.{records_of, empty_network};

use crate::branch::Branch;
use crate::bus::{Bus, Power};
use crate::switch::{ReconfigAlgorithm, Switch};
use numbers::at_most;

// A feeder and what is asked of it. Only the first `bus_count` buses are listed, and so for branches and switches. The bus with the id `supply` feeds it, where one is named.
#[derive(Clone, Copy)]
pub struct PowerNetwork {
    pub buses: [Bus; PowerNetwork::MAX_BUSES],
    pub branches: [Branch; PowerNetwork::MAX_BRANCHES],
    pub switches: [Switch; PowerNetwork::MAX_SWITCHES],
    pub bus_count: u16,
    pub branch_count: u16,
    pub switch_count: u16,
    pub base_mva: f64,
    pub algorithm: ReconfigAlgorithm,
    pub max_iterations: u16,
    pub supply: Option<u16>,
}

// The first position of a bus with this id.
fn position_of_bus(buses: &[Bus], bus_id: u16) -> Option<usize>
    ensures { result ≡ position (λ (b : Bus). b.id == bus_id) buses.now }
{
    buses.iter().position(|bus| bus.id == bus_id)
}

impl PowerNetwork {
    pub const MAX_BUSES: usize = 256;

    pub const MAX_BRANCHES: usize = 512;

    pub const MAX_SWITCHES: usize = 512;

    pub const MAX_ITERATIONS: u16 = 1000;

    // A branch may have two switches, one at each end.
    pub const MAX_SWITCHES_ON_BRANCH: usize = 2;

    // With method 02, at most ten switches are normally open.
    pub const MAX_TIES: usize = 10;

    // A network in which nothing is listed yet, and no supply is named.
    pub fn new(base_mva: f64, algorithm: ReconfigAlgorithm, max_iterations: u16) -> PowerNetwork
        ensures { result ≡ empty_network base_mva algorithm max_iterations }
    {
        let bus = Bus {
            id: 0,
            pd: Power(0.0),
        };
        let branch = Branch {
            from_bus: 0,
            to_bus: 0,
            r: 0.0,
            status: false,
        };
        let switch = Switch {
            id: 0,
            branch_idx: 0,
            normally_open: false,
            can_operate: false,
        };
        let buses = [bus; PowerNetwork::MAX_BUSES];
        let branches = [branch; PowerNetwork::MAX_BRANCHES];
        let switches = [switch; PowerNetwork::MAX_SWITCHES];
        PowerNetwork {
            buses,
            branches,
            switches,
            bus_count: 0,
            branch_count: 0,
            switch_count: 0,
            base_mva,
            algorithm,
            max_iterations,
            supply: None,
        }
    }

    // How many buses are listed.
    pub fn bus_count(self) -> usize
        ensures { result ≡ bus_count (records_of self) }
    {
        self.bus_count as usize
    }

    // How many branches are listed.
    pub fn branch_count(self) -> usize
        ensures { result ≡ branch_count (records_of self) }
    {
        self.branch_count as usize
    }

    // The first position of a listed bus with this id.
    pub fn bus_index(self, bus_id: u16) -> Option<usize>
        ensures { result ≡ bus_index (take self.bus_count self.buses) bus_id }
    {
        let count = at_most(self.bus_count as usize, PowerNetwork::MAX_BUSES);
        position_of_bus(&self.buses[..count], bus_id)
    }
}
