// Translated and changed from src/network/reconfiguration.rs of oxigrid. Copyright 2024-2026 COOLJAPAN OU (Team Kitasan), Apache License 2.0.
// The search that the network asks for.
ghost use Rattle.std.specs.Prelude.{◌≡◌};
ghost use Rattle.network.specs.Answers.{answer_of, valued};
ghost use Rattle.network.specs.Records.{records_of};
ghost use Rattle.searches.specs.Results.{result_of};
ghost use Rattle.reconfiguration.specs.Solve.{solved};

use exchange::exchange::branch_exchange_solve;
use exhaustive::exhaustive::exhaustive_solve;
use network::error::Refusal;
use network::switch::ReconfigAlgorithm;
use network::topology::PowerNetwork;
use searches::answer::ReconfigResult;
use tabu::tabu::tabu_search;

// The best state that the network's search finds, a byte for each switch at the front of the slice, and what is answered beside it.
pub fn solve(network: PowerNetwork, out: &mut [u8]) -> Result<ReconfigResult, Refusal>
    ensures { record { answer = valued result_of (answer_of result); out = out.new } ≡ solved (records_of network) out.old }
{
    match network.algorithm {
        ReconfigAlgorithm::BranchExchange => branch_exchange_solve(network, out),
        ReconfigAlgorithm::TabuSearch => tabu_search(network, out),
        ReconfigAlgorithm::Exhaustive => exhaustive_solve(network, out),
    }
}
