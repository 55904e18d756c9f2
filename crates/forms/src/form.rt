// Document 02's radiality answer, by labels: buses that the branches added so far join have one label.
ghost use Rattle.std.specs.Prelude.{◌≡◌, Bool, map, ℕ, ◌+◌, ◌-◌, ◌<◌};
ghost use Rattle.numbers.specs.UpTo.{table};
ghost use Rattle.graph.specs.Graph.{Net};
ghost use Rattle.graph.specs.Rows.{flag, row_net};
ghost use Rattle.graph.specs.Form.{relabel, instead, row_form};
ghost use Rattle.forms.specs.Adding.{Adding, AllAdded};

use bfs::radial::is_radial;
use graph::form::Form;
use graph::rows::Graph;
use std::array;

// Every bus has its own label.
fn own_labels() -> [u8; Graph::MAX_BUSES]
    ensures { result ≡ table (λ x. x) 256 }
{
    array::from_fn(|x| x as u8)
}

#[tactic(auto, unfolding(graph::specs::Form::relabel))]
fn relabelled(kept: u8, gone: u8, label: u8) -> u8
    ensures { result ≡ relabel kept gone label }
{
    if label == gone { kept } else { label }
}

// One label becomes another.
fn merge(label: &mut [u8; Graph::MAX_BUSES], kept: u8, gone: u8)
    ensures { label.new ≡ map (relabel kept gone) label.old }
{
    for each in label.iter_mut() {
        *each = relabelled(kept, gone, *each);
    }
}

// The labels once some branches are added, the first of these that closed a loop, and how many have made one piece of two.
#[derive(Drop)]
struct Added {
    label: [u8; Graph::MAX_BUSES],
    closing: Option<u16>,
    links: u16,
}

impl Added {
    // Branch k is added, where it is live.
    fn add_branch(&mut self, live: bool, k: u16, from: u8, to: u8)
        requires { (k < 512) × ((N : Net) × (E : (ℕ → Bool)) × Adding N E k self.old) }
        ensures { (N : Net) (E : ℕ → Bool) → E k ≡ live → N.from k ≡ from → N.to k ≡ to
            → Adding N E k self.old → Adding N E (k + 1) self.new }
    {
        if !live {
            return;
        }
        let kept = self.label[usize::from(from)];
        let gone = self.label[usize::from(to)];
        if kept != gone {
            merge(&mut self.label, kept, gone);
            self.links += 1;
        } else {
            self.closing = self.closing.or(Some(k));
        }
    }
}

// All live branches are added, by rising position.
fn add_live(graph: &Graph, live: &[bool; Graph::MAX_BRANCHES]) -> Added
    ensures { AllAdded (row_net graph.now) (flag live.now) result }
{
    let m = usize::from(graph.branch_count).min(Graph::MAX_BRANCHES);
    let mut added = Added {
        label: own_labels(),
        closing: None,
        links: 0,
    };
    for (k, is_live) in live[..m].iter().enumerate() {
        added.add_branch(*is_live, k as u16, graph.far[2 * k + 1], graph.far[2 * k]);
    }
    added
}

// So many buses, so many links: the pieces minus one.
fn islands_of(bus_count: u16, links: u16) -> u16
    ensures { result ≡ (bus_count - 1) - links }
{
    bus_count.saturating_sub(1).saturating_sub(links)
}

// What branches are that are no tree: a loop goes before islands.
fn instead(closing: Option<u16>, islands: u16) -> Form
    ensures { result ≡ instead closing islands }
{
    match closing {
        Some(branch) => Form::Loop { branch, islands },
        None => Form::Islands(islands),
    }
}

// What the live branches are, by the rows of a graph.
pub fn form_of(graph: Graph, live: [bool; Graph::MAX_BRANCHES]) -> Form
    ensures { result ≡ row_form graph live }
{
    if is_radial(graph, live) {
        return Form::Tree;
    }
    let added = add_live(&graph, &live);
    instead(added.closing, islands_of(graph.bus_count, added.links))
}
