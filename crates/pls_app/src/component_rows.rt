//! What a report tells of each component.

ghost use Rattle.std.specs.Prelude.{◌≡◌, ◌<◌, ◌≤◌, ◌^◌, ℕ, List, All, Some, cond, length, slice_get, IfOk};
ghost use Rattle.pls_components.specs.Components.{AreComponents, items_at};
ghost use Rattle.pls_report.specs.Report.{rejecting, waiting};
ghost use Rattle.pls_app.specs.ComponentRows.{component_row, component_rows};

use pls_components::Components;
use pls_facts::is_valid;
use pls_graph::Network;
use pls_report::{ComponentRow, rejects, waits};
use pls_sim::Outcome;
use pls_streams::NoMemory;
use std::alloc::Global;

pub(crate) fn component_rows(
    alloc: Global,
    net: &Network,
    parts: &Components,
    outcomes: &[(u32, Outcome)],
) -> Result<Vec<ComponentRow>, NoMemory>
    requires made { AreComponents net.now parts.now }
    requires each { length outcomes.now ≡ length net.now }
    ensures { IfOk result (λ rows. rows.items ≡ component_rows net.now parts.now outcomes.now) }
{
    let mut rows = Vec::with_capacity(alloc, parts.len())?;
    for k in 0..parts.len() {
        rows.push(component_row(net, parts, k, outcomes))?;
    }
    Ok(rows)
}

fn component_row(
    net: &Network,
    parts: &Components,
    k: usize,
    outcomes: &[(u32, Outcome)],
) -> ComponentRow
    requires made { AreComponents net.now parts.now }
    requires within { k < length parts.now }
    requires each { length outcomes.now ≡ length net.now }
    ensures { (places : List ℕ) → slice_get parts.now k ≡ Some places
        → result ≡ component_row net.now outcomes.now places }
{
    is_valid(net);
    let places = parts.members(k);
    let (rejecting, waiting) = failing_at(places, outcomes);
    ComponentRow {
        id: parts.smallest_id(net, k),
        nodes: places.len() as u32,
        rejecting: rejecting as u32,
        waiting: waiting as u32,
    }
}

// How many of the nodes reject, and how many wait.
fn failing_at(places: &[u32], outcomes: &[(u32, Outcome)]) -> (usize, usize)
    requires within { All (λ place. place < length outcomes.now) places.now }
    requires few { length places.now < 2 ^ 32 }
    ensures rejecting { result.0 ≡ rejecting (items_at outcomes.now places.now) }
    ensures waiting { result.1 ≡ waiting (items_at outcomes.now places.now) }
    ensures few { (result.0 ≤ length places.now) × (result.1 ≤ length places.now) }
{
    let (mut rejecting, mut waiting) = (0, 0);
    for place in places {
        let outcome = &outcomes[*place as usize].1;
        rejecting += one_if(rejects(outcome));
        waiting += one_if(waits(outcome));
    }
    (rejecting, waiting)
}

fn one_if(holds: bool) -> usize
    ensures { result ≡ cond holds 1 0 }
{
    holds as usize
}
