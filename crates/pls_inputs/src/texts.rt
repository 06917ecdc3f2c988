//! The texts of the parts of an input, as they were scanned.

ghost use Rattle.std.specs.Prelude.{◌≡◌, IfErr, None, OnOk, Some};
ghost use Rattle.pls_configuration.specs.Configuration.{first_of};
ghost use Rattle.pls_inputs.specs.Order.{over};
ghost use Rattle.pls_inputs.specs.inner.Scanned.{bits_in, count_in, limits_told};

use pls_configuration::{MAX_BITS, MAX_LINES, MAX_NODES, MAX_PORTS, MAX_ROUNDS};
use pls_edits::ReadEdits;
use pls_labelfile::LabelsText;
use pls_netfile::ReadNetwork;
use pls_rules_part::RulesText;
use pls_schedule::ReadSchedule;
use pls_streams::{Quantity, TextError};
use pls_watch_part::ReadWatch;

/// The texts of the parts of an input, as they were scanned; `None` where there is no such part.
#[derive(Drop)]
pub(crate) struct Texts<'a> {
    pub(crate) network: Option<ReadNetwork<'a>>,
    pub(crate) labels: Option<LabelsText<'a>>,
    pub(crate) schedule: Option<ReadSchedule<'a>>,
    pub(crate) edits: Option<ReadEdits<'a>>,
    pub(crate) watch: Option<ReadWatch<'a>>,
    pub(crate) rules: Option<RulesText<'a>>,
}

// Tests the quantities in the order of the limits.
pub(crate) fn test_limits(texts: &Texts<'_>) -> Result<(), TextError>
    ensures within { OnOk result (first_of (limits_told texts.now) ≡ None) }
    ensures refused { IfErr result (λ error. first_of (limits_told texts.now) ≡ Some error) }
{
    test_count(Quantity::Nodes, MAX_NODES as u64, nodes_in(&texts.network))?;
    test_count(Quantity::Ports, MAX_PORTS as u64, ports_in(&texts.network))?;
    test_count(Quantity::Bits, MAX_BITS, bits_in(texts))?;
    test_count(
        Quantity::Events,
        MAX_LINES as u64,
        events_in(&texts.schedule),
    )?;
    test_count(Quantity::Events, MAX_LINES as u64, lines_in(&texts.edits))?;
    test_count(
        Quantity::Events,
        MAX_LINES as u64,
        watch_lines_in(&texts.watch),
    )?;
    test_count(Quantity::Rounds, MAX_ROUNDS as u64, rounds_in(&texts.edits))?;
    test_count(Quantity::Rounds, MAX_ROUNDS as u64, looks_in(&texts.watch))
}

fn test_count(quantity: Quantity, most: u64, count: u64) -> Result<(), TextError>
    ensures within { OnOk result (over quantity most count ≡ None) }
    ensures refused { IfErr result (λ error. over quantity most count ≡ Some error) }
{
    if count > most {
        return Err(TextError::Limit(quantity));
    }
    Ok(())
}

fn nodes_in(network: &Option<ReadNetwork<'_>>) -> u64
    ensures { result ≡ count_in (λ text. text.nodes) network.now }
{
    match network {
        Some(text) => text.nodes(),
        None => 0,
    }
}

fn ports_in(network: &Option<ReadNetwork<'_>>) -> u64
    ensures { result ≡ count_in (λ text. text.ports) network.now }
{
    match network {
        Some(text) => text.ports(),
        None => 0,
    }
}

// Of the labels and of those in the watch, capped at `u64::MAX`.
fn bits_in(texts: &Texts<'_>) -> u64
    ensures { result ≡ bits_in texts.now }
{
    label_bits_in(&texts.labels).saturating_add(watch_bits_in(&texts.watch))
}

fn label_bits_in(labels: &Option<LabelsText<'_>>) -> u64
    ensures { result ≡ count_in (λ text. text.bits) labels.now }
{
    match labels {
        Some(text) => text.bits(),
        None => 0,
    }
}

fn watch_bits_in(watch: &Option<ReadWatch<'_>>) -> u64
    ensures { result ≡ count_in (λ text. text.bits) watch.now }
{
    match watch {
        Some(text) => text.bits(),
        None => 0,
    }
}

fn events_in(schedule: &Option<ReadSchedule<'_>>) -> u64
    ensures { result ≡ count_in (λ text. text.events) schedule.now }
{
    match schedule {
        Some(text) => text.events(),
        None => 0,
    }
}

fn lines_in(edits: &Option<ReadEdits<'_>>) -> u64
    ensures { result ≡ count_in (λ text. text.events) edits.now }
{
    match edits {
        Some(text) => text.events(),
        None => 0,
    }
}

fn rounds_in(edits: &Option<ReadEdits<'_>>) -> u64
    ensures { result ≡ count_in (λ text. text.rounds) edits.now }
{
    match edits {
        Some(text) => text.rounds(),
        None => 0,
    }
}

fn watch_lines_in(watch: &Option<ReadWatch<'_>>) -> u64
    ensures { result ≡ count_in (λ text. text.events) watch.now }
{
    match watch {
        Some(text) => text.events(),
        None => 0,
    }
}

fn looks_in(watch: &Option<ReadWatch<'_>>) -> u64
    ensures { result ≡ count_in (λ text. text.looks) watch.now }
{
    match watch {
        Some(text) => text.looks(),
        None => 0,
    }
}
