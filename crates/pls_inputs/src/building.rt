//! What the texts of parts say, as values in memory.

ghost use Rattle.std.specs.Prelude.{IfErr, IfOk, option_map};
ghost use Rattle.pls_inputs.specs.inner.Built.{AreBuilt, AreListed, AreEditsIfAny, AreRefused, AreUnlisted, AreUnmade, IsBuilt, IsNoSet, IsSetIfAny, IsUnbuilt, IsUnwatched, IsWatchIfAny};

use pls_edits::{EditLine, ReadEdits};
use pls_graph::Network;
use pls_labelfile::LabelsText;
use pls_labels::LabelStore;
use pls_netfile::ReadNetwork;
use pls_rules::RuleSet;
use pls_rules_part::RulesText;
use pls_schedule::{Event, ReadSchedule};
use pls_streams::TextError;
use pls_watch_part::{ReadWatch, WatchLine};
use std::alloc::Global;

pub(crate) fn build_network(
    alloc: Global,
    network: Option<ReadNetwork<'_>>,
) -> Result<Option<Network>, TextError>
    ensures built { IfOk result (λ net. IsBuilt network.entry net) }
    ensures refused { IfErr result (λ error. IsUnbuilt network.entry error) }
{
    match network {
        Some(text) => Ok(Some(text.build(alloc)?)),
        None => Ok(None),
    }
}

pub(crate) fn build_labels(
    alloc: Global,
    labels: &Option<LabelsText<'_>>,
    network: &Option<Network>,
) -> Result<Option<LabelStore>, TextError>
    ensures built { IfOk result (λ store. AreBuilt labels.now network.now store) }
    ensures refused { IfErr result (λ error. AreRefused labels.now network.now error) }
{
    match (labels, network) {
        (Some(text), Some(net)) => Ok(Some(text.build(alloc, net)?)),
        _ => Ok(None),
    }
}

pub(crate) fn list_events(
    alloc: Global,
    schedule: Option<ReadSchedule<'_>>,
) -> Result<Option<Vec<Event>>, TextError>
    ensures listed { IfOk result
        (λ list. AreListed schedule.entry (option_map (λ list. list.items) list)) }
    ensures refused { IfErr result (λ error. AreUnlisted schedule.entry error) }
{
    match schedule {
        Some(text) => Ok(Some(text.into_list(alloc)?)),
        None => Ok(None),
    }
}

pub(crate) fn list_edits(
    alloc: Global,
    edits: Option<ReadEdits<'_>>,
) -> Result<Option<Vec<EditLine>>, TextError>
    ensures made { IfOk result
        (λ list. AreEditsIfAny edits.entry (option_map (λ list. list.items) list)) }
    ensures refused { IfErr result (λ error. AreUnmade edits.entry error) }
{
    match edits {
        Some(text) => Ok(Some(text.into_list(alloc)?)),
        None => Ok(None),
    }
}

pub(crate) fn list_watch(
    alloc: Global,
    watch: Option<ReadWatch<'_>>,
) -> Result<Option<Vec<WatchLine>>, TextError>
    ensures listed { IfOk result
        (λ list. IsWatchIfAny watch.entry (option_map (λ list. list.items) list)) }
    ensures refused { IfErr result (λ error. IsUnwatched watch.entry error) }
{
    match watch {
        Some(text) => Ok(Some(text.into_list(alloc)?)),
        None => Ok(None),
    }
}

pub(crate) fn build_rules(
    alloc: Global,
    rules: &Option<RulesText<'_>>,
) -> Result<Option<RuleSet>, TextError>
    ensures built { IfOk result (λ set. IsSetIfAny rules.now set) }
    ensures refused { IfErr result (λ error. IsNoSet rules.now error) }
{
    match rules {
        Some(text) => Ok(Some(text.build(alloc)?)),
        None => Ok(None),
    }
}
