//! Labels that say the levels of a network's nodes.

ghost use Rattle.std.specs.Prelude.{◌≡◌, ℕ, map, unwrap_or, IfOk};
ghost use Rattle.pls_configuration.specs.Walk.{IsConnected};
ghost use Rattle.pls_scheme.specs.Marked.{AreRight};
ghost use Rattle.pls_colour.specs.Levelled.{saying_level};

use pls_facts::is_valid;
use pls_graph::Network;
use pls_numbers::Format;
use pls_scheme::Judgement;
use pls_search::levels;
use pls_streams::NoMemory;
use std::alloc::Global;

// Rules on labels that say levels.
pub(crate) trait SaysLevels: Judgement {
    ghost level_label: { ℕ → Self.Format.Label };

    fn level_label(level: u32) -> <Self::Format as Format>::Label
        ensures { result ≡ level_label level };
}

pub(crate) fn level_labels<R: SaysLevels>(
    alloc: Global,
    net: &Network,
) -> Result<Vec<<R::Format as Format>::Label>, NoMemory>
    requires { IsConnected net.now }
    ensures { IfOk result
        (λ labels. AreRight (saying_level R.level_label net.now) net.now labels.items) }
{
    is_valid(net);
    let levels = levels(alloc, net, 0)?;
    let labels = labels_of_levels::<R>(alloc, &levels)?;
    Ok(labels)
}

// A node without a level gets level 0.
fn labels_of_levels<R: SaysLevels>(
    alloc: Global,
    levels: &[Option<u32>],
) -> Result<Vec<<R::Format as Format>::Label>, NoMemory>
    ensures { IfOk result (λ labels.
        labels.items ≡ map (λ level. R.level_label (unwrap_or level 0)) levels.now) }
{
    let labels = levels
        .iter()
        .map(|level| R::level_label(level.unwrap_or(0)))
        .collect(alloc)?;
    Ok(labels)
}
