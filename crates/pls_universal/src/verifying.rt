//! The verdict of a node on its view, where its map was read before.

ghost use Rattle.std.specs.Prelude.{◌≡◌, Bool, List, Some, IfOk};
ghost use Rattle.pls_configuration.specs.declared.row.NodeRow.{NodeRow};
ghost use Rattle.pls_numbers.specs.Shape.{said_by};
ghost use Rattle.pls_scheme.specs.Reading.{judge_by};
ghost use Rattle.pls_universal.specs.declared.map.MapLabel.{MapLabel};
ghost use Rattle.pls_universal.specs.declared.map.MapRow.{MapRow};
ghost use Rattle.pls_universal.specs.Reading.{map_shape, rows_shape};
ghost use Rattle.pls_universal.specs.Rules.{map_rules, matched, same_state};
ghost use Rattle.pls_universal.specs.inner.Stating.{IsStated};
ghost use Rattle.pls_universal.specs.inner.Verifying.{agreement, has_node, is_called, is_port_seen, ports_shown, same_map};

use crate::format::MapFormat;
use crate::stating::StatedNetwork;
use pls_bits::{Bits, NumCode};
use pls_configuration::Verdict;
use pls_graph::{Network, Port, State};
use pls_labels::{PortView, View};
use pls_numbers::Format;
use pls_scheme::judged_from;
use pls_streams::NoMemory;
use std::alloc::Global;

// `stated` is what the map in the node's own label states.
pub(crate) fn verdict_on<C: NumCode>(
    alloc: Global,
    stated: &Option<StatedNetwork>,
    view: &View<'_>,
) -> Result<Verdict, NoMemory>
    ensures { IfOk result (λ verdict. (test : List NodeRow → Bool) (own : MapLabel)
        → said_by map_shape C.takes view.now.own ≡ Some own → IsStated test own.rows stated.now
        → verdict ≡ judge_by (said_by map_shape C.takes) (map_rules test) view.now) }
{
    let Some((own, map)) = parts::<C>(&view.own) else {
        return Ok(Verdict::Reject { leaf: 1, rule: 1 });
    };
    let Some(agrees) = agreement::<C>(alloc, &map, &view.ports)? else {
        return Ok(Verdict::Reject { leaf: 1, rule: 2 });
    };
    let itself = own == u64::from(view.id);
    Ok(match stated {
        Some(stated) => {
            let here = has_node::<C>(&stated.net, view);
            judged_from(3, &[itself, agrees, true, here, stated.has_property])
        }
        None => judged_from(3, &[itself, agrees, false]),
    })
}

// The number in front and the map behind it; `None` where no number comes first.
pub(crate) fn parts<'a, C: NumCode>(label: &Bits<'a>) -> Option<(u64, Bits<'a>)>
    ensures { result ≡ C.takes label.now }
{
    let mut cursor = label.cursor();
    let own = C::read(&mut cursor)?;
    Some((own, cursor.rest()))
}

// Whether each port's label has this map; `None` where one cannot be read.
fn agreement<C: NumCode>(
    alloc: Global,
    map: &Bits<'_>,
    ports: &[PortView<'_>],
) -> Result<Option<bool>, NoMemory>
    ensures { IfOk result (λ found. (rows : List MapRow)
        → said_by rows_shape C.takes map.now ≡ Some rows
        → found ≡ agreement C.takes rows (ports_shown ports.now)) }
{
    let mut agrees = true;
    for port in ports {
        let Some(same) = same_map::<C>(alloc, map, &port.label)? else {
            return Ok(None);
        };
        agrees &= same;
    }
    Ok(Some(agrees))
}

// `None` where the label cannot be read; a map of equal bits is not read again.
fn same_map<C: NumCode>(
    alloc: Global,
    map: &Bits<'_>,
    label: &Bits<'_>,
) -> Result<Option<bool>, NoMemory>
    ensures { IfOk result (λ found. (rows : List MapRow)
        → said_by rows_shape C.takes map.now ≡ Some rows
        → found ≡ same_map C.takes rows label.now) }
{
    let Some((_, other)) = parts::<C>(label) else {
        return Ok(None);
    };
    if map.equal(other) {
        return Ok(Some(true));
    }
    let Some(_) = MapFormat.read::<C>(alloc, label)? else {
        return Ok(None);
    };
    Ok(Some(false))
}

// Compares identity, state and ports.
fn has_node<C: NumCode>(net: &Network, view: &View<'_>) -> bool
    ensures { result ≡ has_node C.takes net.now view.now }
{
    let Some(place) = net.place_of(view.id) else {
        return false;
    };
    let (_, state) = net.node(place);
    same_state(state, view.state) && same_ports::<C>(net.ports(place), &view.ports)
}

fn same_state(one: State, other: State) -> bool
    ensures { result ≡ same_state one other }
{
    one.up == other.up && one.mark == other.mark && one.num == other.num
}

// Compares weights, and neighbours with the numbers in front of the labels, in order.
fn same_ports<C: NumCode>(ports: &[Port], seen: &[PortView<'_>]) -> bool
    ensures { result ≡ matched (is_port_seen C.takes) ports.now (ports_shown seen.now) }
{
    if ports.len() != seen.len() {
        return false;
    }
    for (p, port) in ports.iter().enumerate() {
        if port.weight != seen[p].weight || !is_called::<C>(port.nbr, &seen[p].label) {
            return false;
        }
    }
    true
}

// Whether the number in front of the label is `id`.
fn is_called<C: NumCode>(id: u32, label: &Bits<'_>) -> bool
    ensures { result ≡ is_called C.takes id label.now }
{
    match parts::<C>(label) {
        Some((own, _)) => u64::from(id) == own,
        None => false,
    }
}
