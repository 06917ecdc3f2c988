//! The universal scheme: the verdict of each rule, and how often a round asks the property.

use pls_bits::{BitBuf, Gamma};
use pls_diameter_bridges::Diameter;
use pls_graph::Network;
use pls_labels::{LabelStore, View};
use pls_netfile::read_network;
use pls_scheme::{Checker, Property, Verdict};
use pls_streams::{NoMemory, Steps};
use pls_universal::{MapOf, PropertyTest, map_labels};
use std::alloc::Global;
use std::cell::Cell;
use std::test::Fail;

// Four nodes in a row, the same with another mark, in a ring, and in two parts.
const ROW: &str = "network\nnode 1 - 0 0\nport 2 1\nnode 2 - 0 0\nport 1 1\nport 3 1\n\
                   node 3 - 0 0\nport 2 1\nport 4 1\nnode 4 - 0 0\nport 3 1\nend\n";

const MARKED: &str = "network\nnode 1 - 0 0\nport 2 1\nnode 2 - 0 0\nport 1 1\nport 3 1\n\
                      node 3 - 5 0\nport 2 1\nport 4 1\nnode 4 - 0 0\nport 3 1\nend\n";

const ROUND: &str = "network\nnode 1 - 0 0\nport 2 1\nport 4 1\nnode 2 - 0 0\nport 1 1\nport 3 1\n\
                     node 3 - 0 0\nport 2 1\nport 4 1\nnode 4 - 0 0\nport 3 1\nport 1 1\nend\n";

const PARTS: &str = "network\nnode 1 - 0 0\nport 2 1\nnode 2 - 0 0\nport 1 1\n\
                     node 3 - 0 0\nport 4 1\nnode 4 - 0 0\nport 3 1\nend\n";

// A diameter, and how often it was asked for.
#[derive(Drop)]
struct CountedDiameter {
    property: Diameter,
    asked: Cell<u32>,
}

impl Property for CountedDiameter {
    ghost use Rattle.pls_diameter_bridges.specs.Diameter.{HasDiameterAtMost};

    ghost holds = { λ s. HasDiameterAtMost s.property.most };

    fn decide(&self, alloc: Global, net: &Network) -> Result<bool, NoMemory> {
        self.asked.set(self.asked.get().wrapping_add(1));
        self.property.decide(alloc, net)
    }
}

impl PropertyTest for CountedDiameter {
    ghost use Rattle.pls_diameter_bridges.specs.Tests.{diameter_test};
    ghost use Rattle.pls_diameter_bridges.specs.laws.TestLaws.{diameter_tested};

    ghost test = { λ s rows. diameter_test s.property.most rows };

    ghost test_law = { λ s rows _ _. diameter_tested s.property.most rows };
}

// The universal scheme of the property that the diameter is at most `most`.
fn scheme(most: u32) -> MapOf<CountedDiameter, Gamma> {
    let property = Diameter::new(most);
    let asked = Cell::new(0);
    MapOf::new(CountedDiameter { property, asked })
}

fn network(alloc: Global, text: &str) -> Result<Network, Fail> {
    match read_network(alloc, text.as_bytes()) {
        Ok(net) => Ok(net),
        Err(_) => Err(Fail::from("refused")),
    }
}

// A ring of ten nodes, all with this mark.
fn ring(alloc: Global, mark: u32) -> Result<Network, Fail> {
    let mut text = String::from_str(alloc, "network\n")?;
    for id in 1..11u32 {
        let before = if id == 1 { 10 } else { id - 1 };
        let behind = if id == 10 { 1 } else { id + 1 };
        let node = format!(in alloc; "node {id} - {mark} 0\nport {before} 1\nport {behind} 1\n")?;
        text.push_str(node.as_str())?;
    }
    text.push_str("end\n")?;
    network(alloc, text.as_str())
}

// Counts `each` labels a store, from 0; the label is empty where no store has the number.
fn label_of_number(
    alloc: Global,
    stores: &[LabelStore],
    each: usize,
    number: usize,
) -> Result<BitBuf, NoMemory> {
    let mut label = BitBuf::new(alloc);
    let place = number.checked_rem(each).unwrap_or(0);
    match stores.get(number.checked_div(each).unwrap_or(0)) {
        Some(store) if place < store.len() => label.append(store.bits(place))?,
        _ => {}
    }
    Ok(label)
}

fn labels_of_numbers(
    alloc: Global,
    stores: &[LabelStore],
    each: usize,
    numbers: &[usize],
) -> Result<LabelStore, Fail> {
    let mut labels = LabelStore::blank(alloc, numbers.len())?;
    for (i, number) in numbers.iter().enumerate() {
        let label = label_of_number(alloc, stores, each, *number)?;
        if i < labels.len() {
            labels.replace(i, &label)?;
        }
    }
    Ok(labels)
}

fn rings(alloc: Global) -> Result<Vec<LabelStore>, Fail> {
    let mut stores = Vec::new(alloc);
    for mark in 0..5u32 {
        let net = ring(alloc, mark)?;
        stores.push(map_labels::<Gamma>(alloc, &net)?)?;
    }
    Ok(stores)
}

// The rule by which each node rejects, 0 where it accepts.
fn rules(
    alloc: Global,
    scheme: &MapOf<CountedDiameter, Gamma>,
    net: &Network,
    labels: &LabelStore,
) -> Result<Vec<u8>, Fail> {
    if labels.len() != net.len() {
        return Err(Fail::from("not one label a node"));
    }
    let mut rules = Vec::new(alloc);
    for verdict in &scheme.round(alloc, net, labels, &mut Steps::new())? {
        rules.push(rule_of(*verdict))?;
    }
    Ok(rules)
}

// 0 where the verdict accepts.
fn rule_of(verdict: Verdict) -> u8 {
    match verdict {
        Verdict::Accept => 0,
        Verdict::Reject { leaf: _, rule } => rule,
    }
}

// The labels of `ROW`, then those of the network in `text`.
fn both(alloc: Global, text: &str) -> Result<Vec<LabelStore>, Fail> {
    let mut stores = Vec::new(alloc);
    stores.push(map_labels::<Gamma>(alloc, &network(alloc, ROW)?)?)?;
    stores.push(map_labels::<Gamma>(alloc, &network(alloc, text)?)?)?;
    Ok(stores)
}

// Another network, the greatest diameter, the numbers of the labels that the row gets, and the
// rules by which its nodes reject: its own maps, too many edges between nodes, another mark,
// another degree, two parts, another node's label, no label, two maps.
const NAMED: &[(&str, u32, [usize; 4], [u8; 4])] = &[
    (ROW, 3, [0, 1, 2, 3], [0, 0, 0, 0]),
    (ROW, 2, [0, 1, 2, 3], [7, 7, 7, 7]),
    (MARKED, 3, [4, 5, 6, 7], [0, 0, 6, 0]),
    (ROUND, 3, [4, 5, 6, 7], [6, 0, 0, 6]),
    (PARTS, 3, [4, 5, 6, 7], [5, 5, 5, 5]),
    (ROW, 3, [1, 0, 2, 3], [3, 3, 6, 0]),
    (ROW, 3, [0, 9, 2, 3], [2, 1, 2, 0]),
    (MARKED, 3, [0, 1, 2, 7], [0, 0, 4, 4]),
];

#[test]
fn each_rule_is_named(rt: HostRuntime) -> Result<(), Fail> {
    let net = network(rt.alloc(), ROW)?;
    for (text, most, numbers, due) in NAMED {
        let stores = both(rt.alloc(), text)?;
        let labels = labels_of_numbers(rt.alloc(), &stores, 4, numbers)?;
        let found = rules(rt.alloc(), &scheme(*most), &net, &labels)?;
        assert!(rt;
            found.as_slice() == due.as_slice(),
            "{most}, labels of {text}"
        );
    }
    Ok(())
}

// The numbers of the labels that a ring gets, the rule by which its nodes reject, and how many maps
// are decided: one map, two in turn, five, each twice.
const DECIDED: &[([usize; 10], u8, u32)] = &[
    ([0, 1, 2, 3, 4, 5, 6, 7, 8, 9], 0, 1),
    ([0, 11, 2, 13, 4, 15, 6, 17, 8, 19], 4, 2),
    ([30, 11, 42, 3, 24, 45, 26, 7, 18, 39], 4, 5),
];

#[test]
fn a_map_is_decided_once(rt: HostRuntime) -> Result<(), Fail> {
    let net = ring(rt.alloc(), 0)?;
    let stores = rings(rt.alloc())?;
    for (numbers, rule, asked) in DECIDED {
        let labels = labels_of_numbers(rt.alloc(), &stores, 10, numbers)?;
        let scheme = scheme(5);
        let found = rules(rt.alloc(), &scheme, &net, &labels)?;
        assert!(rt; found.as_slice() == [*rule; 10].as_slice(), "{asked} maps");
        assert!(rt; scheme.property.asked.get() == *asked, "{asked} maps");
    }
    Ok(())
}

// As `rules`, but view by view instead of in a round.
fn rules_singly(
    alloc: Global,
    scheme: &MapOf<CountedDiameter, Gamma>,
    net: &Network,
    labels: &LabelStore,
) -> Result<Vec<u8>, Fail> {
    let mut rules = Vec::new(alloc);
    for i in 0..net.len() {
        if labels.len() == net.len() {
            let view = View::of(alloc, net, labels, i)?;
            let verdict = scheme.verify(alloc, &view, &mut Steps::new())?;
            rules.push(rule_of(verdict))?;
        }
    }
    Ok(rules)
}

#[test]
fn a_view_is_judged_as_in_the_round(rt: HostRuntime) -> Result<(), Fail> {
    let net = ring(rt.alloc(), 0)?;
    let stores = rings(rt.alloc())?;
    let labels = labels_of_numbers(rt.alloc(), &stores, 10, &[0, 1, 12, 3, 4, 6, 5, 7, 99, 9])?;
    let scheme = scheme(5);
    let found = rules(rt.alloc(), &scheme, &net, &labels)?;
    let singly = rules_singly(rt.alloc(), &scheme, &net, &labels)?;
    let due = [0, 4, 4, 4, 6, 3, 3, 2, 1, 2];
    assert!(rt; found.as_slice() == due.as_slice(), "in the round");
    assert!(rt; singly.as_slice() == due.as_slice(), "view by view");
    Ok(())
}
