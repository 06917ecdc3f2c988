//! Checkers that are made of others and nested in each other, and a scheme of these tests' own.

ghost use Rattle.std.specs.Prelude.{◌≡◌, ◌+◌, ◌≤◌, IfOk, length};
ghost use Rattle.pls_configuration.specs.Walk.{IsConnected};

use super::connected_network;
use crate::IndependentSet;
use pls_bits::Gamma;
use pls_graph::Network;
use pls_labels::{LabelStore, View};
use pls_pointer::{Forest, Tree};
use pls_scheme::{Checker, Scheme, Verdict, are_accepted};
use pls_streams::{NoMemory, Steps};
use std::alloc::Global;
use std::test::Fail;

// Two checkers: a view is accepted where both accept it.
#[derive(Drop)]
struct Pair<A: Checker, B: Checker> {
    first: A,
    second: B,
    ghost few: { A.leaves first + B.leaves second ≤ 8 },
}

impl<A: Checker, B: Checker> Checker for Pair<A, B> {
    ghost use Rattle.std.specs.Prelude.{◌+◌, true, false};
    ghost use Rattle.pls_scheme_tests.specs.Pair.{both_accept, leaf_of_both};

    ghost judge = { λ s view. both_accept (A.judge s.first view) (B.judge s.second view) };

    ghost leaves = { λ s. A.leaves s.first + B.leaves s.second };

    ghost lends = { λ _. false };

    ghost TAKES_MEMORY = { true };

    const TAKES_MEMORY: bool = true;

    fn leaves(&self) -> u8 {
        self.first.leaves() + self.second.leaves()
    }

    fn lends(&self) -> bool {
        false
    }

    fn verify(
        &self,
        alloc: Global,
        view: &View<'_>,
        steps: &mut Steps,
    ) -> Result<Verdict, NoMemory> {
        steps.tick();
        match self.first.verify(alloc, view, &mut Steps::new())? {
            Verdict::Accept => self.second.verify(alloc, view, &mut Steps::new()),
            Verdict::Reject { leaf, rule } => Ok(Verdict::Reject { leaf, rule }),
        }
    }

    ghost leaf_law = { λ s view. leaf_of_both (A.leaves s.first) (B.leaves s.second)
        (A.judge s.first view) (B.judge s.second view) (A.leaf_law s.first view)
        (B.leaf_law s.second view) };

    ghost lends_law = { λ _ never. absurd (cc) };
}

// Three nodes in a row with these marks, and the pointers of a tree.
fn row(alloc: Global, marks: [u32; 3]) -> Result<Network, Fail>
    ensures { IfOk result (λ net. IsConnected net) }
{
    let text = format!(in alloc;
        "network\nnode 1 - {} 0\nport 2 1\nnode 2 0 {} 0\nport 1 1\nport 3 2\n\
         node 3 0 {} 0\nport 2 2\nend\n",
        marks[0], marks[1], marks[2]
    )?;
    connected_network(alloc, &text)
}

// Whether all nodes accept, and the steps taken.
fn accepts<V: Checker>(
    alloc: Global,
    checker: &V,
    net: &Network,
    labels: &LabelStore,
) -> Result<(bool, u64), NoMemory>
    requires { length labels.now ≡ length net.now }
{
    let mut steps = Steps::new();
    let accepted = are_accepted(alloc, checker, net, labels, &mut steps)?;
    Ok((accepted, steps.number()))
}

fn accepts_tree<V: Checker>(alloc: Global, checker: &V, net: &Network) -> Result<(bool, u64), Fail>
    requires { IsConnected net.now }
{
    match Tree::<Gamma>::new().mark(alloc, net)? {
        Some(labels) => Ok(accepts(alloc, checker, net, &labels)?),
        None => Err(Fail::from("no tree")),
    }
}

fn accepts_row<V: Checker>(alloc: Global, checker: &V) -> Result<(bool, u64), Fail> {
    accepts_tree(alloc, checker, &row(alloc, [0, 0, 0])?)
}

// As `accepts_row`, for a pair of a pair and a third checker.
fn pairs_accept<A: Checker + Drop, B: Checker + Drop, C: Checker + Drop>(
    alloc: Global,
    first: A,
    second: B,
    third: C,
) -> Result<(bool, u64), Fail>
    requires { A.leaves first + B.leaves second + C.leaves third ≤ 8 }
{
    let pair = Pair { first, second };
    let pairs = Pair {
        first: pair,
        second: third,
    };
    accepts_row(alloc, &pairs)
}

#[test]
fn pairs_of_pairs_judge(rt: HostRuntime) -> Result<(), Fail> {
    let (first, second) = (Tree::<Gamma>::new(), Tree::<Gamma>::new());
    let third = Tree::<Gamma>::new();
    let trees = pairs_accept(rt.alloc(), first, second, third)?;
    assert!(rt; trees == (true, 3), "trees, and one step a node");
    let (first, second) = (Tree::<Gamma>::new(), Forest::<Gamma>::new());
    let third = Pair {
        first: Tree::<Gamma>::new(),
        second: Tree::<Gamma>::new(),
    };
    let mixed = pairs_accept(rt.alloc(), first, second, third)?;
    assert!(rt; mixed == (false, 3), "a forest too");
    Ok(())
}

// The marks of three nodes in a row, and the bits of all labels where they are a maximal
// independent set.
const MARKS: &[([u32; 3], Option<u64>)] = &[
    ([1, 0, 1], Some(7)),
    ([0, 1, 0], Some(5)),
    ([5, 1, 2], Some(11)),
    ([1, 1, 0], None),
    ([1, 0, 0], None),
    ([0, 0, 0], None),
];

// The bits of all labels together, `None` where the network is not marked.
fn marked_bits(alloc: Global, marks: [u32; 3]) -> Result<Option<u64>, Fail> {
    let net = row(alloc, marks)?;
    let marked = IndependentSet::<Gamma>::new().mark(alloc, &net)?;
    Ok(marked.map(|labels| labels.total()))
}

#[test]
fn maximal_independent_sets_are_marked(rt: HostRuntime) -> Result<(), Fail> {
    for (marks, bits) in MARKS {
        assert!(rt;
            marked_bits(rt.alloc(), *marks)? == *bits,
            "marks {} {} {}",
            marks[0],
            marks[1],
            marks[2]
        );
    }
    Ok(())
}
