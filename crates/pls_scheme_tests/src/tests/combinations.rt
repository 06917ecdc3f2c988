//! Schemes joined by `and` and `or`, and expressions of them as texts.

ghost use Rattle.std.specs.Prelude.{◌≡◌, ◌+◌, ◌<◌, ◌≤◌, IfOk, length};
ghost use Rattle.pls_configuration.specs.Walk.{IsConnected};

use super::connected_network;
use pls_bits::{Bits, Gamma};
use pls_colour::{Acyclic, Bipartite};
use pls_combine::AnyScheme;
use pls_expressions::ExpressionTree;
use pls_graph::Network;
use pls_labelfile::read_labels;
use pls_labels::{LabelStore, View};
use pls_pairs::{Both, OneOf};
use pls_pointer::Tree;
use pls_scheme::{Checker, Scheme, Verdict, are_accepted};
use pls_scheme_text::{SchemeError, print_expression, read_expression};
use pls_streams::{NoMemory, Steps};
use std::alloc::Global;
use std::test::Fail;

// Two nodes with an edge.
const PAIR: &str = "network\nnode 1 - 0 0\nport 2 1\nnode 2 - 0 0\nport 1 1\nend\n";

// Three nodes, each joined to the others, without pointers.
const TRIANGLE: &str = "network\nnode 1 - 0 0\nport 2 7\nport 3 7\nnode 2 - 0 0\nport 1 7\n\
                        port 3 7\nnode 3 - 0 0\nport 1 7\nport 2 7\nend\n";

// Checks the labels on two nodes in hex, the bound there, and that all accept.
fn marks_as<S: Scheme>(
    alloc: Global,
    scheme: &S,
    texts: [&str; 2],
    bound: u64,
) -> Result<bool, Fail> {
    let net = connected_network(alloc, PAIR)?;
    Ok(scheme.bound(&net.size()) == bound && marks(alloc, scheme, &net, texts)?)
}

// As `marks_as`, without the bound; the network must have two nodes.
fn marks<S: Scheme>(
    alloc: Global,
    scheme: &S,
    net: &Network,
    texts: [&str; 2],
) -> Result<bool, Fail>
    requires { IsConnected net.now }
{
    match scheme.mark(alloc, net)? {
        Some(labels) => are_accepted_as(alloc, scheme, net, &labels, texts),
        None => Err(Fail::from("not marked")),
    }
}

// Whether both nodes accept the labels, and these are `texts` in hex.
fn are_accepted_as<K: Checker>(
    alloc: Global,
    checker: &K,
    net: &Network,
    labels: &LabelStore,
    texts: [&str; 2],
) -> Result<bool, Fail>
    requires { length labels.now ≡ length net.now }
{
    if labels.len() != 2 {
        return Err(Fail::from("not two labels"));
    }
    let [first, second] = texts;
    Ok(
        is_hex(alloc, labels.bits(0), first)?
            && is_hex(alloc, labels.bits(1), second)?
            && are_accepted(alloc, checker, net, labels, &mut Steps::new())?,
    )
}

fn is_hex(alloc: Global, bits: Bits<'_>, digits: &str) -> Result<bool, NoMemory> {
    Ok(bits.to_hex(alloc)?.as_str() == digits)
}

// As `marks_as`, for the conjunction of two schemes.
fn both_mark_as<A: Scheme + Drop, B: Scheme + Drop>(
    alloc: Global,
    first: A,
    second: B,
    texts: [&str; 2],
    bound: u64,
) -> Result<bool, Fail>
    requires { A.leaves first + B.leaves second ≤ 8 }
{
    marks_as(
        alloc,
        &Both::<A, B, Gamma>::new(first, second),
        texts,
        bound,
    )
}

// As `marks_as`, for the disjunction of that conjunction and a third scheme.
fn one_of_both_marks_as<A: Scheme + Drop, B: Scheme + Drop, C: Scheme + Drop>(
    alloc: Global,
    first: A,
    second: B,
    third: C,
    texts: [&str; 2],
    bound: u64,
) -> Result<bool, Fail>
    requires { A.leaves first + B.leaves second + C.leaves third ≤ 8 }
{
    let both = Both::<A, B, Gamma>::new(first, second);
    marks_as(alloc, &OneOf::new(both, third), texts, bound)
}

#[test]
fn a_conjunction_is_marked(rt: HostRuntime) -> Result<(), Fail> {
    let (first, second) = (Bipartite::<Gamma>::new(), Acyclic::<Gamma>::new());
    assert!(rt;
        both_mark_as(rt.alloc(), first, second, ["48", "54"], 7)?,
        "as by hand"
    );
    Ok(())
}

#[test]
fn a_disjunction_of_a_conjunction_is_marked(rt: HostRuntime) -> Result<(), Fail> {
    let (first, second) = (Bipartite::<Gamma>::new(), Acyclic::<Gamma>::new());
    let third = Tree::<Gamma>::new();
    assert!(rt;
        one_of_both_marks_as(rt.alloc(), first, second, third, ["24", "2a"], 8)?,
        "behind the tag 0"
    );
    Ok(())
}

fn scheme_of(alloc: Global, text: &str) -> Result<AnyScheme<Gamma>, Fail> {
    match read_expression(alloc, text) {
        Ok(tree) => Ok(AnyScheme::new(tree)),
        Err(_) => Err(Fail::from("not read")),
    }
}

fn text_marks_as(alloc: Global, text: &str, texts: [&str; 2], bound: u64) -> Result<bool, Fail> {
    marks_as(alloc, &scheme_of(alloc, text)?, texts, bound)
}

// Expressions, the labels of two nodes, and the bound.
const MARKED: &[(&str, [&str; 2], u64)] = &[
    ("and(bipartite,acyclic)", ["48", "54"], 7),
    ("or(and(bipartite,acyclic),tree)", ["24", "2a"], 8),
    ("or(tree,bipartite)", ["80", "c0"], 7),
    ("map(diameter:1)", ["4d74d3e920", "6d74d3e920"], 40),
    (
        "or(map(tree),map(or(mst,bipartite)))",
        ["a6ba69f490", "b6ba69f490"],
        41,
    ),
];

#[test]
fn expressions_mark_as_what_they_say(rt: HostRuntime) -> Result<(), Fail> {
    for (text, labels, bound) in MARKED {
        assert!(rt; text_marks_as(rt.alloc(), text, *labels, *bound)?, "{text}");
    }
    Ok(())
}

fn is_printed_as(alloc: Global, tree: &ExpressionTree, text: &str) -> Result<bool, NoMemory> {
    Ok(print_expression(alloc, tree)?.as_str() == text)
}

// `None` where the text is read, and printed as it was.
fn refusal(alloc: Global, text: &str) -> Result<Option<SchemeError>, Fail> {
    match read_expression(alloc, text) {
        Ok(tree) => match is_printed_as(alloc, &tree, text)? {
            true => Ok(None),
            false => Err(Fail::from("printed in another way")),
        },
        Err(error) => Ok(Some(error)),
    }
}

// Texts, and why they are refused, or `None` where they are not.
const TEXTS: &[(&str, Option<SchemeError>)] = &[
    ("leader", None),
    ("spt", None),
    (
        "and(tree,or(tree,and(tree,or(tree,and(tree,or(tree,and(tree,spt)))))))",
        None,
    ),
    (
        "and(and(and(tree,tree),and(tree,tree)),and(and(tree,tree),and(tree,tree)))",
        None,
    ),
    ("", Some(SchemeError::NotAScheme)),
    ("trees", Some(SchemeError::NotAScheme)),
    ("and(tree,)", Some(SchemeError::NotAScheme)),
    ("and(tree,tree", Some(SchemeError::NotAScheme)),
    ("and(tree, tree)", Some(SchemeError::NotAScheme)),
    ("map(tree)", None),
    ("map(diameter:0)", None),
    ("or(map(and(or(bridgeless,spt),diameter:32767)),mst)", None),
    ("map(diameter:32768)", Some(SchemeError::NotAScheme)),
    ("map(diameter:01)", Some(SchemeError::NotAScheme)),
    ("map(diameter:)", Some(SchemeError::NotAScheme)),
    ("map(and(tree,diameter:1x))", Some(SchemeError::NotAScheme)),
    ("map(map(tree))", Some(SchemeError::NotAScheme)),
    ("bridgeless", Some(SchemeError::NotAScheme)),
    (
        "map(and(tree,or(tree,and(tree,or(tree,and(tree,or(tree,and(tree,spt))))))))",
        Some(SchemeError::TooDeep),
    ),
    (
        "and(tree,map(or(or(or(mst,spt),or(mst,spt)),or(or(mst,spt),or(mst,spt)))))",
        Some(SchemeError::TooMany),
    ),
    (
        "and(and(and(and(and(and(and(and(",
        Some(SchemeError::TooDeep),
    ),
    ("))))))))((((((((", Some(SchemeError::TooDeep)),
    ("()()()()()()()()", Some(SchemeError::NotAScheme)),
    (
        "and(and(and(tree,tree),and(tree,tree)),and(and(tree,tree),and(tree,and(tree,tree))))",
        Some(SchemeError::TooMany),
    ),
];

#[test]
fn texts_are_read_and_printed_or_refused(rt: HostRuntime) -> Result<(), Fail> {
    for (text, wanted) in TEXTS {
        assert!(rt; refusal(rt.alloc(), text)? == *wanted, "{text}");
    }
    Ok(())
}

// Each label as its length and its digits.
fn labels_of(alloc: Global, net: &Network, labels: [&str; 3]) -> Result<LabelStore, Fail>
    ensures { IfOk result (λ store. length store ≡ length net.now) }
{
    let [first, second, third] = labels;
    let lines = format!(in alloc;
        "labels\nlabel 1 {first}\nlabel 2 {second}\nlabel 3 {third}\nend\n"
    )?;
    match read_labels(alloc, lines.as_bytes(), net) {
        Ok((_, store)) => Ok(store),
        Err(_) => Err(Fail::from("labels refused")),
    }
}

// The verdict of the first node, `None` where there is no node.
fn verdict_in_round<K: Checker>(
    alloc: Global,
    checker: &K,
    net: &Network,
    labels: &LabelStore,
) -> Result<Option<Verdict>, NoMemory>
    requires { length labels.now ≡ length net.now }
{
    let verdicts = checker.round(alloc, net, labels, &mut Steps::new())?;
    Ok(verdicts.first().copied())
}

fn verdict_alone<K: Checker>(
    alloc: Global,
    checker: &K,
    net: &Network,
    labels: &LabelStore,
) -> Result<Verdict, NoMemory>
    requires each { length labels.now ≡ length net.now }
    requires some { 0 < length net.now }
{
    let view = View::of(alloc, net, labels, 0)?;
    checker.verify(alloc, &view, &mut Steps::new())
}

// The verdict of the first node; fails unless the round and its view alone agree.
fn verdict<K: Checker>(
    alloc: Global,
    checker: &K,
    net: &Network,
    labels: &LabelStore,
) -> Result<Verdict, Fail>
    requires { length labels.now ≡ length net.now }
{
    if net.len() == 0 {
        return Err(Fail::from("no node"));
    }
    let verdict = verdict_alone(alloc, checker, net, labels)?;
    if verdict_in_round(alloc, checker, net, labels)? == Some(verdict) {
        Ok(verdict)
    } else {
        Err(Fail::from("another verdict on the view alone"))
    }
}

// As `verdict`, on the first of three nodes with these labels.
fn first_verdict<K: Checker>(
    alloc: Global,
    checker: &K,
    labels: [&str; 3],
) -> Result<Verdict, Fail> {
    let net = connected_network(alloc, TRIANGLE)?;
    let store = labels_of(alloc, &net, labels)?;
    verdict(alloc, checker, &net, &store)
}

fn verdict_of_text(alloc: Global, text: &str, labels: [&str; 3]) -> Result<Verdict, Fail> {
    first_verdict(alloc, &scheme_of(alloc, text)?, labels)
}

// The labels of three nodes, and the leaf and the rule by which the first rejects a disjunction.
const REJECTED: &[([&str; 3], u8, u8)] = &[
    (["0 -", "1 00", "1 00"], 0, 1),
    (["2 00", "0 -", "1 00"], 0, 2),
    (["2 00", "1 00", "1 80"], 0, 3),
    (["2 00", "2 00", "2 40"], 1, 3),
    (["3 c0", "3 80", "3 c0"], 0, 3),
    (["3 c0", "3 c0", "3 e0"], 3, 3),
];

// The same for a conjunction.
const BOTH_REJECTED: &[([&str; 3], u8, u8)] = &[
    (["0 -", "5 40", "5 40"], 0, 1),
    (["5 40", "0 -", "5 40"], 0, 2),
    (["5 40", "5 48", "5 58"], 1, 3),
    (["5 40", "5 50", "5 50"], 2, 3),
    (["5 40", "5 58", "4 50"], 2, 2),
];

#[test]
fn rejections_name_the_leaf(rt: HostRuntime) -> Result<(), Fail> {
    let one_of = "or(bipartite,or(acyclic,bipartite))";
    let both = "and(bipartite,bipartite)";
    for (text, rows) in [(one_of, REJECTED), (both, BOTH_REJECTED)] {
        for (labels, leaf, rule) in rows {
            let (leaf, rule) = (*leaf, *rule);
            let verdict = verdict_of_text(rt.alloc(), text, *labels)?;
            let due = Verdict::Reject { leaf, rule };
            assert!(rt; verdict == due, "{text}: leaf {leaf}, rule {rule}");
        }
    }
    Ok(())
}
