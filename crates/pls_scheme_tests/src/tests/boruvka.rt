//! Borůvka's levels of small trees, and the names of fragments.

use super::{ALONE, HEAVY, RING, TRIANGLE, network};
use pls_bits::Gamma;
use pls_boruvka::{LevelList, LevelLists, boruvka_levels, fragments};
use pls_graph::{Network, node_apart};
use pls_pointer::Tree;
use pls_scheme::Property;
use pls_search::pointer_depths;
use std::alloc::Global;
use std::test::Fail;

// Appends fragment, weight and ends of each level, with a bar behind it.
fn put_levels(alloc: Global, text: &mut String, list: &LevelList) -> Result<(), Fail> {
    for i in 0..list.len() {
        let level = list.at(i);
        let part = format!(in alloc;
            "{} {} {} {}|",
            level.fragment, level.weight, level.a, level.b
        )?;
        text.push_str(&part)?;
    }
    Ok(text.push_str("\n")?)
}

// The levels of each node, one line a node.
fn text_of(alloc: Global, lists: &LevelLists) -> Result<String, Fail> {
    let mut text = String::new(alloc);
    for place in 0..lists.len() {
        put_levels(alloc, &mut text, &lists.at(place)?)?;
    }
    Ok(text)
}

// The levels as text, or `lighter` where some spanning tree is lighter.
fn levels_of(alloc: Global, net: &Network) -> Result<String, Fail> {
    let tree = Tree::<Gamma>::new();
    if node_apart(alloc, net)?.is_some() || !tree.decide(alloc, net)? {
        return Err(Fail::from("no tree"));
    }
    match boruvka_levels(alloc, net)? {
        Some(lists) => text_of(alloc, &lists),
        None => Ok(format!(in alloc; "lighter")?),
    }
}

// The fragments' names; fails on a circle of pointers.
fn names_of(alloc: Global, net: &Network, joined: &[bool]) -> Result<Vec<u32>, Fail> {
    if pointer_depths(alloc, net)?.is_none() || joined.len() != net.len() {
        return Err(Fail::from("a circle, or other nodes"));
    }
    Ok(fragments(alloc, net, joined)?)
}

fn are_names(alloc: Global, net: &Network, joined: &[bool], due: &[u32]) -> Result<bool, Fail> {
    Ok(names_of(alloc, net, joined)?.as_slice() == due)
}

// Networks, and the levels of their nodes.
const LEVELS: &[(&str, &str)] = &[
    (ALONE, "\n"),
    (TRIANGLE, "1 7 1 2|\n2 7 1 2|\n3 7 2 3|\n"),
    (HEAVY, "lighter"),
    (
        RING,
        "1 1 1 2|1 5 2 3|\n2 1 1 2|1 5 2 3|\n3 1 3 4|3 5 2 3|\n4 1 3 4|3 5 2 3|\n",
    ),
];

#[test]
fn levels_of_small_trees(rt: HostRuntime) -> Result<(), Fail> {
    for (text, due) in LEVELS {
        let net = network(rt.alloc(), text)?;
        assert!(rt;
            levels_of(rt.alloc(), &net)?.as_str() == *due,
            "levels of {text}"
        );
    }
    Ok(())
}

// Which nodes of the ring are joined to the one that they point at, and the names of the fragments:
// none, those of pairs, the root too, the last two.
const FRAGMENTS: &[([bool; 4], [u32; 4])] = &[
    ([false, false, false, false], [1, 2, 3, 4]),
    ([false, true, false, true], [1, 1, 3, 3]),
    ([true, true, true, true], [1, 1, 1, 1]),
    ([false, false, true, true], [1, 2, 2, 2]),
];

#[test]
fn fragments_are_named_by_the_ends_of_chains(rt: HostRuntime) -> Result<(), Fail> {
    let net = network(rt.alloc(), RING)?;
    for (joined, due) in FRAGMENTS {
        assert!(rt; are_names(rt.alloc(), &net, joined, due)?, "names of four");
    }
    Ok(())
}
