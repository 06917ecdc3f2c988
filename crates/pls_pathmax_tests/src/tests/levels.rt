//! Centroid levels of small trees, worked out by a plain program, and those of large ones.

use super::connected_network;
use pls_bits::Gamma;
use pls_centroid::{CentroidLists, centroid_levels};
use pls_pointer::Tree;
use pls_scheme::Property;
use std::alloc::Global;
use std::test::Fail;

// Trees, and the levels of their nodes: centroid, hops and greatest weight, and a bar behind each.
const LEVELS: &[(&str, &str)] = &[
    ("network\nnode 50 - 0 0\nend\n", "50 0 0|\n"),
    (
        "network\nnode 18 0 0 0\nport 73 1\nnode 73 - 0 0\nport 18 1\nend\n",
        "18 0 0|\n18 1 1|73 0 0|\n",
    ),
    (
        "network\nnode 8 0 0 0\nport 12 4\nnode 11 0 0 0\nport 12 0\nnode 12 - 0 0\n\
         port 11 0\nport 8 4\nend\n",
        "12 1 4|8 0 0|\n12 1 0|11 0 0|\n12 0 0|\n",
    ),
    (
        "network\nnode 31 0 0 0\nport 76 7\nnode 70 0 0 0\nport 76 1\nnode 76 - 0 0\n\
         port 70 1\nport 31 7\nend\n",
        "76 1 7|31 0 0|\n76 1 1|70 0 0|\n76 0 0|\n",
    ),
    (
        "network\nnode 14 0 0 0\nport 39 1\nport 31 0\nnode 31 1 0 0\nport 93 6\nport 14 0\n\
         node 39 - 0 0\nport 14 1\nnode 93 0 0 0\nport 31 6\nend\n",
        "14 0 0|\n14 1 0|31 0 0|\n14 1 1|39 0 0|\n14 2 6|31 1 6|93 0 0|\n",
    ),
    (
        "network\nnode 33 0 0 0\nport 95 3\nnode 46 0 0 0\nport 80 5\nnode 80 - 0 0\n\
         port 95 2\nport 46 5\nnode 95 1 0 0\nport 33 3\nport 80 2\nend\n",
        "80 2 3|33 0 0|\n80 1 5|46 0 0|\n80 0 0|\n80 1 2|33 1 3|95 0 0|\n",
    ),
    (
        "network\nnode 11 0 0 0\nport 98 8\nnode 34 1 0 0\nport 98 3\nport 63 5\n\
         node 63 - 0 0\nport 74 4\nport 34 5\nnode 74 0 0 0\nport 63 4\nnode 98 0 0 0\n\
         port 34 3\nport 11 8\nend\n",
        "34 2 8|11 0 0|\n34 0 0|\n34 1 5|63 0 0|\n34 2 5|63 1 4|74 0 0|\n34 1 3|11 1 8|\
         98 0 0|\n",
    ),
    (
        "network\nnode 7 0 0 0\nport 51 1\nnode 20 0 0 0\nport 42 6\nnode 42 - 0 0\n\
         port 51 0\nport 20 6\nnode 51 2 0 0\nport 84 1\nport 7 1\nport 42 0\nnode 84 0 0 0\n\
         port 51 1\nend\n",
        "51 1 1|7 0 0|\n51 2 6|20 0 0|\n51 1 0|20 1 6|42 0 0|\n51 0 0|\n51 1 1|84 0 0|\n",
    ),
    (
        "network\nnode 17 0 0 0\nport 48 6\nnode 25 0 0 0\nport 48 7\nnode 30 0 0 0\n\
         port 48 0\nnode 48 - 0 0\nport 25 7\nport 30 0\nport 17 6\nport 49 7\nport 91 7\n\
         node 49 0 0 0\nport 48 7\nnode 91 0 0 0\nport 48 7\nend\n",
        "48 1 6|17 0 0|\n48 1 7|25 0 0|\n48 1 0|30 0 0|\n48 0 0|\n48 1 7|49 0 0|\n48 1 7|\
         91 0 0|\n",
    ),
    (
        "network\nnode 18 0 0 0\nport 24 6\nnode 24 - 0 0\nport 60 2\nport 48 6\nport 87 8\n\
         port 35 7\nport 18 6\nport 79 0\nnode 35 0 0 0\nport 24 7\nnode 48 0 0 0\n\
         port 24 6\nnode 60 0 0 0\nport 24 2\nnode 79 0 0 0\nport 24 0\nnode 87 0 0 0\n\
         port 24 8\nend\n",
        "24 1 6|18 0 0|\n24 0 0|\n24 1 7|35 0 0|\n24 1 6|48 0 0|\n24 1 2|60 0 0|\n24 1 0|\
         79 0 0|\n24 1 8|87 0 0|\n",
    ),
    (
        "network\nnode 2 0 0 0\nport 55 2\nport 5 5\nnode 5 0 0 0\nport 2 5\nport 62 6\n\
         node 27 - 0 0\nport 74 5\nnode 55 0 0 0\nport 63 6\nport 2 2\nnode 60 0 0 0\n\
         port 62 6\nnode 62 1 0 0\nport 60 6\nport 5 6\nnode 63 0 0 0\nport 74 0\nport 55 6\n\
         node 74 0 0 0\nport 27 5\nport 63 0\nend\n",
        "2 0 0|\n2 1 5|62 1 6|5 0 0|\n2 4 6|63 2 5|27 0 0|\n2 1 2|63 1 6|55 0 0|\n2 3 6|\
         62 1 6|60 0 0|\n2 2 6|62 0 0|\n2 2 6|63 0 0|\n2 3 6|63 1 0|27 1 5|74 0 0|\n",
    ),
    (
        "network\nnode 24 0 0 0\nport 76 0\nport 58 7\nnode 25 0 0 0\nport 72 1\n\
         node 58 0 0 0\nport 24 7\nnode 60 0 0 0\nport 61 3\nnode 61 0 0 0\nport 66 7\n\
         port 60 3\nnode 66 - 0 0\nport 72 0\nport 61 7\nport 76 0\nnode 72 1 0 0\n\
         port 25 1\nport 66 0\nnode 76 0 0 0\nport 66 0\nport 24 0\nend\n",
        "66 2 0|24 0 0|\n66 2 1|25 0 0|\n66 3 7|24 1 7|58 0 0|\n66 2 7|60 0 0|\n66 1 7|\
         60 1 3|61 0 0|\n66 0 0|\n66 1 0|25 1 1|72 0 0|\n66 1 0|24 1 0|76 0 0|\n",
    ),
    (
        "network\nnode 2 3 0 0\nport 68 2\nport 61 0\nport 19 3\nport 49 7\nnode 19 0 0 0\n\
         port 2 3\nnode 35 0 0 0\nport 86 5\nnode 45 0 0 0\nport 49 3\nnode 49 - 0 0\n\
         port 86 8\nport 45 3\nport 2 7\nnode 61 0 0 0\nport 2 0\nnode 68 0 0 0\nport 2 2\n\
         node 85 0 0 0\nport 86 6\nnode 86 1 0 0\nport 85 6\nport 49 8\nport 35 5\nend\n",
        "49 1 7|2 0 0|\n49 2 7|2 1 3|19 0 0|\n49 2 8|86 1 5|35 0 0|\n49 1 3|45 0 0|\n49 0 0|\
         \n49 2 7|2 1 0|61 0 0|\n49 2 7|2 1 2|68 0 0|\n49 2 8|86 1 6|85 0 0|\n49 1 8|86 0 0|\
         \n",
    ),
    (
        "network\nnode 19 1 0 0\nport 86 2\nport 30 7\nnode 24 0 0 0\nport 34 8\n\
         node 29 0 0 0\nport 34 5\nnode 30 0 0 0\nport 83 4\nport 34 7\nport 19 7\n\
         node 34 1 0 0\nport 24 8\nport 30 7\nport 88 5\nport 29 5\nnode 38 0 0 0\n\
         port 83 1\nport 84 5\nnode 83 - 0 0\nport 30 4\nport 38 1\nnode 84 0 0 0\n\
         port 38 5\nnode 86 0 0 0\nport 19 2\nnode 88 0 0 0\nport 34 5\nend\n",
        "30 1 7|19 0 0|\n30 2 8|34 1 8|24 0 0|\n30 2 7|34 1 5|29 0 0|\n30 0 0|\n30 1 7|\
         34 0 0|\n30 2 4|38 0 0|\n30 1 4|38 1 1|83 0 0|\n30 3 5|38 1 5|84 0 0|\n30 2 7|\
         19 1 2|86 0 0|\n30 2 7|34 1 5|88 0 0|\n",
    ),
    (
        "network\nnode 14 0 0 0\nport 33 5\nnode 32 0 0 0\nport 33 1\nnode 33 - 0 0\n\
         port 94 8\nport 84 2\nport 35 2\nport 79 8\nport 32 1\nport 14 5\nport 38 4\n\
         port 90 5\nport 68 2\nport 95 0\nport 97 4\nnode 35 0 0 0\nport 33 2\n\
         node 38 0 0 0\nport 33 4\nnode 68 0 0 0\nport 33 2\nnode 79 0 0 0\nport 33 8\n\
         node 84 0 0 0\nport 33 2\nnode 90 0 0 0\nport 33 5\nnode 94 0 0 0\nport 33 8\n\
         node 95 0 0 0\nport 33 0\nnode 97 0 0 0\nport 33 4\nend\n",
        "33 1 5|14 0 0|\n33 1 1|32 0 0|\n33 0 0|\n33 1 2|35 0 0|\n33 1 4|38 0 0|\n33 1 2|\
         68 0 0|\n33 1 8|79 0 0|\n33 1 2|84 0 0|\n33 1 5|90 0 0|\n33 1 8|94 0 0|\n33 1 0|\
         95 0 0|\n33 1 4|97 0 0|\n",
    ),
    (
        "network\nnode 2 - 0 0\nport 19 3\nnode 3 1 0 0\nport 8 6\nport 95 7\nnode 5 0 0 0\n\
         port 27 4\nport 67 8\nnode 8 0 0 0\nport 3 6\nport 21 7\nnode 19 0 0 0\nport 2 3\n\
         port 88 5\nnode 21 0 0 0\nport 8 7\nnode 27 0 0 0\nport 89 3\nport 5 4\n\
         node 31 0 0 0\nport 67 6\nport 95 3\nnode 67 0 0 0\nport 5 8\nport 31 6\n\
         node 88 1 0 0\nport 89 5\nport 19 5\nnode 89 0 0 0\nport 88 5\nport 27 3\n\
         node 95 1 0 0\nport 3 7\nport 31 3\nend\n",
        "5 5 5|88 2 5|2 0 0|\n5 4 8|3 0 0|\n5 0 0|\n5 5 8|3 1 6|8 0 0|\n5 4 5|88 1 5|2 1 3|\
         19 0 0|\n5 6 8|3 2 7|8 1 7|21 0 0|\n5 1 4|88 2 5|27 0 0|\n5 2 8|3 2 7|31 0 0|\n\
         5 1 8|3 3 7|31 1 6|67 0 0|\n5 3 5|88 0 0|\n5 2 4|88 1 5|27 1 3|89 0 0|\n5 3 8|3 1 7|\
         31 1 3|95 0 0|\n",
    ),
];

fn levels_of(alloc: Global, text: &str) -> Result<CentroidLists, Fail> {
    let net = connected_network(alloc, text)?;
    let tree = Tree::<Gamma>::new();
    if !tree.decide(alloc, &net)? {
        return Err(Fail::from("no tree"));
    }
    Ok(centroid_levels(alloc, &net)?)
}

// One line a node; each level is centroid, hops and greatest weight, then a bar.
fn text_of(alloc: Global, lists: &CentroidLists) -> Result<String, Fail> {
    let mut text = String::new(alloc);
    for place in 0..lists.len() {
        let list = lists.at(place)?;
        for number in 0..list.len() {
            let level = list.at(number);
            let part = format!(in alloc; "{} {} {}|", level.centroid, level.hops, level.greatest)?;
            text.push_str(&part)?;
        }
        text.push_str("\n")?;
    }
    Ok(text)
}

#[test]
fn levels_of_small_trees(rt: HostRuntime) -> Result<(), Fail> {
    for (text, due) in LEVELS {
        let lists = levels_of(rt.alloc(), text)?;
        let found = text_of(rt.alloc(), &lists)?;
        assert!(rt; found.as_str() == *due, "levels of {text}: {found}");
    }
    Ok(())
}

// How many nodes the largest networks have.
const MANY: u32 = 32768;

// Each node points at the one before it.
fn path(alloc: Global, count: u32) -> Result<String, Fail> {
    let mut text = String::from_str(alloc, "network\nnode 1 - 0 0\nport 2 1\n")?;
    for before in 1..count.saturating_sub(1) {
        let id = before.saturating_add(1);
        let after = id.saturating_add(1);
        let part = format!(in alloc;
            "node {id} 0 0 0\nport {before} {before}\nport {after} {id}\n"
        )?;
        text.push_str(part.as_str())?;
    }
    let before = count.saturating_sub(1);
    let part = format!(in alloc; "node {count} 0 0 0\nport {before} {before}\nend\n")?;
    text.push_str(part.as_str())?;
    Ok(text)
}

// All nodes point at the last.
fn star(alloc: Global, count: u32) -> Result<String, Fail> {
    let mut text = String::from_str(alloc, "network\n")?;
    for id in 1..count {
        let part = format!(in alloc; "node {id} 0 0 0\nport {count} {id}\n")?;
        text.push_str(part.as_str())?;
    }
    text.push_str(format!(in alloc; "node {count} - 0 0\n")?.as_str())?;
    for id in 1..count {
        text.push_str(format!(in alloc; "port {id} {id}\n")?.as_str())?;
    }
    text.push_str("end\n")?;
    Ok(text)
}

// How many levels the nodes have together, and at most.
fn sizes_of(lists: &CentroidLists) -> Result<(usize, usize), Fail> {
    let mut all = 0_usize;
    let mut most = 0_usize;
    for place in 0..lists.len() {
        let count = lists.at(place)?.len();
        all = all.saturating_add(count);
        most = most.max(count);
    }
    Ok((all, most))
}

#[test]
fn a_long_path(rt: HostRuntime) -> Result<(), Fail> {
    let text = path(rt.alloc(), MANY)?;
    let lists = levels_of(rt.alloc(), text.as_str())?;
    let (all, most) = sizes_of(&lists)?;
    assert!(rt; all == 458769 && most == 16, "{all} {most}");
    Ok(())
}

#[test]
fn a_large_star(rt: HostRuntime) -> Result<(), Fail> {
    let text = star(rt.alloc(), MANY)?;
    let lists = levels_of(rt.alloc(), text.as_str())?;
    let (all, most) = sizes_of(&lists)?;
    assert!(rt; all == 65535 && most == 2, "{all} {most}");
    Ok(())
}
