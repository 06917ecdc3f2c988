//! The sets that have names, as they are printed and read.

use super::read_set;
use pls_builtin::builtin;
use pls_rules::RuleSet;
use pls_rules_part::print_rules;
use std::alloc::Global;
use std::test::Fail;

// The sets that have names, and their texts.
const SETS: &[(&str, &str)] = &[
    (
        "leader",
        "rules\nfield root num\nfield depth num\n\
         rule all(eq(nb.root,my.root))\n\
         rule same(eq(my.depth,0),eq(id,my.root))\n\
         rule either(eq(my.depth,0),any(eq(add(nb.depth,1),my.depth)))\n\
         rule same(eq(mark,1),eq(my.depth,0))\nend\n",
    ),
    (
        "tree",
        "rules\nfield root num\nfield depth num\n\
         rule all(eq(nb.root,my.root))\n\
         rule either(eq(pointed,1),both(eq(my.depth,0),eq(id,my.root)))\n\
         rule either(eq(pointed,0),eq(my.depth,add(up.depth,1)))\nend\n",
    ),
    (
        "forest",
        "rules\nfield depth num\n\
         rule either(eq(pointed,1),eq(my.depth,0))\n\
         rule either(eq(pointed,0),eq(my.depth,add(up.depth,1)))\nend\n",
    ),
    (
        "spt",
        "rules\nfield root num\nfield depth num\nfield dist num\n\
         rule all(eq(nb.root,my.root))\n\
         rule either(eq(pointed,1),both(both(eq(my.depth,0),eq(my.dist,0)),eq(id,my.root)))\n\
         rule either(eq(pointed,0),both(eq(my.depth,add(up.depth,1)),\
         eq(my.dist,add(up.dist,up.weight))))\n\
         rule all(le(my.dist,add(nb.dist,nb.weight)))\nend\n",
    ),
    (
        "bipartite",
        "rules\nfield colour bit\nrule all(not(eq(nb.colour,my.colour)))\nend\n",
    ),
    (
        "acyclic",
        "rules\nfield depth num\n\
         rule all(either(eq(nb.depth,add(my.depth,1)),eq(add(nb.depth,1),my.depth)))\n\
         rule le(sum(eq(add(nb.depth,1),my.depth),1),1)\nend\n",
    ),
    (
        "count",
        "rules\nfield root num\nfield own num\nfield parent num\nfield depth num\nfield size num\n\
         field total num\n\
         rule all(both(eq(nb.root,my.root),eq(nb.total,my.total)))\n\
         rule both(eq(my.own,id),eq(my.total,num))\n\
         rule same(eq(my.depth,0),eq(my.root,id))\n\
         rule either(lt(0,my.depth),both(eq(my.parent,id),eq(my.size,my.total)))\n\
         rule either(eq(my.depth,0),any(both(eq(nb.own,my.parent),eq(add(nb.depth,1),my.depth))))\n\
         rule eq(my.size,add(sum(eq(nb.parent,id),nb.size),1))\nend\n",
    ),
];

// Names of no set.
const OTHERS: &[&str] = &["mst", "map", "Leader", "leaders", ""];

fn has_set(alloc: Global, name: &str) -> Result<bool, Fail> {
    Ok(builtin(alloc, name)?.is_some())
}

fn is_printed(alloc: Global, set: &RuleSet, text: &str) -> Result<bool, Fail> {
    Ok(print_rules(alloc, set)?.as_slice() == text.as_bytes())
}

// Whether the built-in set `name` is printed as `text`.
fn is_text_of(alloc: Global, name: &str, text: &str) -> Result<bool, Fail> {
    match builtin(alloc, name)? {
        Some(set) => is_printed(alloc, &set, text),
        None => Err(Fail::from("no set")),
    }
}

// Whether the set read from `text` is printed as `text` again.
fn is_read(alloc: Global, text: &str) -> Result<bool, Fail> {
    is_printed(alloc, &read_set(alloc, text)?, text)
}

#[test]
fn sets_with_names_are_printed_and_read(rt: HostRuntime) -> Result<(), Fail> {
    for (name, text) in SETS {
        assert!(rt; is_text_of(rt.alloc(), name, text)?, "{name}");
        assert!(rt; is_read(rt.alloc(), text)?, "{name} is read");
    }
    for name in OTHERS {
        assert!(rt; !has_set(rt.alloc(), name)?, "{name} has a set");
    }
    Ok(())
}
