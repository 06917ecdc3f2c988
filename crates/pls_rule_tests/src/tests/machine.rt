//! Code as it is listed.

ghost use Rattle.pls_rules.specs.HeldTrees.{set_of};
ghost use Rattle.pls_rules.specs.RuleSet.{AreRules};

use super::read_set;
use pls_builtin::builtin;
use pls_compile::{compile, listing};
use pls_rules::RuleSet;
use pls_streams::NoMemory;
use std::alloc::Global;
use std::test::Fail;

// The code of the set `bipartite`.
const BIPARTITE: &str = "code\n0 push 1\n1 begin\n2 more 9\n3 nb 0\n4 my 0\n5 eq\n6 not\n7 both\n\
                         8 next 2\n9 rule 3\n10 accept\nend\n";

// Rule sets, and the listings of their code: no rule, a sum in a sum, and the other instructions.
const LISTED: &[(&str, &str)] = &[
    ("rules\nfield size num\nend\n", "code\n0 accept\nend\n"),
    (
        "rules\nfield size num\n\
         rule eq(sum(eq(nb.up,1),sum(eq(nb.size,my.size),nb.weight)),my.size)\nend\n",
        "code\n0 push 0\n1 begin\n2 more 19\n3 nbup\n4 push 1\n5 eq\n6 push 0\n7 begin\n8 more 16\n\
         9 nb 0\n10 my 0\n11 eq\n12 nbweight\n13 mask\n14 add\n15 next 8\n16 mask\n17 add\n\
         18 next 2\n19 my 0\n20 eq\n21 rule 3\n22 accept\nend\n",
    ),
    (
        "rules\nfield root num\nfield size bit\n\
         rule either(lt(id,mark),le(num,add(degree,9223372036854775806)))\n\
         rule same(eq(pointed,up.size),not(any(both(eq(up.weight,2),eq(nb.size,1)))))\nend\n",
        "code\n0 id\n1 mark\n2 lt\n3 num\n4 degree\n5 push 9223372036854775806\n6 add\n7 le\n\
         8 either\n9 rule 3\n10 pointed\n11 up 1\n12 eq\n13 push 0\n14 begin\n15 more 25\n\
         16 upweight\n17 push 2\n18 eq\n19 nb 1\n20 push 1\n21 eq\n22 both\n23 either\n24 next 15\n\
         25 not\n26 eq\n27 rule 4\n28 accept\nend\n",
    ),
];

// Whether the compiled set has the listing `due`.
fn is_listed(alloc: Global, set: &RuleSet, due: &str) -> Result<bool, NoMemory>
    requires { AreRules (set_of set.now) }
{
    let code = compile(alloc, set)?;
    Ok(listing(alloc, &code)?.as_slice() == due.as_bytes())
}

fn is_code_of(alloc: Global, name: &str, due: &str) -> Result<bool, Fail> {
    match builtin(alloc, name)? {
        Some(set) => Ok(is_listed(alloc, &set, due)?),
        None => Err(Fail::from("no set")),
    }
}

#[test]
fn code_is_listed(rt: HostRuntime) -> Result<(), Fail> {
    assert!(rt;
        is_code_of(rt.alloc(), "bipartite", BIPARTITE)?,
        "bipartite"
    );
    for (text, due) in LISTED {
        let set = read_set(rt.alloc(), text)?;
        assert!(rt; is_listed(rt.alloc(), &set, due)?, "{text}");
    }
    Ok(())
}
