//! Three routers in a row keep a tree, and their labels prove it. Then the label of the last one
//! says another depth, and the program tells who notices.
#![tactic(auto)]

ghost use Rattle.std.specs.Prelude.{IfOk, IsTrue};
ghost use Rattle.pls.specs.SpanningTree.{IsTree};

use pls::{
    LabelStore, Network, NetworkError, NoMemory, Scheme, SchemeName, Tree, TreeLabel, Verdict,
    labels_prove, network_of, plain_row, proving_labels, rule_text, verdicts_by,
};
use std::alloc::Global;
use std::io;

fn main(rt: HostRuntime) -> io::Result<()> {
    let Ok((proved, verdicts)) = answers(rt.alloc()) else {
        return println!(rt; "no answer");
    };
    println!(rt; "the pointers are proved to be a tree: {proved}")?;
    for (i, verdict) in verdicts.iter().enumerate() {
        match *verdict {
            Verdict::Accept => println!(rt; "router {} accepts", i + 1)?,
            Verdict::Reject { rule, .. } => {
                let asked = rule_text(SchemeName::Tree, rule).unwrap_or("");
                println!(rt; "router {} rejects by rule {rule}: {asked}", i + 1)?;
            }
        }
    }
    Ok(())
}

// Each router after the first points at the previous one, through port 0.
fn routers(alloc: Global) -> Result<Network, NetworkError> {
    let mut rows = Vec::new(alloc);
    rows.push(plain_row(alloc, 1, None, &[2])?)?;
    rows.push(plain_row(alloc, 2, Some(0), &[1, 3])?)?;
    rows.push(plain_row(alloc, 3, Some(0), &[2])?)?;
    network_of(alloc, rows)
}

// Whether the marker's labels prove the tree, and the verdicts after one label changed.
fn answers(alloc: Global) -> Result<(bool, Vec<Verdict>), NetworkError> {
    let net = routers(alloc)?;
    let tree = <Tree>::new();
    let Some(mut labels) = proving_labels(alloc, &tree, &net)? else {
        return Ok((false, Vec::new(alloc)));
    };
    let proved = is_a_tree(alloc, &net, &labels)?;

    let wrong = tree.write_label(alloc, &TreeLabel { root: 1, depth: 5 })?;
    labels.replace(net.len() - 1, &wrong)?;
    Ok((proved, verdicts_by(alloc, &tree, &net, &labels)?))
}

/// Whether the labels prove that the pointers are a spanning tree. Where they do the pointers are
/// one, whoever made the labels.
fn is_a_tree(alloc: Global, net: &Network, labels: &LabelStore) -> Result<bool, NoMemory>
    ensures { IfOk result (λ yes. IsTrue yes → IsTree net.now) }
{
    labels_prove(alloc, &<Tree>::new(), net, labels)
}
