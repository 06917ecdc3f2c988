//! The lengths of the chains of pointers of a network.

use super::network;
use pls_search::pointer_depths;
use std::alloc::Global;
use std::test::Fail;

// Pointer depths of three nodes in a row with pointers `ups`, and of one apart.
fn depths(alloc: Global, ups: [&str; 3]) -> Result<Option<Vec<u32>>, Fail> {
    let [first, second, third] = ups;
    let text = format!(in alloc;
        "network\nnode 1 {first} 0 0\nport 2 1\nnode 2 {second} 0 0\n\
        port 1 1\nport 5 1\nnode 5 {third} 0 0\nport 2 1\nnode 9 - 0 0\nend\n"
    )?;
    Ok(pointer_depths(alloc, &network(alloc, &text)?)?)
}

// Pointers of the three nodes, and the depths of all four: no pointer, to the first, to the last,
// two trees, a circle first and a circle last.
const DEPTHS: &[([&str; 3], Option<[u32; 4]>)] = &[
    (["-", "-", "-"], Some([0, 0, 0, 0])),
    (["-", "0", "0"], Some([0, 1, 2, 0])),
    (["0", "1", "-"], Some([2, 1, 0, 0])),
    (["-", "0", "-"], Some([0, 1, 0, 0])),
    (["0", "0", "0"], None),
    (["0", "1", "0"], None),
];

fn are_found(found: &Option<Vec<u32>>, due: &Option<[u32; 4]>) -> bool {
    match (found, due) {
        (Some(found), Some(due)) => found.as_slice() == due.as_slice(),
        (found, due) => found.is_none() && due.is_none(),
    }
}

#[test]
fn depths_of_pointers(rt: HostRuntime) -> Result<(), Fail> {
    for (ups, due) in DEPTHS {
        assert!(rt;
            are_found(&depths(rt.alloc(), *ups)?, due),
            "{} {} {}",
            ups[0],
            ups[1],
            ups[2]
        );
    }
    Ok(())
}
