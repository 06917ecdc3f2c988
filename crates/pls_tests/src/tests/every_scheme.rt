//! Each scheme by each command that judges labels.

use super::rows::assert_rows;
use super::rules;
use std::alloc::Global;
use std::process::Abort;

pub(super) const ROWS: &str = "
## Each scheme, and its labels for one network.
0 mark tree < all > labels / label 1 4 50 / label 2 6 48 / end
0 mark forest < all > labels / label 1 1 80 / label 2 3 40 / end
0 mark bipartite < all > labels / label 1 1 00 / label 2 1 80 / end
0 mark acyclic < all > labels / label 1 1 80 / label 2 3 40 / end
0 mark leader < all > labels / label 1 4 50 / label 2 6 48 / end
0 mark count < all > labels / label 1 16 495b / label 2 18 4d24c0 / end
0 mark spt < all > labels / label 1 5 58 / label 2 9 4900 / end
0 mark mst < all > labels / label 1 25 49524980 / label 2 27 4d24d260 / end
0 mark pathmax < all > labels / label 1 18 4952c0 / label 2 29 4d269278 / end
0 mark map(tree) < all > labels / label 1 44 4d534d356920 / label 2 44 6d534d356920 / end
0 mark and(leader,spt) < all > labels / label 1 14 2aac / label 2 20 3a4920 / end
0 mark or(mst,count) < all > labels / label 1 26 24a924c0 / label 2 28 26926930 / end

## These labels in the delta code.
0 convert tree < all | labels; label 1 4 50; label 2 6 48 \
    > labels delta / label 1 5 48 / label 2 8 44 / end
0 convert forest < all | labels; label 1 1 80; label 2 3 40 \
    > labels delta / label 1 1 80 / label 2 4 40 / end
0 convert bipartite < all | colours > labels delta / label 1 1 00 / label 2 1 80 / end
0 convert acyclic < all | labels; label 1 1 80; label 2 3 40 \
    > labels delta / label 1 1 80 / label 2 4 40 / end
0 convert leader < all | labels; label 1 4 50; label 2 6 48 \
    > labels delta / label 1 5 48 / label 2 8 44 / end
0 convert count < all | labels; label 1 16 495b; label 2 18 4d24c0 \
    > labels delta / label 1 21 444aa8 / label 2 24 454445 / end
0 convert spt < all | labels; label 1 5 58; label 2 9 4900 \
    > labels delta / label 1 6 4c / label 2 12 4440 / end
0 convert mst < all | labels; label 1 25 49524980; label 2 27 4d24d260 \
    > labels delta / label 1 33 444a222280 / label 2 36 4544454450 / end
0 convert pathmax < all | labels; label 1 18 4952c0; label 2 29 4d269278 \
    > labels delta / label 1 23 444a26 / label 2 38 454454445c / end
0 convert map(tree) < all | labels; label 1 44 4d534d356920; label 2 44 6d534d356920 \
    > labels delta / label 1 58 454a2a2a2a551100 / label 2 58 554a2a2a2a551100 / end
0 convert and(leader,spt) < all | labels; label 1 14 2aac; label 2 20 3a4920 \
    > labels delta / label 1 16 7253 / label 2 28 21444440 / end
0 convert or(mst,count) < all | labels; label 1 26 24a924c0; label 2 28 26926930 \
    > labels delta / label 1 34 2225111140 / label 2 37 22a222a228 / end

## How long these labels may be, in both codes.
0 bound tree < all > bound 6
0 bound --code delta tree < all > bound 8
0 bound forest < all > bound 3
0 bound --code delta forest < all > bound 4
0 bound bipartite < all > bound 1
0 bound --code delta bipartite < all > bound 1
0 bound acyclic < all > bound 3
0 bound --code delta acyclic < all > bound 4
0 bound leader < all > bound 6
0 bound --code delta leader < all > bound 8
0 bound count < all > bound 18
0 bound --code delta count < all > bound 24
0 bound spt < all > bound 9
0 bound --code delta spt < all > bound 12
0 bound mst < all > bound 27
0 bound --code delta mst < all > bound 36
0 bound pathmax < all > bound 33
0 bound --code delta pathmax < all > bound 44
0 bound map(tree) < all > bound 48
0 bound --code delta map(tree) < all > bound 64
0 bound and(leader,spt) < all > bound 20
0 bound --code delta and(leader,spt) < all > bound 28
0 bound or(mst,count) < all > bound 28
0 bound --code delta or(mst,count) < all > bound 37
";

// The schemes of the table, and the commands that judge their labels.
const SCHEMES: &str = "tree forest bipartite acyclic leader count spt mst pathmax map(tree) \
    and(leader,spt) or(mst,count)";

// What is asked with the labels that a scheme marks in a code.
const ASKED: &str = "
0 verify NAME < all | as mark NAME --code CODE > node 1 accept / node 2 accept / rejecting 0
0 verify NAME --json < all | as mark NAME --code CODE \
    > {\"nodes\":[{\"id\":1,\"verdict\":\"accept\"},{\"id\":2,\"verdict\":\"accept\"}],\
    \"rejecting\":0,\"waiting\":0}
0 simulate NAME < all | as mark NAME --code CODE \
    | schedule; emit 1 0; emit 2 0; arrive 1; arrive 2 \
    > node 1 accept / node 2 accept / rejecting 0 waiting 0
0 recheck NAME < all | as mark NAME --code CODE | edits; state 1 - 1 2; round \
    > node 1 accept / node 2 accept / round 0 checked 2 connected yes rejecting 0 \
    / node 1 accept / node 2 accept / round 1 checked 1 connected yes rejecting 0
0 watch NAME < all | as mark NAME --code CODE \
    | watch; emit 1 0; emit 2 0; arrive 1; arrive 2; look \
    > node 1 accept / node 2 accept / look 1 rejecting 0 waiting 0 stale 0
3 splice NAME < all | as mark NAME --code CODE > refused 70 at 1
";

// The schemes whose property the ring of six has, and what is asked of it.
const RING_SCHEMES: &str = "tree forest bipartite leader count spt mst pathmax \
    map(bridgeless) and(leader,count) or(acyclic,spt)";

const ASKED_OF_RING: &str = "1 splice NAME < round | as mark NAME --code CODE > none";

// `NAME` and `CODE` in the rows of `asked` stand for scheme and code.
fn assert_about(rt: &impl Abort, alloc: Global, code: &str, schemes: &str, asked: &str) {
    let rows = asked.replace(alloc, "CODE", code).expect(rt, "memory");
    for name in schemes.split(' ') {
        let table = rows.as_str().replace(alloc, "NAME", name);
        assert_rows(rt, alloc, &[table.expect(rt, "memory").as_str()]);
    }
}

#[test]
fn labels_of_every_scheme_are_judged_by_every_command(rt: HostRuntime) {
    for code in ["gamma", "delta"] {
        assert_about(&rt, rt.alloc(), code, SCHEMES, ASKED);
        assert_about(&rt, rt.alloc(), code, RING_SCHEMES, ASKED_OF_RING);
    }
    // Sets of rules are judged in the gamma code alone.
    assert_about(&rt, rt.alloc(), "gamma", rules::SETS, rules::ASKED);
}
