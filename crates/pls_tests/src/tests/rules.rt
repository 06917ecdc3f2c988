//! Rule sets, and what they judge.

pub(super) const ROWS: &str = "
## The rule sets that have the names of schemes.
0 rules leader > rules / field root num / field depth num / rule all(eq(nb.root,my.root)) \
    / rule same(eq(my.depth,0),eq(id,my.root)) \
    / rule either(eq(my.depth,0),any(eq(add(nb.depth,1),my.depth))) \
    / rule same(eq(mark,1),eq(my.depth,0)) / end
0 rules tree > rules / field root num / field depth num / rule all(eq(nb.root,my.root)) \
    / rule either(eq(pointed,1),both(eq(my.depth,0),eq(id,my.root))) \
    / rule either(eq(pointed,0),eq(my.depth,add(up.depth,1))) / end
0 rules forest > rules / field depth num / rule either(eq(pointed,1),eq(my.depth,0)) \
    / rule either(eq(pointed,0),eq(my.depth,add(up.depth,1))) / end
0 rules spt > rules / field root num / field depth num / field dist num \
    / rule all(eq(nb.root,my.root)) / rule \
    either(eq(pointed,1),both(both(eq(my.depth,0),eq(my.dist,0)),eq(id,my.root))) \
    / rule either(eq(pointed,0),both(eq(my.depth,add(up.depth,1)),eq(my.dist,add(up.dist,\
    up.weight)))) / rule all(le(my.dist,add(nb.dist,nb.weight))) / end
0 rules bipartite > rules / field colour bit / rule all(not(eq(nb.colour,my.colour))) / end
0 rules acyclic > rules / field depth num \
    / rule all(either(eq(nb.depth,add(my.depth,1)),eq(add(nb.depth,1),my.depth))) \
    / rule le(sum(eq(add(nb.depth,1),my.depth),1),1) / end
0 rules count > rules / field root num / field own num / field parent num / field depth num \
    / field size num / field total num / rule \
    all(both(eq(nb.root,my.root),eq(nb.total,my.total))) \
    / rule both(eq(my.own,id),eq(my.total,num)) / rule same(eq(my.depth,0),eq(my.root,id)) \
    / rule either(lt(0,my.depth),both(eq(my.parent,id),eq(my.size,my.total))) \
    / rule either(eq(my.depth,0),any(both(eq(nb.own,my.parent),eq(add(nb.depth,1),my.depth)))) \
    / rule eq(my.size,add(sum(eq(nb.parent,id),nb.size),1)) / end

## Rule sets and their code.
0 code < differ > code / 0 push 1 / 1 begin / 2 more 9 / 3 nb 0 / 4 my 0 / 5 eq / 6 not \
    / 7 both / 8 next 2 / 9 rule 3 / 10 accept / end
# What stands at a pointed port, the greatest number, no rule at all.
0 code < rules; field depth num; rule eq(up.weight,0) \
    > code / 0 upweight / 1 push 0 / 2 eq / 3 rule 3 / 4 accept / end
0 code < rules; field depth num; rule eq(9223372036854775806,0) \
    > code / 0 push 9223372036854775806 / 1 push 0 / 2 eq / 3 rule 3 / 4 accept / end
0 code < rules; field a bit > code / 0 accept / end
0 code < rules; field depth num; rule not(not(not(not(not(not(not(not(not(not(not(not(not(not(not(\
    not(not(not(not(not(not(not(not(not(not(not(not(not(not(not(eq(id,\
    id))))))))))))))))))))))))))))))) > code / 0 id / 1 id / 2 eq / 3 not / 4 not / 5 not \
    / 6 not / 7 not / 8 not / 9 not / 10 not / 11 not / 12 not / 13 not / 14 not / 15 not \
    / 16 not / 17 not / 18 not / 19 not / 20 not / 21 not / 22 not / 23 not / 24 not / 25 not \
    / 26 not / 27 not / 28 not / 29 not / 30 not / 31 not / 32 not / 33 rule 3 / 34 accept / end

## Rule sets with a fault.
# A field that is not there, a neighbour outside of all quantifiers, a field told twice.
3 code < rules; field depth num; rule eq(my.root,0) > refused 50 at 3
3 code < rules; field depth num; rule eq(nb.depth,0) > refused 50 at 3
3 code < rules; field depth num; rule all(any(all(eq(id,0)))) > refused 51 at 3
3 code < rules; field depth num; rule eq(my.weight,0) > refused 50 at 3
3 code < rules; field depth num; rule eq(up.up,0) > refused 50 at 3
3 code < rules; field depth num; rule eq(nb.up,0) > refused 50 at 3
3 code < rules; field a num; field a bit; rule eq(my.b,0) > refused 50 at 3
# Parentheses 32 deep, three quantifiers, and which comes first.
3 code < rules; field depth num; rule not(not(not(not(not(not(not(not(not(not(not(not(not(not(not(\
    not(not(not(not(not(not(not(not(not(not(not(not(not(not(not(not(eq(id,\
    id)))))))))))))))))))))))))))))))) > refused 51 at 3
3 code < rules; field depth num; rule )))not(not(not(not(not(not(not(not(not(not(not(not(not(not(\
    not(not(not(not(not(not(not(not(not(not(not(not(not(not(not(not(not(eq(id,\
    id))))))))))))))))))))))))))))))) > refused 51 at 3
3 code < rules; field depth num; rule eq(my.root,0); rule all(any(all(eq(id,0)))) > refused 50 at 3
3 code < rules; field depth num; rule all(any(all(eq(my.root,0)))) > refused 51 at 3
# A name too long, a number too large, a zero in front, a network where none may stand.
3 code < rules; field depth num; rule eq(my.abcdefghijklmnopq,0) > refused form at 3
3 code < rules; field depth num; rule eq(9223372036854775807,0) > refused form at 3
3 code < rules; field depth num; rule eq(00,0) > refused form at 3
3 code < pair | differ > refused form at 1

## Labels judged by a rule set, and inputs with several faults.
0 judge < pair | colours | differ > node 1 accept / node 2 accept / rejecting 0
1 judge < pair | labels; label 1 0 -; label 2 1 80 | differ \
    > node 1 reject 1 1 / node 2 reject 1 2 / rejecting 2
1 judge < pair | labels; label 1 1 00; label 2 1 00 | differ \
    > node 1 reject 1 3 / node 2 reject 1 3 / rejecting 2
0 --json judge < pair | colours | differ \
    > {\"nodes\":[{\"id\":1,\"verdict\":\"accept\"},{\"id\":2,\"verdict\":\"accept\"}],\
    \"rejecting\":0,\"waiting\":0}
# Faults of labels, rules and networks have their order.
3 judge < pair | labels; label 2 1 00 | rules; field depth num; rule eq(my.b,0) > refused 20 at 8
3 judge < apart | labels; label 1 1 00; label 2 1 00 | rules; field depth num; rule eq(my.b,0) \
    > refused 50 at 11
3 judge < pair | labels delta; label 1 1 00; label 2 1 80 | differ > refused form at 7
3 judge < pair | labels; label 2 1 00 | rules; field a bit; rule eq(my.b,0) > refused 20 at 8
3 judge < apart | colours | rules; field a bit; rule eq(my.b,0) > refused 50 at 11
3 judge < pair | colours > refused form at 11
";

/// The schemes that have a rule set of their name.
pub(super) const SETS: &str = "leader tree forest spt bipartite acyclic count";

/// Labels that such a scheme marks, judged by its set.
pub(super) const ASKED: &str =
    "0 judge < all | as mark NAME | as rules NAME > node 1 accept / node 2 accept / rejecting 0";
