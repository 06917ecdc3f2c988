//! Inputs just above a limit, and which limit is told where several are passed.

pub(super) const ROWS: &str = "
# One node too many is told in front of one port too many, and a missing line in front of both.
7 mark tree < many-nodes > limit nodes
7 mark bipartite < many-nodes > limit nodes
7 mark tree < network{32769 of ; node #0# - 0 0}{262145 of ; port 1 1} > limit nodes
3 verify bipartite < = network{32769 of ; node #0# - 0 0}; end; labels > refused form at 32773
# One port too many is told in front of one bit too many, and that in front of one event too many.
7 mark tree < many-ports > limit ports
7 verify tree < many-ports | many-bits > limit ports
7 simulate tree < pair | many-bits | schedule{1048577 of ; arrive 1} > limit bits
# One event too many is told in front of one round too many, and that in front of other labels.
7 simulate tree < pair | labels | schedule{1048577 of ; arrive 1} > limit events
7 recheck tree < pair | labels | edits{1048577 of ; round} > limit events
7 watch tree < pair | labels | watch{1048577 of ; look} > limit events
7 recheck tree < pair | labels | edits{129 of ; round} > limit rounds
3 recheck tree < pair | labels | edits{128 of ; round} > refused 20 at 8
7 watch tree < pair | labels | watch{129 of ; look} > limit rounds
3 watch tree < pair | labels | watch{128 of ; look} > refused 20 at 8
# As many bytes as there may be, of no form, and one byte more.
3 mark tree < + {2097152 of 0123456789abcdef0123456789abcdef0123456789abcdef0123456789abcdef} \
    > refused form at 1
7 mark tree < + {2097152 of 0123456789abcdef0123456789abcdef0123456789abcdef0123456789abcdef}0 \
    > limit input
";
