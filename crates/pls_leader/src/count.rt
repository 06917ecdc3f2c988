//! The rules of the scheme `count`: the label is the root's identity, the own one and the parent's,
//! the node's depth, how many nodes stand at or below it, and how many there are.

ghost use Rattle.std.specs.Prelude.{◌≡◌, ◌==◌, ◌&&◌, ◌||◌, nat_lt};
ghost use Rattle.pls_leader.specs.Count.{names_root_and_total, is_own_child, is_parent_above};
ghost use Rattle.pls_scheme.specs.Reading.{port_with};

use crate::rooted::is_0_at_root_alone;
use pls_bits::NumCode;
use pls_configuration::State;
use pls_scheme::{
    Judgement, NumbersFormat, OfNumbers, RuleScheme, Rules, Verdict, is_one_more, judged_from,
};
use std::marker::PhantomData;

/// What a label says.
#[derive(Clone, Copy, Debug, PartialEq, Eq)]
pub struct CountLabel {
    /// The identity of the root.
    pub root: u64,
    /// The node's own identity.
    pub own: u64,
    /// The identity of the node's parent; the root's is its own.
    pub parent: u64,
    /// How many edges lead from the root to the node.
    pub depth: u64,
    /// How many nodes stand at or below the node.
    pub size: u64,
    /// How many nodes there are.
    pub total: u64,
}

impl OfNumbers<6> for CountLabel {
    ghost use Rattle.pls_leader.specs.Count.{count_label, numbers_of_count};
    ghost use Rattle.pls_leader.specs.laws.CountNumbers.{count_numbers};

    ghost numbers = { numbers_of_count };

    ghost of_numbers = { count_label };

    fn numbers(&self) -> [u64; 6] {
        [
            self.root,
            self.own,
            self.parent,
            self.depth,
            self.size,
            self.total,
        ]
    }

    fn of_numbers(list: &[u64; 6]) -> CountLabel {
        let [root, own, parent, depth, size, total] = *list;
        CountLabel {
            root,
            own,
            parent,
            depth,
            size,
            total,
        }
    }

    ghost numbers_law = { count_numbers };
}

/// The scheme of the number of nodes, whose labels are written in the number code `C`.
pub type Count<C> = RuleScheme<CountRules<C>>;

/// The rules of the number of nodes.
#[derive(Clone, Copy, Debug, PartialEq, Eq)]
pub struct CountRules<C> {
    format: NumbersFormat<CountLabel, 6>,
    code: PhantomData<C>,
}

impl<C> Default for CountRules<C> {
    fn default() -> Self {
        CountRules {
            format: NumbersFormat::default(),
            code: PhantomData,
        }
    }
}

impl<C: NumCode> Judgement for CountRules<C> {
    ghost use Rattle.pls_leader.specs.Count.{count_rules};

    type Code = C;

    type Format = NumbersFormat<CountLabel, 6>;

    ghost format = { λ s. s.format };

    ghost rules = { λ _. count_rules };

    fn format(&self) -> &NumbersFormat<CountLabel, 6> {
        &self.format
    }
}

/// What the rules need of the neighbours.
#[derive(Clone, Copy, Debug, PartialEq, Eq)]
pub struct CountTally {
    /// Whether each names the own root and the own total.
    pub agree: bool,
    /// Whether some is the parent, and one less deep.
    pub falls: bool,
    /// The sizes of those whose parent the node is, and `u64::MAX` where they are more together.
    pub below: u64,
}

impl<C: NumCode> Rules for CountRules<C> {
    ghost use Rattle.std.specs.Prelude.{◌-◌, ◌^◌, min};
    ghost use Rattle.std.specs.List.{list_all, list_any};
    ghost use Rattle.pls_leader.specs.Count.{names_root_and_total, children_sizes, is_parent_above};

    type Tally = CountTally;

    ghost tallied = { λ _ own ports. record {
      agree = list_all (names_root_and_total own) ports;
      falls = list_any (is_parent_above own) ports;
      below = min (children_sizes own.own ports) (2 ^ 64 - 1);
    } };

    fn start(&self, _own: &CountLabel) -> CountTally {
        CountTally {
            agree: true,
            falls: false,
            below: 0,
        }
    }

    fn add(
        &self,
        own: &CountLabel,
        tally: CountTally,
        weight: u32,
        label: &CountLabel,
    ) -> CountTally {
        let below = if is_own_child(own, weight, label) {
            tally.below.saturating_add(label.size)
        } else {
            tally.below
        };
        CountTally {
            agree: tally.agree && agrees_with(own, weight, label),
            falls: tally.falls || is_parent_above(own, weight, label),
            below,
        }
    }

    fn verdict(
        &self,
        id: u32,
        state: State,
        own: &CountLabel,
        _above: Option<&CountLabel>,
        tally: CountTally,
    ) -> Verdict {
        judged_from(
            3,
            &[
                tally.agree,
                names_itself_and_total(id, state, own),
                is_0_at_root_alone(id, own.root, own.depth),
                is_below_or_whole(id, own),
                own.depth == 0 || tally.falls,
                is_one_more(own.size, tally.below),
            ],
        )
    }
}

// Whether the neighbour has the same root and total.
fn agrees_with(own: &CountLabel, weight: u32, label: &CountLabel) -> bool
    ensures { result ≡ names_root_and_total own.now (port_with weight label.now) }
{
    label.root == own.root && label.total == own.total
}

// Whether the neighbour is the node's parent, and one less deep.
fn is_parent_above(own: &CountLabel, weight: u32, label: &CountLabel) -> bool
    ensures { result ≡ is_parent_above own.now (port_with weight label.now) }
{
    label.own == own.parent && is_one_more(own.depth, label.depth)
}

fn is_own_child(own: &CountLabel, weight: u32, label: &CountLabel) -> bool
    ensures { result ≡ is_own_child own.now.own (port_with weight label.now) }
{
    own.own == label.parent
}

// Rule 4: own is the identity, and the total is the node's number.
fn names_itself_and_total(id: u32, state: State, own: &CountLabel) -> bool
    ensures { result ≡ (own.now.own == id && own.now.total == state.num) }
{
    own.own == u64::from(id) && own.total == state.num
}

// Rule 6: the depth is above 0, or the parent is the node itself and the size is the total.
fn is_below_or_whole(id: u32, own: &CountLabel) -> bool
    ensures { result ≡ (nat_lt 0 own.now.depth
        || (own.now.parent == id && own.now.size == own.now.total)) }
{
    own.depth > 0 || (own.parent == u64::from(id) && own.size == own.total)
}
