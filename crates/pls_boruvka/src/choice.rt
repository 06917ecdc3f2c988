//! Edges as fragments compare them.

ghost use Rattle.std.specs.Prelude.{◌≡◌, true, false};
ghost use Rattle.pls_facts.specs.Precedes.{IsAtMost};
ghost use Rattle.pls_boruvka.specs.inner.Choices.{IsEarlier, IsLighter, key_of};

// An edge at a port: its weight, its ends by their identities, the smaller first, and the place of
// the end that points at the other, if one does.
#[derive(Clone, Copy)]
pub(crate) struct Choice {
    pub(crate) weight: u32,
    pub(crate) child: Option<u32>,
    pub(crate) a: u32,
    pub(crate) b: u32,
}

// False where there is no edge.
pub(crate) fn is_lighter(one: Option<Choice>, weight: u32) -> bool
    ensures { result ≡ true → IsLighter one weight }
{
    match one {
        Some(first) => first.weight < weight,
        None => false,
    }
}

// Where only one is an edge, that one.
pub(crate) fn earlier(one: Option<Choice>, other: Option<Choice>) -> Option<Choice>
    ensures { IsEarlier one other result }
{
    match (one, other) {
        (Some(first), Some(second)) => {
            if is_before(second, first) {
                Some(second)
            } else {
                Some(first)
            }
        }
        (Some(first), None) => Some(first),
        (None, second) => second,
    }
}

// By weight, at one weight pointed edges first, then by the smaller end, then by the greater.
fn is_before(one: Choice, other: Choice) -> bool
    ensures before { result ≡ true → IsAtMost (key_of one) (key_of other) }
    ensures after { result ≡ false → IsAtMost (key_of other) (key_of one) }
{
    if one.weight != other.weight {
        return one.weight < other.weight;
    }
    if one.child.is_some() != other.child.is_some() {
        return one.child.is_some();
    }
    if one.a != other.a {
        return one.a < other.a;
    }
    one.b < other.b
}
