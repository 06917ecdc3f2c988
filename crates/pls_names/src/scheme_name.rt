//! The names of basic schemes, and their types. A new name has a row in the four tables of this
//! file, two in `specs/Named` (`meaning_of` and `all_names`) and one in `specs/laws/NamedLaws`.
//! Besides, `pls_builtin` says whether a rule set has the name, and `pls` how many rules the scheme
//! has and what they ask.

ghost use Rattle.std.specs.Prelude.{◌≡◌};
ghost use Rattle.pls_names.specs.Named.{all_names, name_of};

pub use pls_colour::{Acyclic, Bipartite};
pub use pls_distance::Spt;
pub use pls_leader::{Count, Leader};
pub use pls_mst::Mst;
pub use pls_pathmax::PathMax;
pub use pls_pointer::{Forest, Tree};

/// The name of a basic scheme.
#[derive(Clone, Copy, Debug, PartialEq, Eq)]
pub enum SchemeName {
    /// `tree`: one node has no pointer, and the pointers of the others make a spanning tree.
    Tree,
    /// `forest`: no chain of pointers returns to its start.
    Forest,
    /// `bipartite`: a colour at each node, which differs across each edge.
    Bipartite,
    /// `acyclic`: no three or more nodes make a cycle.
    Acyclic,
    /// `leader`: exactly one node has mark 1.
    Leader,
    /// `count`: the number of each node is how many nodes there are.
    Count,
    /// `spt`: the pointers make a tree, and no walk from the root to a node weighs less than the
    /// node's chain of pointers.
    ShortestPathTree,
    /// `mst`: the pointers make a tree, and no spanning tree weighs less than its edges.
    MinimumSpanningTree,
    /// `pathmax`: the same as `mst`, with labels that tell the greatest weights on the paths to
    /// centroids.
    PathMax,
}

/// The word that names a scheme.
pub fn name_of(name: SchemeName) -> &'static str
    ensures { result.now ≡ name_of name }
{
    match name {
        SchemeName::Tree => "tree",
        SchemeName::Forest => "forest",
        SchemeName::Bipartite => "bipartite",
        SchemeName::Acyclic => "acyclic",
        SchemeName::Leader => "leader",
        SchemeName::Count => "count",
        SchemeName::ShortestPathTree => "spt",
        SchemeName::MinimumSpanningTree => "mst",
        SchemeName::PathMax => "pathmax",
    }
}

pub(crate) fn all_names() -> [SchemeName; 9]
    ensures { result ≡ all_names }
{
    [
        SchemeName::Tree,
        SchemeName::Forest,
        SchemeName::Bipartite,
        SchemeName::Acyclic,
        SchemeName::Leader,
        SchemeName::Count,
        SchemeName::ShortestPathTree,
        SchemeName::MinimumSpanningTree,
        SchemeName::PathMax,
    ]
}

/// What is done with the scheme of a name, whichever it is, in the number code `$C`: the scheme is
/// called `$scheme`.
#[macro_export]
macro_rules! by_name {
    ($name:expr, $C:ty, $scheme:ident => $done:expr) => {
        match $name {
            $crate::SchemeName::Tree => {
                let $scheme = $crate::scheme_name::Tree::<$C>::new();
                $done
            }
            $crate::SchemeName::Forest => {
                let $scheme = $crate::scheme_name::Forest::<$C>::new();
                $done
            }
            $crate::SchemeName::Bipartite => {
                let $scheme = $crate::scheme_name::Bipartite::<$C>::new();
                $done
            }
            $crate::SchemeName::Acyclic => {
                let $scheme = $crate::scheme_name::Acyclic::<$C>::new();
                $done
            }
            $crate::SchemeName::Leader => {
                let $scheme = $crate::scheme_name::Leader::<$C>::new();
                $done
            }
            $crate::SchemeName::Count => {
                let $scheme = $crate::scheme_name::Count::<$C>::new();
                $done
            }
            $crate::SchemeName::ShortestPathTree => {
                let $scheme = $crate::scheme_name::Spt::<$C>::new();
                $done
            }
            $crate::SchemeName::MinimumSpanningTree => {
                let $scheme = $crate::scheme_name::Mst::<$C>::new();
                $done
            }
            $crate::SchemeName::PathMax => {
                let $scheme = $crate::scheme_name::PathMax::<$C>::new();
                $done
            }
        }
    };
}
