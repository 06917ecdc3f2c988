//! The verdict on a view, by rules that are tried in place.

ghost use Rattle.std.specs.Prelude.{◌≡◌};
ghost use Rattle.pls_scheme.specs.Basic.{verdict_by};

use crate::in_place::{JudgesInPlace, LabelGlance};
use crate::pointer::is_pointer;
use pls_configuration::Verdict;
use pls_labels::View;

// The verdict in one pass over the ports, with one look at each label.
pub(crate) fn judge_view<R: JudgesInPlace>(rules: &R, view: &View<'_>) -> Verdict
    ensures { result ≡ verdict_by (R.Format.shape (R.format rules.now)) (R.rules rules.now)
        R.Code.takes view.now }
{
    let Some(glance) = rules.look(&view.own) else {
        return Verdict::Reject { leaf: 1, rule: 1 };
    };
    let own = LabelGlance {
        bits: &view.own,
        glance: &glance,
    };
    let mut tally = rules.open(&glance);
    let mut above = None;
    for (place, port) in view.ports.iter().enumerate() {
        let Some(seen) = rules.look(&port.label) else {
            return Verdict::Reject { leaf: 1, rule: 2 };
        };
        let label = LabelGlance {
            bits: &port.label,
            glance: &seen,
        };
        tally = rules.pass(view.state.up, &own, tally, place, port.weight, &label);
        if is_pointer(view.state.up, place) {
            above = Some(seen);
        }
    }
    rules.close(view.id, view.state, &own, above.as_ref(), tally)
}
