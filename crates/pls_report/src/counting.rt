//! How many nodes reject, how many wait, and whether all accept.

ghost use Rattle.std.specs.Prelude.{◌≡◌};
ghost use Rattle.pls_sim.specs.declared.outcome.Outcome.TheVariants.{Decided};
ghost use Rattle.pls_report.specs.Report.{all_accept, all_verdicts_accept, is_accepting, is_rejecting, is_waiting, rejecting, rejecting_verdicts, waiting};

use pls_configuration::Verdict;
use pls_sim::Outcome;

/// How many of the nodes reject.
pub fn rejecting(rows: &[(u32, Outcome)]) -> usize
    ensures { result ≡ rejecting rows.now }
{
    rows.iter().filter(|row| rejects(&row.1)).count()
}

/// How many of the nodes reject, of nodes with their verdicts.
pub(crate) fn rejecting_verdicts(rows: &[(u32, Verdict)]) -> usize
    ensures { result ≡ rejecting_verdicts rows.now }
{
    rows.iter().filter(|row| is_reject(row.1)).count()
}

/// How many of the nodes wait.
pub fn waiting(rows: &[(u32, Outcome)]) -> usize
    ensures { result ≡ waiting rows.now }
{
    rows.iter().filter(|row| waits(&row.1)).count()
}

/// Whether all nodes accept: each has decided, and none has rejected.
pub fn all_accept(rows: &[(u32, Outcome)]) -> bool
    ensures { result ≡ all_accept rows.now }
{
    rows.iter().all(|row| accepts(&row.1))
}

/// Whether all nodes accept, of nodes with their verdicts.
pub fn all_verdicts_accept(rows: &[(u32, Verdict)]) -> bool
    ensures { result ≡ all_verdicts_accept rows.now }
{
    rows.iter().all(|row| is_accept(row.1))
}

fn is_accept(verdict: Verdict) -> bool
    ensures { result ≡ is_accepting (Decided verdict) }
{
    matches!(verdict, Verdict::Accept)
}

fn accepts(outcome: &Outcome) -> bool
    ensures { result ≡ is_accepting outcome.now }
{
    match outcome {
        Outcome::Decided(Verdict::Accept) => true,
        _ => false,
    }
}

/// Whether a node rejects.
pub fn rejects(outcome: &Outcome) -> bool
    ensures { result ≡ is_rejecting outcome.now }
{
    match outcome {
        Outcome::Decided(Verdict::Reject { .. }) => true,
        _ => false,
    }
}

fn is_reject(verdict: Verdict) -> bool
    ensures { result ≡ is_rejecting (Decided verdict) }
{
    matches!(verdict, Verdict::Reject { .. })
}

/// Whether a node waits.
pub fn waits(outcome: &Outcome) -> bool
    ensures { result ≡ is_waiting outcome.now }
{
    match outcome {
        Outcome::Waiting(_) => true,
        Outcome::Decided(_) => false,
    }
}
