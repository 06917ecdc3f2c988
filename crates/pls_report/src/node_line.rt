//! The line of a node of a look, put behind a text.

ghost use Rattle.std.specs.Prelude.{◌≡◌, ◌++◌, ◌∷◌, [], codes, decimal, OnErr, OnOk};
ghost use Rattle.pls_report.specs.Look.{look_line};
ghost use Rattle.pls_report.specs.inner.Pieces.{BeginsWith, outcome_tail, spaced, stale_tail};

use crate::decided::{line_in, number_at};
use crate::look_row::told_ports;
use pls_configuration::Verdict;
use pls_sim::Outcome;
use pls_streams::NoMemory;

/// Adds the line of a node with its line feed. The one error is want of memory: the text is then as
/// it was.
pub(crate) fn add_line(
    text: &mut Vec<u8>,
    id: u32,
    outcome: &Outcome,
    stale: &[u32],
) -> Result<(), NoMemory>
    ensures line { OnOk result
        (text.new.items ≡ text.old.items ++ (look_line (id, outcome.now, stale.now) ++ 10 ∷ [])) }
    ensures unchanged { OnErr result (text.new.items ≡ text.old.items) }
{
    let start = text.len();
    let added = add_pieces(text, id, outcome, stale);
    if added.is_err() {
        text.truncate(start);
    }
    added
}

// Fails only for want of memory; some pieces may then have been added.
fn add_pieces(text: &mut Vec<u8>, id: u32, outcome: &Outcome, stale: &[u32]) -> Result<(), NoMemory>
    ensures line { OnOk result
        (text.new.items ≡ text.old.items ++ (look_line (id, outcome.now, stale.now) ++ 10 ∷ [])) }
    ensures begins { BeginsWith text.old.items text.new.items }
{
    add_outcome(text, id, outcome)?;
    add_stale(text, told_ports(outcome, stale))?;
    text.push(b'\n')?;
    Ok(())
}

fn add_outcome(text: &mut Vec<u8>, id: u32, outcome: &Outcome) -> Result<(), NoMemory>
    ensures text { OnOk result (text.new.items
        ≡ text.old.items ++ ((codes "node " ++ decimal id) ++ outcome_tail outcome.now)) }
    ensures begins { BeginsWith text.old.items text.new.items }
{
    match outcome {
        Outcome::Decided(verdict) => add_decided(text, id, *verdict),
        Outcome::Waiting(ports) => {
            text.extend_from_slice(b"node")?;
            add_spaced(text, id)?;
            add_listed(text, b" waiting", ports.as_slice())
        }
    }
}

// Puts the pieces together first: adding one costs less than adding many.
fn add_decided(text: &mut Vec<u8>, id: u32, verdict: Verdict) -> Result<(), NoMemory>
    ensures text { OnOk result (text.new.items ≡ text.old.items
        ++ ((codes "node " ++ decimal id) ++ outcome_tail (Outcome.Decided verdict))) }
    ensures begins { BeginsWith text.old.items text.new.items }
{
    let mut front = [0; 80];
    let count = line_in(&mut front, id, verdict);
    text.extend_from_slice(&front[..count])?;
    Ok(())
}

fn add_stale(text: &mut Vec<u8>, ports: &[u32]) -> Result<(), NoMemory>
    ensures text { OnOk result (text.new.items ≡ text.old.items ++ stale_tail ports.now) }
    ensures begins { BeginsWith text.old.items text.new.items }
{
    if ports.is_empty() {
        return Ok(());
    }
    add_listed(text, b" stale", ports)
}

// Adds `word`, then each number behind a space.
fn add_listed(text: &mut Vec<u8>, word: &[u8], numbers: &[u32]) -> Result<(), NoMemory>
    ensures text { OnOk result
        (text.new.items ≡ text.old.items ++ (word.now ++ spaced numbers.now)) }
    ensures begins { BeginsWith text.old.items text.new.items }
{
    text.extend_from_slice(word)?;
    for number in numbers {
        add_spaced(text, *number)?;
    }
    Ok(())
}

fn add_spaced(text: &mut Vec<u8>, number: u32) -> Result<(), NoMemory>
    ensures text { OnOk result (text.new.items ≡ text.old.items ++ (codes " " ++ decimal number)) }
    ensures begins { BeginsWith text.old.items text.new.items }
{
    let mut piece = [b' '; 21];
    let count = number_at(&mut piece, 1, number as u64);
    text.extend_from_slice(&piece[..count])?;
    Ok(())
}
