//! The answer to `watch`.

ghost use Rattle.std.specs.Prelude.{◌≡◌, ◌+◌, ◌++◌, ◌<◌, ◌≤◌, ◌^◌, ℕ, List, [], not, true, length, option_map, IfOk, IfSome, None};
ghost use Rattle.pls_configuration.specs.declared.limits.TheConstants.{MAX_BITS, MAX_LINES};
ghost use Rattle.pls_sim.specs.declared.outcome.Outcome.{Outcome};
ghost use Rattle.pls_watch_part.specs.WatchText.{total_relabel_bits};
ghost use Rattle.pls_watch.specs.Labelled.{bits_given, labels_given};
ghost use Rattle.pls_inputs.specs.Parts.{Input, code_in};
ghost use Rattle.pls_app.specs.Looks.{look_after, looks_answer, looks_behind};
ghost use Rattle.pls_app.specs.Meant.{takes_of};
ghost use Rattle.pls_app.specs.WatchRefusal.{event_of, events_of, first_refused_line, line_does_not_apply};
ghost use Rattle.pls_app.specs.inner.Tasks.{Does, IsWorked};
ghost use Rattle.pls_app.specs.inner.Watching.{AreShown, HasRoomForEvents, IsWatchInput, shown_at, watched_behind};

use crate::answer::{Answer, Content, refuse_at};
use crate::command::{Command, Task};
use pls_bits::NumCode;
use pls_combine::AnyScheme;
use pls_graph::Network;
use pls_labels::LabelStore;
use pls_scheme::Checker;
use pls_streams::refusal_number::WATCH_EVENT;
use pls_streams::{NoMemory, Status, Steps};
use pls_watch::{LookRows, Lookout, Watch, WatchEvent};
use pls_watch_part::{LineQueue, WatchLine};
use std::alloc::Global;

// Shows each look, or refuses the first event that does not apply.
pub(crate) fn watch<C: NumCode>(
    alloc: Global,
    scheme: &AnyScheme<C>,
    net: &Network,
    labels: &LabelStore,
    lines: Vec<WatchLine>,
    first_line: u64,
) -> Result<Answer, NoMemory>
    requires each { length labels.now ≡ length net.now }
    requires few { length lines.items ≤ MAX_LINES }
    requires bits { total_relabel_bits lines.items ≤ MAX_BITS }
    requires line { first_line ≤ 2 ^ 63 }
    ensures does { IfOk result (λ answer. (input : Input)
        → IsWatchInput net.now labels.now lines.items first_line input
        → C.takes ≡ takes_of (code_in input) → (parts : List (List ℕ))
        → Does (Command.With Task.Watch scheme.now) input parts answer) }
    ensures worked { IfOk result (λ answer. IsWorked answer.status) }
{
    let (relabels, bits) = relabels_in(&lines);
    let watch = Watch::start(alloc, net, labels, lines.len(), relabels, bits)?;
    let mut lookout = Lookout::over(alloc, watch, scheme, &mut Steps::new())?;
    let mut well = true;
    match play(alloc, &mut lookout, LineQueue::of(lines), &mut well)? {
        Some(place) => {
            let line = first_line + place as u64;
            refuse_at(alloc, WATCH_EVENT, line)
        }
        None => Ok(looks_answer(lookout.into_shown(), well)),
    }
}

// How many lines give a label, and the bits of these labels together.
fn relabels_in(lines: &[WatchLine]) -> (usize, u64)
    requires few { length lines.now ≤ MAX_LINES }
    requires bits { total_relabel_bits lines.now ≤ MAX_BITS }
    ensures count { result.0 ≡ length (labels_given (events_of lines.now)) }
    ensures bits { result.1 ≡ bits_given (events_of lines.now) }
{
    let (mut count, mut total) = (0, 0);
    for line in lines {
        let WatchLine::Event(event) = line else {
            continue;
        };
        if let WatchEvent::Relabel { bits, .. } = event {
            count += 1;
            total += bits.bits().len() as u64;
        }
    }
    (count, total)
}

// The place of the first line whose event does not apply, `None` where all do. `well` becomes
// whether all is well at the last look.
fn play<K: Checker>(
    alloc: Global,
    lookout: &mut Lookout<'_, '_, K>,
    mut lines: LineQueue,
    well: &mut bool,
) -> Result<Option<usize>, NoMemory>
    requires start { lookout.old.watched.events ≡ [] }
    requires room { HasRoomForEvents lookout.old.watched (events_of lines) }
    requires few { length lines ≤ MAX_LINES }
    requires none { AreShown lookout.old.kept well.old [] }
    ensures place { IfOk result (λ found. (number : ℕ)
        → first_refused_line lookout.old.watched.network [] number lines
        ≡ option_map (λ place. number + place) found) }
    ensures within { IfOk result (λ found. IfSome found (λ place. place < length lines)) }
    ensures shown { IfOk result (λ found. found ≡ None → AreShown lookout.new.kept well.new
        (looks_behind (look_after (K.judge lookout.old.checker) lookout.old.watched.network
        lookout.old.watched.start) [] lines)) }
{
    let mut place = 0;
    while let Some(line) = lines.take() {
        let applies = take_line(alloc, lookout, &line, well)?;
        // What it has is let go in one place, whether it applies or not.
        drop(line);
        if !applies {
            return Ok(Some(place));
        }
        place += 1;
    }
    Ok(None)
}

// False where the event does not apply.
fn take_line<K: Checker>(
    alloc: Global,
    lookout: &mut Lookout<'_, '_, K>,
    line: &WatchLine,
    well: &mut bool,
) -> Result<bool, NoMemory>
    requires room { HasRoomForEvents lookout.old.watched (event_of line.now) }
    ensures checker { lookout.new.checker ≡ lookout.old.checker }
    ensures refused { IfOk result (λ applies. applies ≡ not (line_does_not_apply
        lookout.old.watched.network lookout.old.watched.events line.now)) }
    ensures taken { IfOk result (λ applies. applies ≡ true
        → lookout.new.watched ≡ watched_behind line.now lookout.old.watched) }
    ensures shown { IfOk result (λ applies. (looks : List (List (ℕ × Outcome × List ℕ)))
        → AreShown lookout.old.kept well.old looks
        → AreShown lookout.new.kept well.new
        (looks ++ shown_at (K.judge lookout.old.checker) lookout.old.watched line.now)) }
{
    match line {
        WatchLine::Event(event) => Ok(lookout.step(event).is_ok()),
        WatchLine::Look => {
            lookout.look(alloc, &mut Steps::new())?;
            lookout.keep_look(alloc)?;
            *well = lookout.shown().is_well();
            Ok(true)
        }
    }
}

// `well` says whether all was well at the last look, and is true where there is none.
fn looks_answer(look: LookRows, well: bool) -> Answer
    ensures says { (looks : List (List (ℕ × Outcome × List ℕ))) → AreShown look.kept well looks
        → result ≡ looks_answer looks }
    ensures worked { IsWorked result.status }
{
    Answer {
        status: if well { Status::Done } else { Status::No },
        content: Content::Looks(look),
    }
}
