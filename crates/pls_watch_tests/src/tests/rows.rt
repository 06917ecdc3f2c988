//! Worked rows on two nodes.

use super::{NodeLook, labels, look, network};
use pls_bits::Gamma;
use pls_colour::Bipartite;
use pls_lines::Lines;
use pls_scheme::Checker;
use pls_sim::EventError;
use pls_streams::Steps;
use pls_watch::{Lookout, Watch};
use pls_watch_part::{WatchLine, scan_watch};
use std::alloc::Global;
use std::test::Fail;

// Two linked nodes, and their colours.
const PAIR: &str = "network\nnode 1 - 0 0\nport 2 1\nnode 2 - 0 0\nport 1 1\nend\n";

const COLOURS: &str = "labels\nlabel 1 1 00\nlabel 2 1 80\nend\n";

// The lines of a part, and what the last look shows.
const ROWS: &[(&str, &[NodeLook])] = &[
    ("look\n", &[(1, 2, 1, 0), (2, 2, 1, 0)]),
    (
        "emit 1 0\nemit 2 0\narrive 1\narrive 2\nrelabel 1 1 80\nlook\n",
        &[(1, 1, 0, 0), (2, 0, 0, 1)],
    ),
    (
        "emit 1 0\nrelabel 1 1 80\nrelabel 2 1 00\nemit 1 0\nemit 2 0\n\
         arrive 3\narrive 2\narrive 1\nlook\n",
        &[(1, 0, 0, 0), (2, 0, 0, 0)],
    ),
    (
        "relabel 2 1 00\nemit 1 0\narrive 1\nlook\nrestart 2\nlook\n",
        &[(1, 2, 1, 0), (2, 2, 1, 0)],
    ),
    (
        "emit 1 0\narrive 1\nrelabel 2 1 00\nrestart 1\narrive 1\nlook\n",
        &[(1, 2, 1, 0), (2, 1, 0, 0)],
    ),
];

fn lines_of(alloc: Global, lines: &str) -> Result<Vec<WatchLine>, Fail> {
    let text = format!(in alloc; "watch\n{lines}end\n")?;
    let Ok(part) = scan_watch(&mut Lines::new(text.as_bytes())) else {
        return Err(Fail::from("refused"));
    };
    match part.list(alloc) {
        Ok(list) => Ok(list),
        Err(_) => Err(Fail::from("no list")),
    }
}

fn last_look<K: Checker>(alloc: Global, checker: &K, lines: &str) -> Result<Vec<NodeLook>, Fail> {
    let net = network(alloc, PAIR)?;
    let colours = labels(alloc, &net, COLOURS)?;
    let list = lines_of(alloc, lines)?;
    let watch = Watch::start(alloc, &net, &colours, 100, 10, 100)?;
    let mut lookout = Lookout::over(alloc, watch, checker, &mut Steps::new())?;
    play(alloc, &mut lookout, list.as_slice())
}

// The answer is what the last look shows.
fn play<K: Checker>(
    alloc: Global,
    lookout: &mut Lookout<'_, '_, K>,
    lines: &[WatchLine],
) -> Result<Vec<NodeLook>, Fail> {
    let mut shown = Vec::new(alloc);
    for line in lines {
        match line {
            WatchLine::Event(event) => lookout.step(event)?,
            WatchLine::Look => shown = look(alloc, lookout)?,
        }
    }
    Ok(shown)
}

#[test]
fn rows_on_two_nodes(rt: HostRuntime) -> Result<(), Fail> {
    let checker = Bipartite::<Gamma>::new();
    for (lines, shown) in ROWS {
        assert!(rt;
            last_look(rt.alloc(), &checker, lines)?.as_slice() == *shown,
            "the rows of {lines}"
        );
    }
    Ok(())
}

// Lines whose last event is refused, and why, where at most five events, two relabels and three
// bits are taken.
const REFUSED: &[(&str, EventError)] = &[
    ("arrive 1\nlook\n", EventError::NoEmit),
    ("arrive 0\nlook\n", EventError::NoEmit),
    ("emit 1 0\narrive 2\nlook\n", EventError::NoEmit),
    ("emit 3 0\nlook\n", EventError::NoNode),
    ("emit 1 1\nlook\n", EventError::NoPort),
    ("restart 3\nlook\n", EventError::NoNode),
    ("relabel 3 1 80\nlook\n", EventError::NoNode),
    (
        "relabel 1 1 80\nrelabel 1 1 80\nrelabel 9 1 80\nlook\n",
        EventError::Full,
    ),
    ("relabel 1 2 80\nrelabel 1 2 80\nlook\n", EventError::Full),
    (
        "restart 1\nrestart 1\nrestart 1\nrestart 1\nrestart 1\nrestart 9\nlook\n",
        EventError::Full,
    ),
];

// Fails where a refused event changes what a look shows.
fn refusal<K: Checker>(
    alloc: Global,
    checker: &K,
    lines: &str,
) -> Result<Option<EventError>, Fail> {
    let net = network(alloc, PAIR)?;
    let colours = labels(alloc, &net, COLOURS)?;
    let list = lines_of(alloc, lines)?;
    let watch = Watch::start(alloc, &net, &colours, 5, 2, 3)?;
    let mut lookout = Lookout::over(alloc, watch, checker, &mut Steps::new())?;
    first_refusal(alloc, &mut lookout, list.as_slice())
}

fn first_refusal<K: Checker>(
    alloc: Global,
    lookout: &mut Lookout<'_, '_, K>,
    lines: &[WatchLine],
) -> Result<Option<EventError>, Fail> {
    for line in lines {
        let WatchLine::Event(event) = line else {
            continue;
        };
        let before = look(alloc, lookout)?;
        if let Err(error) = lookout.step(event) {
            if look(alloc, lookout)?.as_slice() == before.as_slice() {
                return Ok(Some(error));
            }
            return Err(Fail::from("a refused event changed something"));
        }
    }
    Ok(None)
}

#[test]
fn refused_events_change_nothing(rt: HostRuntime) -> Result<(), Fail> {
    let checker = Bipartite::<Gamma>::new();
    for (lines, error) in REFUSED {
        assert!(rt;
            refusal(rt.alloc(), &checker, lines)? == Some(*error),
            "the refusal of {lines}"
        );
    }
    Ok(())
}
