//! The machine, step by step.

ghost use Rattle.std.specs.Prelude.{◌≡◌, true, IfOk};
ghost use Rattle.std.specs.List.{list_all};
ghost use Rattle.pls_rules.specs.HeldTrees.{set_of};
ghost use Rattle.pls_rules.specs.RuleSet.{AreRules, Rules, kinds_of};
ghost use Rattle.pls_compile.specs.Code.{code_of_rules};
ghost use Rattle.pls_compile.specs.ReadLabels.{is_read};

use pls_bits::{BitBuf, Gamma};
use pls_builtin::builtin;
use pls_compile::{Code, Machine, RuleChecker, compile};
use pls_graph::Network;
use pls_labels::{LabelStore, PortView, View};
use pls_netfile::read_network;
use pls_numbers::{FieldKind, Fields, Format};
use pls_rules::RuleSet;
use pls_scheme::Verdict;
use pls_streams::NoMemory;
use std::alloc::Global;
use std::test::Fail;

// The verdict of the machine and its steps, `None` where 99 steps are not enough.
fn verdict_and_steps(code: &Code, kinds: &[FieldKind], view: &View<'_>) -> Option<(Verdict, u32)>
    requires compiled { (set : Rules) × AreRules set
        × (kinds.now ≡ kinds_of set.fields) × (code.now ≡ code_of_rules set.rules) }
    requires own { is_read kinds.now view.now.own ≡ true }
    requires ports { list_all (λ port. is_read kinds.now port.label) view.now.ports ≡ true }
{
    let mut machine = Machine::start();
    for count in 1..100_u32 {
        if let Some(verdict) = machine.step(code, kinds, view) {
            return Some((verdict, count));
        }
    }
    None
}

fn are_labels(alloc: Global, format: &Fields, ports: &[PortView<'_>]) -> Result<bool, NoMemory>
    ensures { IfOk result (λ yes.
        yes ≡ list_all (λ port. is_read format.now.kinds.items port.label) ports.now) }
{
    match ports.split_first() {
        None => Ok(true),
        Some((port, others)) => {
            Ok(
                format.read::<Gamma>(alloc, &port.label)?.is_some()
                    && are_labels(alloc, format, others)?,
            )
        }
    }
}

// As `verdict_and_steps`, and `None` where a label is not of the format.
fn verdict_and_steps_if_read(
    alloc: Global,
    code: &Code,
    format: &Fields,
    view: &View<'_>,
) -> Result<Option<(Verdict, u32)>, NoMemory>
    requires { (set : Rules) × AreRules set
        × (format.now.kinds.items ≡ kinds_of set.fields) × (code.now ≡ code_of_rules set.rules) }
{
    let own = format.read::<Gamma>(alloc, &view.own)?.is_some();
    if own && are_labels(alloc, format, view.ports.as_slice())? {
        Ok(verdict_and_steps(code, format.kinds.as_slice(), view))
    } else {
        Ok(None)
    }
}

fn steps_of(
    alloc: Global,
    set: RuleSet,
    view: &View<'_>,
) -> Result<Option<(Verdict, u32)>, NoMemory>
    requires { AreRules (set_of set) }
{
    let code = compile(alloc, &set)?;
    let checker = RuleChecker::new(alloc, set)?;
    verdict_and_steps_if_read(alloc, &code, checker.format(), view)
}

// Three nodes in a row.
const ROW: &str = "network\nnode 1 - 0 0\nport 2 1\nnode 2 - 0 0\nport 1 1\nport 3 1\n\
                   node 3 - 0 0\nport 2 1\nend\n";

// Replaces each label by the bit of its colour.
fn put_colours(alloc: Global, labels: &mut LabelStore, colours: &[bool]) -> Result<(), NoMemory> {
    for (i, colour) in colours.iter().enumerate() {
        let mut label = BitBuf::new(alloc);
        label.push(*colour)?;
        if i < labels.len() {
            labels.replace(i, &label)?;
        }
    }
    Ok(())
}

// The verdict and steps of `bipartite` on a view.
fn steps_on(alloc: Global, view: &View<'_>) -> Result<Option<(Verdict, u32)>, Fail> {
    match builtin(alloc, "bipartite")? {
        Some(set) => Ok(steps_of(alloc, set, view)?),
        None => Err(Fail::from("no set")),
    }
}

fn steps_at(
    alloc: Global,
    net: &Network,
    labels: &LabelStore,
    place: usize,
) -> Result<Option<(Verdict, u32)>, Fail> {
    if labels.len() != net.len() || place >= net.len() {
        return Err(Fail::from("no such place"));
    }
    steps_on(alloc, &View::of(alloc, net, labels, place)?)
}

fn steps_among(
    alloc: Global,
    net: &Network,
    colours: &[bool],
    place: usize,
) -> Result<Option<(Verdict, u32)>, Fail> {
    let mut labels = LabelStore::blank(alloc, net.len())?;
    put_colours(alloc, &mut labels, colours)?;
    steps_at(alloc, net, &labels, place)
}

const CLASH: Verdict = Verdict::Reject { leaf: 1, rule: 3 };

// Colours, a place, and the verdict and the steps: two in front of the ports, seven for each port,
// one behind them, one for the rule, and one that accepts.
const STEPPED: &[([bool; 3], usize, Verdict, u32)] = &[
    ([true, false, true], 1, Verdict::Accept, 19),
    ([true, false, false], 1, CLASH, 18),
    ([false, false, true], 1, CLASH, 18),
    ([true, false, false], 0, Verdict::Accept, 12),
    ([true, false, false], 2, CLASH, 11),
];

#[test]
fn a_machine_steps_to_its_verdict(rt: HostRuntime) -> Result<(), Fail> {
    let Ok(net) = read_network(rt.alloc(), ROW.as_bytes()) else {
        return Err(Fail::from("refused"));
    };
    for (colours, place, verdict, steps) in STEPPED {
        let found = steps_among(rt.alloc(), &net, colours, *place)?;
        assert!(rt; found == Some((*verdict, *steps)), "{place}, {steps}");
    }
    Ok(())
}
