//! Rule sets as verifiers.

ghost use Rattle.std.specs.Prelude.{◌≡◌, ◌<◌, Some, length, map, slice_get, IfOk};
ghost use Rattle.pls_bits.specs.Gamma.{gamma_takes};
ghost use Rattle.pls_labels.specs.Seen.{Seen, views};
ghost use Rattle.pls_rules.specs.HeldTrees.{set_of};
ghost use Rattle.pls_rules.specs.RuleSet.{AreRules, kinds_of};
ghost use Rattle.pls_compile.specs.ReadLabels.{numbers_in};
ghost use Rattle.pls_compile.specs.RuleMeaning.{meaning};

use crate::code::{Code, compile};
use crate::field_table::FieldTable;
use crate::fields::{are_read, read_fields};
use crate::in_network::{NodeInNetwork, node_fits};
use crate::in_view::{NodeInView, view_fits};
use crate::machine::Machine;
use crate::run::run_code;
use pls_configuration::Verdict;
use pls_graph::Network;
use pls_labels::{Labels, View};
use pls_numbers::Fields;
use pls_rules::RuleSet;
use pls_scheme::Checker;
use pls_streams::{NoMemory, Steps};
use std::alloc::Global;
use std::marker::Model;

/// A verifier by a rule set, seen as the set. It runs the set's code. In a round each label is read
/// once, into a table for all nodes, and no view is made.
#[derive(Drop)]
pub struct RuleChecker {
    set: RuleSet,
    format: Fields,
    code: Code,
}

impl Model for RuleChecker {
    ghost use Rattle.std.specs.Prelude.{◌≡◌};
    ghost use Rattle.std.specs.Coded.{codes};
    ghost use Rattle.pls_rules.specs.contracts.rule_set.RuleSet as e;
    ghost use Rattle.pls_rules.specs.declared.rule_set.RuleSet.{RuleSet};
    ghost use Rattle.pls_rules.specs.HeldTrees.{set_of};
    ghost use Rattle.pls_rules.specs.RuleSet.{AreRules, kinds_of};
    ghost use Rattle.pls_compile.specs.Code.{code_of_rules};

    ghost Value = { RuleSet };

    ghost coded = { Prim.hlevel (codes, e.the_row.coded) };

    ghost view = { λ checker. checker.set };

    ghost invariant = { λ checker.
        (checker.format.kinds.items ≡ kinds_of (set_of checker.set).fields)
        × (checker.code ≡ code_of_rules (set_of checker.set).rules)
        × AreRules (set_of checker.set) };
}

impl RuleChecker {
    /// The verifier by a rule set. The one error is want of memory.
    pub fn new(alloc: Global, set: RuleSet) -> Result<RuleChecker, NoMemory>
        requires { AreRules (set_of set) }
        ensures { IfOk result (λ checker. checker ≡ set) }
    {
        let mut kinds = Vec::new(alloc);
        for field in &set.fields {
            kinds.push(field.kind)?;
        }
        let code = compile(alloc, &set)?;
        Ok(RuleChecker {
            set,
            format: Fields { kinds },
            code,
        })
    }

    /// How labels are written: the fields of the set.
    pub fn format(&self) -> &Fields
        ensures { result.now.kinds.items ≡ kinds_of (set_of self.now).fields }
    {
        &self.format
    }

    fn verdict_on(&self, view: &View<'_>) -> Verdict
        ensures { result ≡ meaning gamma_takes (set_of self.now) view.now }
    {
        let kinds = self.format.kinds.as_slice();
        if read_fields(kinds, &view.own).is_none() {
            return Verdict::Reject { leaf: 1, rule: 1 };
        }
        if !are_read(kinds, view.ports.as_slice()) {
            return Verdict::Reject { leaf: 1, rule: 2 };
        }
        view_fits(view);
        let node = NodeInView { kinds, view };
        let mut machine = Machine::start();
        run_code(&mut machine, &self.set, self.code.instructions(), &node)
    }

    fn verdict_at<L: Labels>(
        &self,
        machine: &mut Machine,
        net: &Network,
        labels: &L,
        table: &FieldTable,
        i: usize,
    ) -> Verdict
        requires each { length (L.listed labels.now) ≡ length net.now }
        requires table { table.now
            ≡ map (numbers_in (kinds_of (set_of self.now).fields)) (L.listed labels.now) }
        requires within { i < length net.now }
        ensures { (view : Seen) → slice_get (views net.now (L.listed labels.now)) i ≡ Some view
            → result ≡ meaning gamma_takes (set_of self.now) view }
    {
        let (id, state) = net.node(i);
        let ports = net.ports(i);
        let places = net.places(i);
        let Some(own) = table.label(i) else {
            return Verdict::Reject { leaf: 1, rule: 1 };
        };
        if !table.are_read(places) {
            return Verdict::Reject { leaf: 1, rule: 2 };
        }
        node_fits(id, &state, ports);
        let node = NodeInNetwork {
            id,
            state,
            own,
            ports,
            places,
            table,
        };
        run_code(machine, &self.set, self.code.instructions(), &node)
    }
}

impl Checker for RuleChecker {
    ghost use Rattle.std.specs.Prelude.{true, false, refl};
    ghost use Rattle.pls_bits.specs.Gamma.{gamma_takes};
    ghost use Rattle.pls_rules.specs.HeldTrees.{set_of};
    ghost use Rattle.pls_scheme.specs.laws.LeafLaws.{judge_by-leaf};
    ghost use Rattle.pls_numbers.specs.Fixed.{fields_shape};
    ghost use Rattle.pls_numbers.specs.Shape.{said_by};
    ghost use Rattle.pls_rules.specs.RuleSet.{kinds_of};
    ghost use Rattle.pls_compile.specs.RuleMeaning.{meaning, rules_hold};

    ghost judge = { λ set view. meaning gamma_takes (set_of set) view };

    ghost leaves = { λ _. 1 };

    ghost lends = { λ _. true };

    ghost TAKES_MEMORY = { false };

    const TAKES_MEMORY: bool = false;

    fn leaves(&self) -> u8 {
        1
    }

    fn lends(&self) -> bool {
        true
    }

    fn verify(
        &self,
        _alloc: Global,
        view: &View<'_>,
        steps: &mut Steps,
    ) -> Result<Verdict, NoMemory> {
        steps.tick();
        Ok(self.verdict_on(view))
    }

    fn round<L: Labels>(
        &self,
        alloc: Global,
        net: &Network,
        labels: &L,
        steps: &mut Steps,
    ) -> Result<Vec<Verdict>, NoMemory> {
        let table = FieldTable::of(alloc, self.format.kinds.as_slice(), labels)?;
        let mut machine = Machine::start();
        let mut verdicts = Vec::with_capacity(alloc, net.len())?;
        for i in 0..net.len() {
            steps.tick();
            verdicts.push(self.verdict_at(&mut machine, net, labels, &table, i))?;
        }
        Ok(verdicts)
    }

    ghost leaf_law = { λ set. judge_by-leaf
        (said_by (fields_shape (kinds_of (set_of set).fields)) gamma_takes)
        (rules_hold (set_of set).rules) };

    ghost lends_law = { λ _ _. refl };
}
