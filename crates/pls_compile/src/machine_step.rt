//! A step of the rule machine on a view.

ghost use Rattle.std.specs.Prelude.{◌≡◌, true};
ghost use Rattle.std.specs.List.{list_all};
ghost use Rattle.pls_rules.specs.RuleSet.{AreRules, Rules, kinds_of};
ghost use Rattle.pls_compile.specs.Code.{code_of_rules};
ghost use Rattle.pls_compile.specs.ReadLabels.{is_read, sight_of};
ghost use Rattle.pls_compile.specs.RuleMachine.{IsReached, came_to, step};

use crate::code::Code;
use crate::in_view::{NodeInView, view_fits};
use crate::machine::Machine;
use crate::step::step_on;
use pls_configuration::Verdict;
use pls_labels::View;
use pls_numbers::FieldKind;

impl Machine {
    /// Makes one step: the verdict, where it answers. The code is that of a set with these fields,
    /// each label of the view is of their layout, and the machine is at its start or where earlier
    /// steps on this code, these fields and this view led. It takes no memory.
    pub fn step(&mut self, code: &Code, fields: &[FieldKind], view: &View<'_>) -> Option<Verdict>
        requires compiled { (set : Rules) × AreRules set
            × (fields.now ≡ kinds_of set.fields) × (code.now ≡ code_of_rules set.rules) }
        requires own { is_read fields.now view.now.own ≡ true }
        requires ports { list_all (λ port. is_read fields.now port.label) view.now.ports ≡ true }
        requires reached { IsReached code.now (sight_of fields.now view.now) self.old }
        ensures { step code.now (sight_of fields.now view.now) self.old ≡ came_to result self.new }
    {
        view_fits(view);
        let node = NodeInView {
            kinds: fields,
            view,
        };
        step_on(self, code.instructions(), &node)
    }
}
