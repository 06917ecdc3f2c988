//! One step of the rule machine.

ghost use Rattle.std.specs.Prelude.{◌≡◌, ◌<◌, ◌^◌};
ghost use Rattle.std.specs.Option.{is_some};
ghost use Rattle.pls_scheme.specs.Reading.{target};
ghost use Rattle.pls_compile.specs.RuleMachine.{IsAble, act, came_to, put_above, step};
ghost use Rattle.pls_compile.specs.RuleMeaning.{weight_at};
ghost use Rattle.pls_compile.specs.declared.instr.Instr.TheVariants.{Nb, NbUp, NbWeight};

use crate::instr::Instr;
use crate::machine::Machine;
use crate::operators::one_if;
use crate::sees::Sees;
use pls_configuration::Verdict;
use pls_scheme::is_pointer;

// `None` where the machine goes on; it must not be stuck before the step.
#[inline(always)]
pub(crate) fn step_on<S: Sees>(machine: &mut Machine, code: &[Instr], node: &S) -> Option<Verdict>
    requires { IsAble (step code.now (S.sight node.now) machine.old) }
    ensures { step code.now (S.sight node.now) machine.old ≡ came_to result machine.new }
{
    let instr = code[machine.place()];
    act_on(machine, instr, node)
}

#[inline(always)]
fn act_on<S: Sees>(machine: &mut Machine, instr: Instr, node: &S) -> Option<Verdict>
    requires able { IsAble (act (S.sight node.now) instr machine.old) }
    requires within { machine.old.place < 2 ^ 63 }
    ensures { act (S.sight node.now) instr machine.old ≡ came_to result machine.new }
{
    match instr {
        Instr::Push(number) => machine.put(u128::from(number)),
        Instr::Id => machine.put(u128::from(node.id())),
        Instr::Mark => machine.put(u128::from(node.state().mark)),
        Instr::Num => machine.put(u128::from(node.state().num)),
        Instr::Degree => machine.put(u128::from(node.degree())),
        Instr::Pointed => machine.put(one_if(node.state().up.is_some())),
        Instr::My(field) => machine.put(u128::from(node.own(field))),
        Instr::Up(field) => put_above(machine, field, node),
        Instr::Nb(field) => put_beside(machine, field, node),
        Instr::UpWeight => machine.put(u128::from(weight_above(node))),
        Instr::NbWeight => put_weight_beside(machine, node),
        Instr::NbUp => put_is_above(machine, node),
        Instr::Add
        | Instr::Mask
        | Instr::Eq
        | Instr::Lt
        | Instr::Le
        | Instr::Both
        | Instr::Either => machine.combine(instr),
        Instr::Not => machine.negate(),
        Instr::Begin => machine.begin(),
        Instr::More(end) => machine.more(end, node.degree()),
        Instr::Next(start) => machine.turn(start, node.degree()),
        Instr::Rule(number) => machine.rule(number),
        Instr::Accept => Some(Verdict::Accept),
    }
}

// 0 where the node points at no port.
#[inline(always)]
fn put_above<S: Sees>(machine: &mut Machine, field: u8, node: &S) -> Option<Verdict>
    requires able { IsAble (put_above field (target (S.sight node.now)) machine.old) }
    requires within { machine.old.place < 2 ^ 63 }
    ensures { put_above field (target (S.sight node.now)) machine.old ≡ came_to result machine.new }
{
    match node.state().up {
        Some(port) => machine.put(u128::from(node.beside(port, field))),
        None => machine.put(0),
    }
}

// Puts a field of the label at the innermost port.
#[inline(always)]
fn put_beside<S: Sees>(machine: &mut Machine, field: u8, node: &S) -> Option<Verdict>
    requires able { IsAble (act (S.sight node.now) (Nb field) machine.old) }
    requires within { machine.old.place < 2 ^ 63 }
    ensures { act (S.sight node.now) (Nb field) machine.old ≡ came_to result machine.new }
{
    let port = machine.port();
    machine.put(u128::from(node.beside(port, field)))
}

#[inline(always)]
fn put_weight_beside<S: Sees>(machine: &mut Machine, node: &S) -> Option<Verdict>
    requires able { IsAble (act (S.sight node.now) NbWeight machine.old) }
    requires within { machine.old.place < 2 ^ 63 }
    ensures { act (S.sight node.now) NbWeight machine.old ≡ came_to result machine.new }
{
    let port = machine.port();
    machine.put(u128::from(node.weight(port)))
}

// Puts 1 where the node points at the innermost port, else 0.
#[inline(always)]
fn put_is_above<S: Sees>(machine: &mut Machine, node: &S) -> Option<Verdict>
    requires able { IsAble (act (S.sight node.now) NbUp machine.old) }
    requires within { machine.old.place < 2 ^ 63 }
    ensures { act (S.sight node.now) NbUp machine.old ≡ came_to result machine.new }
{
    let port = machine.port();
    machine.put(one_if(is_pointer(node.state().up, port as usize)))
}

// 0 where the node points at no port.
#[inline(always)]
fn weight_above<S: Sees>(node: &S) -> u32
    ensures { result ≡ weight_at (target (S.sight node.now)) }
{
    match node.state().up {
        Some(port) => node.weight(port),
        None => 0,
    }
}
