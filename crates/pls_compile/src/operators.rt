//! What instructions make of numbers.

ghost use Rattle.std.specs.Prelude.{◌≡◌, ◌<◌, ◌^◌};
ghost use Rattle.pls_bits.specs.Bytes.{weigh};
ghost use Rattle.pls_compile.specs.RuleMachine.{second_if_one, two_of};

use crate::instr::Instr;

// 0 unless `instr` is an operator on two numbers.
#[inline(always)]
pub(crate) fn operator_value(instr: Instr, first: u128, second: u128) -> u128
    requires { two_of instr first second < 2 ^ 128 }
    ensures { result ≡ two_of instr first second }
{
    match instr {
        Instr::Add => first + second,
        Instr::Mask => second_if_one(first, second),
        Instr::Eq => one_if(first == second),
        Instr::Lt => one_if(first < second),
        Instr::Le => one_if(first <= second),
        Instr::Both => one_if(first == 1 && second == 1),
        Instr::Either => one_if(first == 1 || second == 1),
        _ => 0,
    }
}

// 0 unless `first` is 1.
#[inline(always)]
fn second_if_one(first: u128, second: u128) -> u128
    ensures { result ≡ second_if_one first second }
{
    if first == 1 { second } else { 0 }
}

#[inline(always)]
pub(crate) fn one_if(holds: bool) -> u128
    ensures { result ≡ weigh holds }
{
    if holds { 1 } else { 0 }
}
