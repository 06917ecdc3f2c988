//! The rule machine.

ghost use Rattle.std.specs.Prelude.{◌≡◌, ◌<◌, ◌≤◌, ◌^◌, ◌+◌, ◌-◌, List, ℕ, ◌∷◌, length};
ghost use Rattle.pls_compile.specs.RuleMachine.{IsAble, begin, came_to, more, on_top, on_two, put, rule, start, state_at, turn, two_of};

use crate::instr::Instr;
use crate::operators::operator_value;
use pls_configuration::Verdict;
use std::marker::Model;

// How many numbers there is room for, and how many ports.
const MOST_NUMBERS: usize = 40;

const MOST_PORTS: usize = 2;

/// The state of a rule machine: a place in the code, a stack of at most 40 numbers and a list of at
/// most 2 ports. It takes no memory.
#[derive(Drop)]
pub struct Machine {
    place: usize,
    // The stack lies behind `top`, its top first.
    stack: [u128; MOST_NUMBERS],
    top: usize,
    // The ports lie behind `inner`, the innermost first.
    ports: [u32; MOST_PORTS],
    inner: usize,
}

impl Model for Machine {
    ghost use Rattle.std.specs.Prelude.{◌≤◌, drop};
    ghost use Rattle.pls_compile.specs.RuleMachine.{MachineState, state_at};

    ghost Value = { MachineState };

    ghost view = { λ machine. state_at machine.place (drop machine.top machine.stack)
        (drop machine.inner machine.ports) };

    ghost invariant = { λ machine. (machine.top ≤ 40) × (machine.inner ≤ 2) };
}

impl Machine {
    /// The state at place 0 with no number and no port.
    pub fn start() -> Machine
        ensures { result ≡ start }
    {
        Machine {
            place: 0,
            stack: [0; MOST_NUMBERS],
            top: MOST_NUMBERS,
            ports: [0; MOST_PORTS],
            inner: MOST_PORTS,
        }
    }

    // The stack lies behind `top`, so its numbers need not be cleared.
    #[inline(always)]
    pub(crate) fn restart(&mut self)
        ensures { self.new ≡ start }
    {
        self.place = 0;
        self.top = MOST_NUMBERS;
        self.inner = MOST_PORTS;
    }

    #[inline(always)]
    pub(crate) fn place(&self) -> usize
        ensures { result ≡ self.now.place }
    {
        self.place
    }

    #[inline(always)]
    fn push(&mut self, number: u128)
        requires { length self.old.stack < 40 }
        ensures { self.new ≡ state_at self.old.place (number ∷ self.old.stack) self.old.ports }
    {
        self.top -= 1;
        self.stack[self.top] = number;
    }

    #[inline(always)]
    fn pop(&mut self) -> u128
        requires { 1 ≤ length self.old.stack }
        ensures { self.old ≡ state_at self.new.place (result ∷ self.new.stack) self.new.ports }
    {
        let number = self.stack[self.top];
        self.top += 1;
        number
    }

    #[inline(always)]
    fn go_on(&mut self)
        requires { self.old.place < 2 ^ 63 }
        ensures { self.new ≡ state_at (self.old.place + 1) self.old.stack self.old.ports }
    {
        self.place += 1;
    }

    // Pushes a number and goes on.
    #[inline(always)]
    pub(crate) fn put(&mut self, number: u128) -> Option<Verdict>
        requires able { IsAble (put number self.old) }
        requires within { self.old.place < 2 ^ 63 }
        ensures { put number self.old ≡ came_to result self.new }
    {
        self.push(number);
        self.go_on();
        None
    }

    // Replaces the top two by the value of `instr` on them, and goes on.
    #[inline(always)]
    pub(crate) fn combine(&mut self, instr: Instr) -> Option<Verdict>
        requires able { IsAble
            (on_two (two_of instr) self.old.place self.old.stack self.old.ports) }
        requires within { self.old.place < 2 ^ 63 }
        ensures { on_two (two_of instr) self.old.place self.old.stack self.old.ports
            ≡ came_to result self.new }
    {
        let second = self.pop();
        let first = self.pop();
        self.put(operator_value(instr, first, second))
    }

    // Replaces the top by 1 where it is 0, else by 0, and goes on.
    #[inline(always)]
    pub(crate) fn negate(&mut self) -> Option<Verdict>
        requires able { IsAble (on_top (λ x. 1 - x) self.old.place self.old.stack self.old.ports) }
        requires within { self.old.place < 2 ^ 63 }
        ensures { on_top (λ x. 1 - x) self.old.place self.old.stack self.old.ports
            ≡ came_to result self.new }
    {
        let number = self.pop();
        let other = if number == 0 { 1 } else { 0 };
        self.put(other)
    }

    // Begins a loop at port 0.
    #[inline(always)]
    pub(crate) fn begin(&mut self) -> Option<Verdict>
        requires able { IsAble (begin self.old.place self.old.stack self.old.ports) }
        requires within { self.old.place < 2 ^ 63 }
        ensures { begin self.old.place self.old.stack self.old.ports ≡ came_to result self.new }
    {
        self.inner -= 1;
        self.ports[self.inner] = 0;
        self.place += 1;
        None
    }

    // The port of the innermost quantifier.
    #[inline(always)]
    pub(crate) fn port(&self) -> u32
        requires { 1 ≤ length self.now.ports }
        ensures { (others : List ℕ) × (self.now.ports ≡ result ∷ others) }
    {
        self.ports[self.inner]
    }

    // Leaves the innermost quantifier for `end` when its port equals `degree`, else goes on.
    #[inline(always)]
    pub(crate) fn more(&mut self, end: usize, degree: u32) -> Option<Verdict>
        requires able { IsAble (more degree end self.old.place self.old.stack self.old.ports) }
        requires within { self.old.place < 2 ^ 63 }
        ensures { more degree end self.old.place self.old.stack self.old.ports
            ≡ came_to result self.new }
    {
        if self.ports[self.inner] == degree {
            self.inner += 1;
            self.place = end;
        } else {
            self.place += 1;
        }
        None
    }

    // Advances the innermost port, then jumps to `place`.
    #[inline(always)]
    pub(crate) fn turn(&mut self, place: usize, degree: u32) -> Option<Verdict>
        requires able { IsAble (turn degree place self.old.stack self.old.ports) }
        ensures { turn degree place self.old.stack self.old.ports ≡ came_to result self.new }
    {
        self.ports[self.inner] += 1;
        self.place = place;
        None
    }

    // Pops a rule's value: 0 rejects with `number`, any other goes on.
    #[inline(always)]
    pub(crate) fn rule(&mut self, number: u8) -> Option<Verdict>
        requires able { IsAble (rule number self.old.place self.old.stack self.old.ports) }
        requires within { self.old.place < 2 ^ 63 }
        ensures { rule number self.old.place self.old.stack self.old.ports
            ≡ came_to result self.new }
    {
        if self.pop() == 0 {
            return Some(Verdict::Reject {
                leaf: 1,
                rule: number,
            });
        }
        self.go_on();
        None
    }
}
