//! What is kept of a label.

ghost use Rattle.std.specs.Prelude.{◌≡◌, IfOk, Option};
ghost use Rattle.std.specs.Option.{option_copied};

use pls_streams::NoMemory;
use std::alloc::Global;
use std::marker::Model;

/// What is kept of a label: what it says at a glance, or that it cannot be read. An `Option` keeps
/// a small glance where it stands, and [`BoxedGlance`] a large one elsewhere.
pub trait GlanceMemory<G> {
    // What it says, or `None` where it cannot be read.
    ghost glance_in_memory: { Self → Option G };

    // What keeps this.
    ghost keeping: { Option G → Self };

    /// Keeps what a label says at a glance. The one error is want of memory.
    fn keep(alloc: Global, glance: Option<G>) -> Result<Self, NoMemory>
        ensures { IfOk result (λ memory. memory ≡ keeping glance) };

    /// What the label says at a glance, or `None` where it cannot be read.
    fn glance(&self) -> Option<&G>
        ensures { option_copied result ≡ glance_in_memory self.now };

    // What is kept is what was to be.
    ghost memory_law: { (glance : Option G) → glance_in_memory (keeping glance) ≡ glance };
}

impl<G: Drop> GlanceMemory<G> for Option<G> {
    ghost use Rattle.std.specs.Prelude.{refl};

    ghost glance_in_memory = { λ glance. glance };

    ghost keeping = { λ glance. glance };

    #[inline(always)]
    fn keep(_alloc: Global, glance: Option<G>) -> Result<Self, NoMemory>
        ensures { IfOk result (λ memory. memory ≡ glance) }
    {
        Ok(glance)
    }

    #[inline(always)]
    fn glance(&self) -> Option<&G> {
        self.as_ref()
    }

    ghost memory_law = { λ _. refl };
}

/// What a label says at a glance, or `None` where it cannot be read, in a place of its own: to move
/// it is to move a pointer. Seen as what the label says.
#[derive(Drop)]
pub struct BoxedGlance<G> {
    glance: Option<Box<G>>,
}

impl<G> Model for BoxedGlance<G> {
    ghost use Rattle.std.specs.Prelude.{Option, option_map};

    ghost Value = { Option G };

    ghost view = { λ memory. option_map (λ glance. glance.value) memory.glance };
}

impl<G: Drop> GlanceMemory<G> for BoxedGlance<G> {
    ghost use Rattle.std.specs.Prelude.{refl};

    ghost glance_in_memory = { λ memory. memory };

    ghost keeping = { λ glance. glance };

    fn keep(alloc: Global, glance: Option<G>) -> Result<Self, NoMemory>
        ensures { IfOk result (λ memory. memory ≡ glance) }
    {
        let glance = match glance {
            Some(glance) => Some(Box::new(alloc, glance)?),
            None => None,
        };
        Ok(BoxedGlance { glance })
    }

    #[inline(always)]
    fn glance(&self) -> Option<&G> {
        match &self.glance {
            Some(glance) => Some(&**glance),
            None => None,
        }
    }

    ghost memory_law = { λ _. refl };
}
