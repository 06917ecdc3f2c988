//! Events in as few bytes as the ports of a network need.

ghost use Rattle.std.specs.Prelude.{◌≡◌, ◌<◌};
ghost use Rattle.pls_configuration.specs.declared.limits.TheConstants.{MAX_PORTS};

use pls_schedule::Event;
use std::marker::Model;

// An event whose port, where it has one, is that of a network; seen as the event.
#[derive(Drop)]
pub(crate) struct ShortEvent {
    // 0 of an arrival, 1 of a restart, and of an emit 2 more than its port.
    kind: u32,
    // That of the emit that arrives, or the identity of the node.
    number: u32,
}

impl Model for ShortEvent {
    ghost use Rattle.pls_schedule.specs.declared.event.Event.{Event};
    ghost use Rattle.pls_sim.specs.inner.ShortEvent.{event_of_kind};

    ghost Value = { Event };

    ghost view = { λ short. event_of_kind short.kind short.number };
}

impl ShortEvent {
    #[inline(always)]
    pub(crate) fn emit(node: u32, port: u32) -> ShortEvent
        requires { port < MAX_PORTS }
        ensures { result ≡ Event.Emit node port }
    {
        ShortEvent {
            kind: port + 2,
            number: node,
        }
    }

    #[inline(always)]
    pub(crate) fn arrive(number: u32) -> ShortEvent
        ensures { result ≡ Event.Arrive number }
    {
        ShortEvent { kind: 0, number }
    }

    #[inline(always)]
    pub(crate) fn restart(node: u32) -> ShortEvent
        ensures { result ≡ Event.Restart node }
    {
        ShortEvent {
            kind: 1,
            number: node,
        }
    }
}
