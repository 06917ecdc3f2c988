//! What a line of a watch part says.

ghost use Rattle.std.specs.Prelude.{◌≡◌};
ghost use Rattle.pls_watch_part.specs.WatchText.{watch_event};

use crate::boxed_label::BoxedLabel;
use pls_schedule::Event;

/// What happens next in a round of messages in which labels change.
#[derive(Drop)]
pub enum WatchEvent {
    /// `emit ID PORT`: a node sends its label through a port. Emits are numbered from 1.
    Emit {
        /// The identity of the node.
        node: u32,
        /// The number of the port, from 0.
        port: u32,
    },
    /// `arrive K`: what emit number K sent reaches the node at the other end.
    Arrive(u32),
    /// `restart ID`: a node forgets what it has heard, and keeps its own label.
    Restart(u32),
    /// `relabel ID LEN HEX`: a node gets the next version of its label.
    Relabel {
        /// The identity of the node.
        node: u32,
        /// The label.
        bits: BoxedLabel,
    },
}

/// What a line of a watch part says.
#[derive(Drop)]
pub enum WatchLine {
    /// An event.
    Event(WatchEvent),
    /// `look`: the outcomes of all nodes are wanted.
    Look,
}

impl WatchEvent {
    /// An event of a round of messages.
    pub fn of(event: Event) -> WatchEvent
        ensures { result ≡ watch_event event }
    {
        match event {
            Event::Emit { node, port } => WatchEvent::Emit { node, port },
            Event::Arrive(number) => WatchEvent::Arrive(number),
            Event::Restart(node) => WatchEvent::Restart(node),
        }
    }
}
