//! The ends of a client's rings, before the desk is opened.
ghost use Rattle.std.specs.Prelude.{◌≡◌, [], IfOk};
ghost use Rattle.rtrb.specs.Ring.{sent, received, known_free, known_items, producer_capacity};
ghost use Rattle.walk_desk.specs.Rings.{producer_ring, consumer_ring};

use crate::asks::{WalkAnswer, WalkAsk};
use crate::engine::Numbered;
use rtrb::{Consumer, Producer, RingBuffer};
use std::alloc::Global;
use walk_model::Memory;

/// The four ends of a client's two rings, which nothing has passed yet, and the room in each.
#[derive(Drop)]
pub(crate) struct Ends {
    pub(crate) ask: Producer<WalkAsk, Global, Numbered>,
    pub(crate) asked: Consumer<WalkAsk, Global, Numbered>,
    pub(crate) answer: Producer<WalkAnswer>,
    pub(crate) answered: Consumer<WalkAnswer>,
    pub(crate) capacity: usize,
    pub(crate) ghost pairs: { (producer_ring ask ≡ consumer_ring asked) × (producer_ring answer ≡ consumer_ring answered) },
    pub(crate) ghost asks: { (sent ask ≡ []) × (received asked ≡ []) × (known_free ask ≡ capacity) × (producer_capacity ask ≡ capacity) },
    pub(crate) ghost answers: { (sent answer ≡ []) × (received answered ≡ []) × (known_items answered ≡ []) },
}

/// Two rings with room for `capacity` items each.
pub(crate) fn two_rings(alloc: Global, capacity: usize) -> Result<Ends, Memory>
    ensures { IfOk result (λ e. e.capacity ≡ capacity) }
{
    let (ask, asked) = RingBuffer::with_protocol::<Global, Numbered>(alloc, capacity)?;
    let (answer, answered) = RingBuffer::new(alloc, capacity)?;
    Ok(Ends {
        ask,
        asked,
        answer,
        answered,
        capacity,
    })
}
