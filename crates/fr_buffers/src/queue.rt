//! The receive FIFO.

ghost use Rattle.std.specs.Prelude.{◌≡◌, ◌+◌, ◌<◌, ◌≤◌, ◌^◌, ◌↔◌, [], length, slice_get, IfOk, IsTrue};
ghost use Rattle.std.specs.Option.{option_copied};

use crate::receive::arrived;
use circular_buffer::HeapCircularBuffer;
use fr_frame::frame::Frame;
use fr_journal::entry::{Arrival, Moment};
use fr_slots::channel::Channel;
use std::alloc::{AllocError, Global};
use std::marker::Model;

/// Frames that wait to be popped, the oldest first, in a ring (project-defined).
#[derive(Drop)]
pub struct ReceiveQueue {
    // The ring allocates once, and a push into a full ring returns the frame that it replaces.
    ring: HeapCircularBuffer<Arrival>,
    lost: u32,
}

impl Model for ReceiveQueue {
    ghost use Rattle.fr_buffers.specs.Waiting.{Waiting};

    ghost Value = { Waiting };

    ghost use Rattle.fr_buffers.specs.QueueFields.{waiting_in, IsBounded};

    ghost view = { waiting_in };

    ghost invariant = { IsBounded };
}

impl ReceiveQueue {
    ghost use Rattle.std.specs.Prelude.{◌≡◌, ◌≤◌};
    ghost use Rattle.fr_buffers.specs.Waiting.{with_frame, without_oldest};
    ghost use Rattle.fr_journal.specs.Held.{arrival_of};

    /// Returns an empty receive FIFO for at most so many frames, and allocates its memory.
    ///
    /// Fails if the allocation fails.
    pub fn new(alloc: Global, capacity: u16) -> Result<ReceiveQueue, AllocError>
        ensures { IfOk result (λ q. q ≡ record { capacity = capacity; frames = []; lost = 0 }) }
    {
        let ring = HeapCircularBuffer::with_capacity(alloc, usize::from(capacity))?;
        Ok(ReceiveQueue { ring, lost: 0 })
    }

    /// Appends a frame that the entry of this moment observed on the channel. In a full receive FIFO it replaces the
    /// oldest, which is lost.
    ///
    /// The number of lost frames, with one more, must fit 32 bits.
    pub fn arrive(&mut self, moment: Moment, channel: Channel, frame: Frame)
        requires { self.old.lost + 1 < 2 ^ 32 }
        ensures { self.new ≡ with_frame self.old (arrival_of moment channel frame) }
    {
        let overwritten = self.ring.push_back(arrived(moment, channel, frame));
        if overwritten.is_some() {
            self.lost += 1;
        }
    }

    /// Returns the oldest frame, if there is one, and leaves it.
    pub fn oldest(&self) -> Option<&Arrival>
        ensures { option_copied result ≡ slice_get self.now.frames 0 }
    {
        self.ring.front()
    }

    /// Removes the oldest frame and returns it, if there is one.
    pub fn pop(&mut self) -> Option<Arrival>
        ensures oldest { result ≡ slice_get self.old.frames 0 }
        ensures left { self.new ≡ without_oldest self.old }
    {
        self.ring.pop_front()
    }

    /// Returns the number of waiting frames, at most the capacity.
    pub fn len(&self) -> u32
        ensures value { result ≡ length self.now.frames }
        ensures within { result ≤ self.now.capacity }
    {
        self.ring.len() as u32
    }

    /// Returns whether no frame waits.
    pub fn is_empty(&self) -> bool
        ensures { IsTrue result ↔ (self.now.frames ≡ []) }
    {
        self.ring.is_empty()
    }

    /// Returns the number of lost frames.
    pub fn lost(&self) -> u32
        ensures { result ≡ self.now.lost }
    {
        self.lost
    }
}
