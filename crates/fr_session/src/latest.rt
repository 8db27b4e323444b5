//! The last frame that `receive` returned of each receive buffer.
ghost use Rattle.std.specs.Prelude.{◌≡◌};
ghost use Rattle.fr_session.specs.Latest.{is_new, place_of};

use fr_journal::entry::Arrival;
use fr_slots::numbers::NodeId;
use std::alloc::{AllocError, Global};
use std::marker::Model;

/// The number of places: 64 buffers at most of each of 16 nodes.
const PLACES: usize = 1024;

/// For each receive buffer of each node, the entry that observed the frame which `receive` returned last
/// (project-defined).
///
/// In contracts, this is the list of these entries, by the places of the buffers.
#[derive(Drop)]
pub struct Latest {
    entries: Vec<Option<u32>>,
}

impl Model for Latest {
    ghost use Rattle.std.specs.Prelude.{List, Option, ℕ};

    ghost Value = { List (Option ℕ) };

    ghost view = { λ l. l.entries.items };
}

/// Returns the place of a buffer of the node.
fn place_of(node: NodeId, buffer: u8) -> usize
    ensures { result ≡ place_of node buffer }
{
    usize::from(node.number()) * 64 + usize::from(buffer)
}

/// Returns whether a frame from this entry is new, when the last one came from the other entry, if there was one.
fn is_new(last: Option<u32>, entry: u32) -> bool
    ensures { result ≡ is_new last entry }
{
    match last {
        None => true,
        Some(last) => last != entry,
    }
}

impl Latest {
    ghost use Rattle.std.specs.Prelude.{◌≡◌, IfOk};
    ghost use Rattle.fr_session.specs.Latest.{is_fresh, no_entries, place_of, with_arrival};

    /// Returns the entries before any frame was returned. Fails if the allocation does.
    pub fn new(alloc: Global) -> Result<Latest, AllocError>
        ensures { IfOk result (λ l. l ≡ no_entries) }
    {
        let mut entries = Vec::with_capacity(alloc, PLACES)?;
        for _place in 0..PLACES {
            entries.push(None)?;
        }
        Ok(Latest { entries })
    }

    /// Notes that this frame of the node's buffer is returned, if there is one, and returns whether it is new.
    pub fn note(&mut self, node: NodeId, buffer: u8, arrival: &Option<Arrival>) -> bool
        ensures fresh { result ≡ is_fresh self.old (place_of node buffer) arrival.now }
        ensures noted { self.new ≡ with_arrival self.old (place_of node buffer) arrival.now }
    {
        let Some(arrival) = arrival else {
            return false;
        };
        let place = place_of(node, buffer);
        let entry = arrival.origin.entry;
        if place >= self.entries.len() {
            return true;
        }
        let fresh = is_new(self.entries[place], entry);
        self.entries[place] = Some(entry);
        fresh
    }
}
