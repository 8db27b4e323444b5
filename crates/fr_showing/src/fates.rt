//! The fate of a commit, and the windows in which it was sent.
ghost use Rattle.std.specs.Prelude.{◌≡◌, ◌<◌, ◌+◌, ◌^◌, true, if◌then◌else◌, take, slice_get, IsSomeAnd};
ghost use Rattle.fr_journal.specs.Fate.{is_commit_on, is_data_of};
ghost use Rattle.fr_journal.specs.Lent.{whole};
ghost use Rattle.fr_showing.specs.Fates.{became};
ghost use Rattle.fr_journal.specs.Cycles.{begins_cycle_at, cycles_of};
ghost use Rattle.fr_showing.specs.FateSteps.{became_with, is_pending};

use fr_interface::interface::Interface;
use fr_journal::entry::Offered;
use fr_journal::lent::{LentEntry, cycles_at};
use fr_slots::channel::Channel;
use fr_slots::window::Window;

/// The fate of a commit, with the cycle of the run and the number of the entry that decided it.
#[derive(Clone, Copy)]
pub enum Became {
    /// A later fetch handed it to the bus.
    Sent,
    /// A later withdraw withdrew it.
    Withdrawn { cycle: u32, entry: u32 },
    /// A later commit overwrote it.
    Overwritten { cycle: u32, entry: u32 },
    /// None of these entries.
    Pending,
}

/// A commit as it was handed to the bus on one channel.
#[derive(Clone, Copy)]
pub struct Sending {
    /// The cycle of the run, from 0.
    pub cycle: u32,
    /// The window.
    pub window: Window,
    /// The channel.
    pub channel: Channel,
}

/// Returns the number of cycles that began up to this entry and with it, from the number before.
pub(crate) fn begun_with(begun: u32, entry: &LentEntry<'_>) -> u32
    requires { begun + 1 < 2 ^ 32 }
    ensures { result ≡ begun + (if begins_cycle_at (whole entry.now) then 1 else 0) }
{
    cycles_at(begun, entry)
}

/// Returns whether this is the data of the commit.
pub(crate) fn is_data_of(commit: u32, offered: Offered) -> bool
    ensures { result ≡ is_data_of commit offered }
{
    match offered {
        Offered::Data(entry) => entry == commit,
        Offered::Nothing | Offered::Null => false,
    }
}

/// Returns whether the entry is a commit on the buffer.
pub(crate) fn is_commit_on(buffer: u8, entry: &LentEntry<'_>) -> bool
    ensures { result ≡ is_commit_on buffer (whole entry.now) }
{
    match entry {
        LentEntry::Commit { buffer: place, .. } => *place == buffer,
        _ => false,
    }
}

/// Returns the fate of a commit on the buffer after the entry, if it was pending before.
fn became_with(commit: u32, buffer: u8, cycle: u32, number: u32, entry: &LentEntry<'_>) -> Became
    ensures { result ≡ became_with buffer commit cycle number (whole entry.now) }
{
    match entry {
        LentEntry::Fetch { a, b, .. } if is_data_of(commit, *a) || is_data_of(commit, *b) => {
            Became::Sent
        }
        LentEntry::Withdraw { of: Some(of), .. } if *of == commit => Became::Withdrawn {
            cycle,
            entry: number,
        },
        LentEntry::Commit { buffer: place, .. } if *place == buffer => Became::Overwritten {
            cycle,
            entry: number,
        },
        _ => Became::Pending,
    }
}

/// Returns whether the commit is still pending.
fn is_pending(became: Became) -> bool
    ensures { result ≡ is_pending became }
{
    matches!(became, Became::Pending)
}

/// Returns the fate of the commit of this number on the buffer.
///
/// The number of cycles that began before it is given. The first later entry that changes it decides. In a legal
/// journal no entry after that changes it, except that it may be sent again.
pub(crate) fn became_of(interface: &Interface, buffer: u8, commit: u32, begun: u32) -> Became
    requires there { IsSomeAnd (slice_get interface.now.entries commit) (λ e. is_commit_on buffer e ≡ true) }
    requires cycle { begun ≡ cycles_of (take commit interface.now.entries) }
    ensures { result ≡ became buffer interface.now.entries commit }
{
    let journal = interface.journal();
    let end = journal.len();
    // A walk along the whole journal for each commit would be quadratic.
    let mut begun = begun;
    for number in commit + 1..end {
        let Some(entry) = journal.lent(number) else {
            return Became::Pending;
        };
        let became = became_with(commit, buffer, begun, number, &entry);
        if !is_pending(became) {
            return became;
        }
        begun = begun_with(begun, &entry);
    }
    Became::Pending
}
