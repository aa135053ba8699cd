//! The lock.
ghost use Rattle.std.specs.Prelude.{◌≡◌};

use crate::rule::Seats;
use crate::shared::Shared;
use crate::view::View;
use atomic_table::Table;
use std::alloc::Global;
use thiserror::Error;

/// There was no memory for a lock.
#[derive(Clone, Copy, Debug, PartialEq, Eq, Error)]
#[error("out of memory")]
pub struct NoMemory;

/// A lock whose value is moved out at a visit, and home after it.
#[derive(Drop)]
pub struct SeatLock<T: Shared> {
    pub(crate) table: Table<Option<T>, View<T, T::Entry, T::Part>, (), Seats, Global>,
    pub(crate) passes: u32,
    ghost sized: { (table.shared.table_id.words ≡ 3) × (table.shared.table_id.slots ≡ 1) },
}

// The word that counts the trail's entries.
pub(crate) const ENTRIES: usize = 0;

// The word of the turn.
pub(crate) const TURN: usize = 1;

// The word that counts the callers that sleep.
pub(crate) const SLEEPERS: usize = 2;
