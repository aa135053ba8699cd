//! A caller's pass.
ghost use Rattle.std.specs.Prelude.{◌≡◌, length};
ghost use Rattle.kt_seatlock.specs.Views.{carried_in};

use crate::shared::Shared;
use crate::view::View;
use atomic_table::Seat;

/// What one caller of a lock knows. It belongs to its own lock alone.
#[derive(Drop)]
pub struct Pass<T: Shared> {
    pub(crate) seat: Seat<Option<T>, View<T, T::Entry, T::Part>>,
    pub(crate) number: u32,
    pub(crate) given: u32,
    // How many entries it has seen.
    pub(crate) entries: u64,
    // The turn at the end of its last visit.
    pub(crate) last: u64,
    ghost numbered: { seat.me.0.number ≡ number },
    ghost counted: { seat.me.0.given ≡ given },
    ghost tallied: { length seat.me.0.seen ≡ entries },
    ghost level: { seat.me.0.ahead ≡ 0 },
    ghost carries: { seat.me.1 ≡ carried_in seat.me.0.stage },
}
