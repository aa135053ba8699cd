//! The rule that every step of the lock keeps.
use crate::shared::Shared;
use crate::view::View;
use atomic_table::TableRule;

/// The rule of the lock.
pub struct Seats;

impl<T: Shared> TableRule<Option<T>, View<T, T::Entry, T::Part>, ()> for Seats {
    ghost use Rattle.kt_seatlock.specs.Views.{first_view};
    ghost use Rattle.kt_seatlock.specs.Rule.{Kept};

    ghost holds = { λ _. Kept T.trail T.part T.owner };

    ghost first = { λ _. first_view };
}
