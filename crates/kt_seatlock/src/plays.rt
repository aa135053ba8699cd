//! What each step tells. These types are for the proofs alone.
ghost use Rattle.kt_seatlock.specs.Views.{left_view, right_view, both_views, gone_view};
ghost use Rattle.kt_seatlock.specs.Steps.{stayed, began, counted, took, left, filled};

use crate::shared::Shared;
use crate::view::View;
use atomic_table::{Join, Play, Split};
use std::marker::PhantomData;

/// A caller goes to sleep or wakes up.
pub struct Stay;

impl<S, V> Play<S, V> for Stay {
    ghost then = { stayed };
}

/// The first pass takes the empty slot.
pub struct Begin;

impl<T, E, P> Play<Option<T>, View<T, E, P>> for Begin {
    ghost then = { began };
}

/// A visitor counts the entry that it added.
pub struct Count;

impl<T, E, P> Play<Option<T>, View<T, E, P>> for Count {
    ghost then = { counted };
}

/// A visitor takes the value.
pub struct Take<T> {
    of: PhantomData<T>,
}

impl<T: Shared> Play<Option<T>, View<T, T::Entry, T::Part>> for Take<T> {
    ghost then = { took T.trail T.part T.owner };
}

/// A visitor puts the value back, changed or not.
pub struct Leave<T> {
    of: PhantomData<T>,
}

impl<T: Shared> Play<Option<T>, View<T, T::Entry, T::Part>> for Leave<T> {
    ghost then = { left T.trail T.part };
}

/// The first pass fills the lock.
pub struct Fill<T> {
    of: PhantomData<T>,
}

impl<T: Shared> Play<Option<T>, View<T, T::Entry, T::Part>> for Fill<T> {
    ghost then = { filled T.trail T.part };
}

/// A pass gives a number.
pub struct Cut<T> {
    of: PhantomData<T>,
}

impl<T: Shared> Split<View<T, T::Entry, T::Part>> for Cut<T> {
    ghost left = { left_view };

    ghost right = { right_view T.part };
}

/// A pass takes in another.
pub struct Glue<T> {
    of: PhantomData<T>,
}

impl<T: Shared> Join<View<T, T::Entry, T::Part>> for Glue<T> {
    ghost both = { both_views };

    ghost spent = { gone_view };
}
