//! Items of lists.
ghost use Rattle.std.specs.Prelude.{◌≡◌, slice_get};
ghost use Rattle.std.specs.Option.{option_copied};
ghost use Rattle.kt_history.specs.Machine.{nth};

/// The item of a number, counted from 1.
pub(crate) fn nth<T>(items: &[T], number: u32) -> Option<&T>
    ensures { option_copied result ≡ nth items.now number }
{
    match number.checked_sub(1) {
        Some(at) => items.get(at as usize),
        None => None,
    }
}

/// The item at a place, counted from 0.
pub(crate) fn item<T>(items: &[T], at: usize) -> Option<&T>
    ensures { option_copied result ≡ slice_get items.now at }
{
    items.get(at)
}
