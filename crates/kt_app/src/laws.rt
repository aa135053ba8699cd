//! Laws of the definitions.

ghost use Rattle.kt_app.specs.Crash.{fresh_devices_are_empty};
ghost use Rattle.kt_app.specs.Headline.{one_history};

/// The text of a run has one history and one list of readings: they can be read off its bytes.
pub fn history_law()
    ensures { one_history }
{}

/// Devices in which nothing was written hold the empty past, with 0 as its last timestamp: there is a past that a first run begins from.
pub fn fresh_law()
    ensures { fresh_devices_are_empty }
{}
