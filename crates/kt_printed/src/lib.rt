//! What the top call prints, before the checker.
//!
//! One law, for readers of both contracts: what `tablet_main` of kt_app prints of a run is what `judge` of kt_judge calls
//! the output of that run, and `check_main` of kt_run_check answers `yes` to it. It stands on the definitions of these,
//! and has no code.
#![tactic(auto)]

ghost use Rattle.kt_printed.specs.Printed.{printed_are_judged, sources_are_answered};

/// The verdict on an output whose text a run prints is yes. A source that has that text behind the script and the opening which
/// the run began from is answered yes: the text is that of an output, and the verdict on it is that.
pub fn judged_law()
    ensures judged { printed_are_judged }
    ensures sources { sources_are_answered }
{}
