//! A law of loads, the contract of a function that does nothing.
ghost use Rattle.kt_loadlaws.specs.Summary.{a_load_has_one_summary};

/// However the sessions of a load run beside each other, once all is answered the rows and the outcomes are those of one session after another.
pub fn summary_law()
    ensures { a_load_has_one_summary }
{}
