//! Laws of the last change at or below a mark.
ghost use Rattle.kt_content.specs.BelowTheMark.{sound_from_the_last_change, alike_from_the_last_change};

/// What is sound from a mark on is sound from the last change below it on.
pub fn last_sound_law()
    ensures { sound_from_the_last_change }
{}

/// What is alike from a mark on is alike from the last change below it on.
pub fn last_alike_law()
    ensures { alike_from_the_last_change }
{}
