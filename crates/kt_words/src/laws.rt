//! Laws of the definitions.
ghost use Rattle.kt_words.specs.Laws.{spelled_words_are_taken};

/// Words that are spelled in the form are taken.
pub fn spelled_law()
    ensures { spelled_words_are_taken }
{}
