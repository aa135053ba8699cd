//! Laws of the spelling.

ghost use Rattle.kt_baseset.specs.Laws.{bytes_spell_one, one_spelling, one_place, refused_is_none, front_faults_are_told};

/// No two base files have one spelling.
pub fn bytes_law()
    ensures { bytes_spell_one }
{}

/// No base file has two spellings.
pub fn spelling_law()
    ensures { one_spelling }
{}

/// Bytes are refused at one place, and those that are refused are no base file.
pub fn place_law()
    ensures one { one_place }
    ensures none { refused_is_none }
{}

/// In front of the blocks the fields alone tell where bytes are refused.
pub fn front_law()
    ensures { front_faults_are_told }
{}
