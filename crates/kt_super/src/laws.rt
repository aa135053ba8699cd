//! Laws of superblocks, each the contract of a function that does nothing.
ghost use Rattle.kt_super.specs.Spellings.{spelled_in_one_way, spelling_is_read, place_is_fault, superblock_is_told};

/// No superblock has two spellings.
pub fn spelling_law()
    ensures { spelled_in_one_way }
{}

/// A superblock that is spelled behind an open gate is read again.
pub fn reading_law()
    ensures { spelling_is_read }
{}

/// The place that a slot tells is its first fault, told by the spellings alone.
pub fn place_law()
    ensures { place_is_fault }
{}

/// The superblock of an image is one that a slot of it tells.
pub fn slot_law()
    ensures { superblock_is_told }
{}
