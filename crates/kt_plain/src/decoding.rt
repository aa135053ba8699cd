//! Bytes as items.

ghost use Rattle.std.specs.Prelude.{◌≡◌, ◌≤◌, ◌*◌, ℕ, List, length, IfOk};
ghost use Rattle.kt_bytes.specs.Places.{IsFault};
ghost use Rattle.kt_bytes.specs.Reading.{IfPlace, IsOrMemory};
ghost use Rattle.kt_plain.specs.Spelling.{Spells, SpellsWithin, Spelled, SpelledWithin};
ghost use Rattle.kt_plain.specs.Reading.{AreTexts, ends_in};

use crate::faults::fault;
use crate::items::Items;
use crate::numbers::Numbers;
use crate::widths::Width;
use byteorder::{ByteOrder, LittleEndian};
use kt_bytes::{CodecNo, Texts};
use std::alloc::{AllocError, Global};

/// The n items that the bytes spell, all of the bytes. They are held in at most three times as many.
pub fn decode(alloc: Global, bytes: &[u8], n: u32, width: Width) -> Result<Items, CodecNo>
    // What is read is spelled so.
    ensures found { IfOk result (λ items. Spells width n items bytes.now) }
    // What is spelled so is read, unless memory runs out.
    ensures only { (items : Items) → Spells width n items bytes.now → IsOrMemory result items }
    // No items have the spelling, and which fault is the first.
    ensures place { IfPlace result (IsFault (Spelled width n) bytes.now) }
{
    decode_within(alloc, bytes, n, width, u32::MAX)
}

/// The same of items without a byte list of more than so many bytes: a longer one is at fault at its end position.
pub fn decode_within(
    alloc: Global,
    bytes: &[u8],
    n: u32,
    width: Width,
    most: u32,
) -> Result<Items, CodecNo>
    ensures found { IfOk result (λ items. SpellsWithin most width n items bytes.now) }
    ensures only { (items : Items) → SpellsWithin most width n items bytes.now → IsOrMemory result items }
    ensures place { IfPlace result (IsFault (SpelledWithin most width n) bytes.now) }
{
    if let Some(place) = fault(bytes, n, width, most) {
        return Err(CodecNo::Place {
            offset: place as u64,
        });
    }
    match width {
        Width::Numbers(width) => Ok(Items::Numbers(Numbers::read(alloc, bytes, width)?)),
        Width::Bytes => Ok(Items::Texts(texts(alloc, bytes, n as usize)?)),
    }
}

/// The byte lists whose ends and bytes these are.
fn texts(alloc: Global, bytes: &[u8], n: usize) -> Result<Texts, AllocError>
    requires { (ts : List (List ℕ)) × AreTexts n ts bytes.now }
    ensures { (ts : List (List ℕ)) → AreTexts n ts bytes.now → IfOk result (λ read. read ≡ ts) }
{
    let ends = ends(alloc, bytes, n)?;
    let (_, rest) = bytes.split_at(4 * n);
    let body = Vec::from_slice(alloc, rest)?;
    Ok(Texts::cut(body, ends))
}

/// The ends in the first fields.
fn ends(alloc: Global, bytes: &[u8], n: usize) -> Result<Vec<usize>, AllocError>
    requires { 4 * n ≤ length bytes.now }
    ensures { IfOk result (λ v. v.items ≡ ends_in n bytes.now) }
{
    let mut ends = Vec::with_capacity(alloc, n)?;
    'ends: for i in 0..n {
        ends.push(LittleEndian::read_u32(&bytes[4 * i..]) as usize)?;
    }
    Ok(ends)
}
