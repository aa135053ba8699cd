//! The dictionary as it is built.

ghost use Rattle.std.specs.Prelude.{◌≡◌, map, not, OnOk, IfOk};
ghost use Rattle.kt_dict.specs.Spelling.{place, has, with_entry};
ghost use Rattle.kt_dict.specs.Walk as walk;

use indexmap::IndexSet;
use kt_bytes::{NoMemory, Texts};
use std::alloc::Global;

/// Adds an item to the dictionary, and says whether it is new.
pub fn use_item<'a>(entries: &mut IndexSet<&'a [u8]>, item: &'a [u8]) -> Result<bool, NoMemory>
    ensures new { IfOk result (λ new. new ≡ not (has (map (λ k. k.now) entries.old.keys) item.now)) }
    ensures entries { OnOk result (map (λ k. k.now) entries.new.keys ≡ with_entry (map (λ k. k.now) entries.old.keys) item.now) }
{
    let (_, new) = entries.insert_full(item)?;
    Ok(new)
}

/// Where the item stands.
pub fn place_of(entries: &IndexSet<&[u8]>, item: &[u8]) -> usize
    ensures { result ≡ place (map (λ k. k.now) entries.now.keys) item.now }
{
    match entries.get_index_of(item) {
        Some(at) => at,
        None => entries.len(),
    }
}

fn has_item(entries: &IndexSet<&[u8]>, item: &[u8]) -> bool
    ensures { result ≡ has (map (λ k. k.now) entries.now.keys) item.now }
{
    entries.contains(item)
}

/// One of the 256 bytes is no entry by itself.
fn has_free(entries: &IndexSet<&[u8]>) -> bool
    ensures { result ≡ walk.has_free (map (λ k. k.now) entries.now.keys) 256 }
{
    for b in 0..256u16 {
        if !has_item(entries, &[b as u8]) {
            return true;
        }
    }
    false
}

/// An entry of this length can stand behind these.
#[tactic(auto, unfolding(crate::specs::Walk::is_open))]
pub fn can_stand(entries: &IndexSet<&[u8]>, len: usize) -> bool
    ensures { result ≡ walk.is_open (map (λ k. k.now) entries.now.keys) len }
{
    if len == 0 {
        !has_item(entries, &[])
    } else if len == 1 {
        has_free(entries)
    } else {
        true
    }
}

/// A copy of these byte strings.
pub fn texts_of(alloc: Global, entries: &[&[u8]]) -> Result<Texts, NoMemory>
    ensures { IfOk result (λ texts. texts ≡ map (λ k. k.now) entries.now) }
{
    let mut texts = Texts::new(alloc);
    for bytes in entries {
        texts.push(bytes)?;
    }
    Ok(texts)
}
