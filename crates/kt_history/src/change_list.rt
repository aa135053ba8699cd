//! The changes of a store, held as the bytes that spell them, so that a copy of many takes no memory for each.
ghost use Rattle.std.specs.Prelude.{◌≡◌, ◌==◌, ◌+◌, ◌-◌, ◌<◌, ◌↔◌, ◌∷◌, ◌++◌, [], ℕ, List, true, false, not, ◌≤◌, length, get_or, slice_get, take, drop, Some, IsTrue, IfOk, IfSome, OnOk, OnErr};
ghost use Rattle.std.specs.List.Sorted.{IsPartitionedBy, IsPartitionPoint};
ghost use Rattle.std.specs.Option.{option_copied, option_map};
ghost use Rattle.std.specs.Ordering.{is_lt};
ghost use Rattle.std.specs.Int.{w64, from_be_bytes, to_be_bytes};
ghost use Rattle.kt_history.specs.Rows.{key_cmp};
ghost use Rattle.kt_cells.specs.Reading.{cells_behind};
ghost use Rattle.kt_pool.specs.Contents.{Stands, bytes_at};
ghost use Rattle.kt_history.specs.declared.change_list.Head.{Head as HeadSpec};
ghost use Rattle.kt_history.specs.AsBytes.{change_with, part_of, changes_at, are_inside, last_key, AreTold, IsToldNext, step_in, step_of};

use crate::Kindly;
use kt_base::NoMemory;
use kt_cells::CellsRef;
use kt_pool::{Place, Pool};
use std::alloc::Global;
use std::marker::Model;

// So many bytes of a list, from a place on.
#[derive(Clone, Copy)]
struct Part {
    from: usize,
    len: usize,
}

// Which bytes are the key and the cells of a change, with its timestamp and kind.
#[derive(Clone, Copy)]
struct Head {
    key: Part,
    cells: Part,
    ts: u64,
    kind: Kindly,
}

/// A change, whose cells are read where they lie.
#[derive(Clone, Copy)]
pub struct ChangeRef<'v> {
    pub ts: u64,
    pub kind: Kindly,
    pub cells: CellsRef<'v>,
}

/// Changes by rising key, then timestamp, as bytes. Contracts see them as a list.
#[derive(Drop)]
pub struct ChangeList {
    bytes: Vec<u8>,
    heads: Vec<Head>,
}

impl Model for ChangeList {
    ghost use Rattle.std.specs.Prelude.{◌≡◌, true, List, length};
    ghost use Rattle.kt_history.specs.declared.changes.KeyChange.{KeyChange};
    ghost use Rattle.kt_history.specs.AsBytes.{changes_at, are_inside, AreTold};

    ghost Value = { List KeyChange };

    ghost view = { λ l. changes_at l.bytes.items l.heads.items };

    ghost invariant = { λ l. (are_inside (length l.bytes.items) l.heads.items ≡ true) × AreTold l.bytes.items l.heads.items };
}

// The bytes of a part, as far as they are there.
fn bytes_of(bytes: &[u8], part: Part) -> &[u8]
    ensures { result.now ≡ part_of bytes.now part }
{
    if part.from >= bytes.len() {
        return &[];
    }
    let rest = &bytes[part.from..];
    if part.len < rest.len() {
        &rest[..part.len]
    } else {
        rest
    }
}

// The number that the first eight bytes spell, the highest first, and the bytes behind them, if there are so many.
fn first_eight(bytes: &[u8]) -> Option<(u64, &[u8])>
    ensures { IfSome result (λ x. (x.0 ≡ from_be_bytes w64 (take 8 bytes.now)) × (to_be_bytes w64 x.0 ≡ take 8 bytes.now) × (x.1.now ≡ drop 8 bytes.now)) }
{
    match bytes.split_first_chunk::<8>() {
        Some((front, behind)) => Some((u64::from_be_bytes(*front), behind)),
        None => None,
    }
}

// Whether two byte strings are the same.
fn is_same_text(one: &[u8], other: &[u8]) -> bool
    ensures same { result ≡ true → one.now ≡ other.now }
    ensures equal { one.now ≡ other.now → result ≡ true }
{
    one == other
}

// As `is_same_text`. The first eight bytes are compared as one number: many keys have no more.
fn is_same_key(one: &[u8], other: &[u8]) -> bool
    ensures same { result ≡ true → one.now ≡ other.now }
    ensures equal { one.now ≡ other.now → result ≡ true }
{
    match (first_eight(one), first_eight(other)) {
        (Some((front, behind)), Some((number, rest))) => {
            front == number && is_same_text(behind, rest)
        }
        _ => is_same_text(one, other),
    }
}

// Whether a part is there, and has these bytes.
fn is_at(bytes: &[u8], part: Part, text: &[u8]) -> bool
    ensures is { result ≡ true → (part.from + part.len ≤ length bytes.now) × (part_of bytes.now part ≡ text.now) }
    ensures is_not { result ≡ false → (part.from + part.len ≤ length bytes.now) × (part_of bytes.now part ≡ text.now) → ⊥ }
{
    if part.from > bytes.len() || part.len > bytes.len() - part.from {
        return false;
    }
    is_same_key(bytes_of(bytes, part), text)
}

// Whether two parts begin and end alike.
#[tactic(auto, using(crate::proofs::AsBytes::same_part))]
fn is_same(one: Part, other: Part) -> bool
    ensures same { result ≡ true → one ≡ other }
    ensures equal { one ≡ other → result ≡ true }
{
    one.from == other.from && one.len == other.len
}

// Adds a change whose key is this part of the bytes.
fn add(
    bytes: &mut Vec<u8>,
    heads: &mut Vec<Head>,
    key: Part,
    ts: u64,
    kind: Kindly,
    cells: &[u8],
) -> Result<(), NoMemory>
    requires known { key.from + key.len ≤ length bytes.old.items }
    requires inside { are_inside (length bytes.old.items) heads.old.items ≡ true }
    requires told { AreTold bytes.old.items heads.old.items }
    requires next { IsToldNext bytes.old.items heads.old.items key }
    ensures ok { OnOk result (changes_at bytes.new.items heads.new.items ≡ changes_at bytes.old.items heads.old.items ++ (record { key = part_of bytes.old.items key; ts = ts; change = change_with kind (cells_behind cells.now) }) ∷ []) }
    ensures err { OnErr result (changes_at bytes.new.items heads.new.items ≡ changes_at bytes.old.items heads.old.items) }
    ensures inside { are_inside (length bytes.new.items) heads.new.items ≡ true }
    ensures told { AreTold bytes.new.items heads.new.items }
{
    heads.reserve(1)?;
    let from = bytes.len();
    let len = cells.len();
    bytes.extend_from_slice(cells)?;
    heads.push_reserved(Head {
        key,
        cells: Part { from, len },
        ts,
        kind,
    });
    Ok(())
}

// Adds the bytes of a place of the pool.
fn append_placed(pool: &Pool, place: Place, bytes: &mut Vec<u8>) -> Result<(), NoMemory>
    requires { Stands pool.now place.cell }
    ensures ok { OnOk result (bytes.new.items ≡ bytes.old.items ++ bytes_at pool.now place.cell) }
    ensures err { OnErr result (bytes.new.items ≡ bytes.old.items) }
{
    match pool.append_to(place, bytes) {
        Ok(()) => Ok(()),
        Err(_) => Err(NoMemory),
    }
}

// As `add`, with the cells that stand in a place of the pool behind so many bytes. All bytes of the place are copied.
fn add_placed(
    bytes: &mut Vec<u8>,
    heads: &mut Vec<Head>,
    key: Part,
    ts: u64,
    kind: Kindly,
    pool: &Pool,
    place: Place,
    front: usize,
) -> Result<(), NoMemory>
    requires stands { Stands pool.now place.cell }
    requires front { front ≤ length (bytes_at pool.now place.cell) }
    requires known { key.from + key.len ≤ length bytes.old.items }
    requires inside { are_inside (length bytes.old.items) heads.old.items ≡ true }
    requires told { AreTold bytes.old.items heads.old.items }
    requires next { IsToldNext bytes.old.items heads.old.items key }
    ensures ok { OnOk result (changes_at bytes.new.items heads.new.items ≡ changes_at bytes.old.items heads.old.items ++ (record { key = part_of bytes.old.items key; ts = ts; change = change_with kind (cells_behind (drop front (bytes_at pool.now place.cell))) }) ∷ []) }
    ensures err { OnErr result (changes_at bytes.new.items heads.new.items ≡ changes_at bytes.old.items heads.old.items) }
    ensures inside { are_inside (length bytes.new.items) heads.new.items ≡ true }
    ensures told { AreTold bytes.new.items heads.new.items }
{
    heads.reserve(1)?;
    append_placed(pool, place, bytes)?;
    let len = pool.len(place) - front;
    let from = bytes.len() - len;
    heads.push_reserved(Head {
        key,
        cells: Part { from, len },
        ts,
        kind,
    });
    Ok(())
}

// How many more there are for so many keys more, on the scale of those that the first keys have.
fn on_scale(len: usize, keys: usize, more: usize) -> usize {
    len.checked_div(keys)
        .unwrap_or(0)
        .saturating_add(1)
        .saturating_mul(more)
}

// Which bytes are the key of the last change.
fn last_key(heads: &[Head]) -> Part
    ensures number { (d : HeadSpec) → 0 < length heads.now → (get_or heads.now (length heads.now - 1) d).key ≡ result }
    ensures key { (bytes : List ℕ) → 0 < length heads.now → are_inside (length bytes) heads.now ≡ true → (result.from + result.len ≤ length bytes) × (part_of bytes result ≡ last_key (changes_at bytes heads.now)) }
{
    match heads.last() {
        Some(head) => head.key,
        None => Part { from: 0, len: 0 },
    }
}

// Which bytes are a key: those of the last change, if it is the same, or else new ones.
fn place_of(bytes: &mut Vec<u8>, heads: &[Head], key: &[u8]) -> Result<Part, NoMemory>
    requires inside { are_inside (length bytes.old.items) heads.now ≡ true }
    requires told { AreTold bytes.old.items heads.now }
    ensures same { changes_at bytes.new.items heads.now ≡ changes_at bytes.old.items heads.now }
    ensures inside { are_inside (length bytes.new.items) heads.now ≡ true }
    ensures told { AreTold bytes.new.items heads.now }
    ensures known { IfOk result (λ at. (at.from + at.len ≤ length bytes.new.items) × (part_of bytes.new.items at ≡ key.now)) }
    ensures next { IfOk result (λ at. IsToldNext bytes.new.items heads.now at) }
{
    let last = last_key(heads);
    if is_at(bytes, last, key) {
        return Ok(last);
    }
    let from = bytes.len();
    let len = key.len();
    bytes.extend_from_slice(key)?;
    Ok(Part { from, len })
}

impl ChangeList {
    /// No changes.
    pub fn new(alloc: Global) -> ChangeList
        ensures { result ≡ [] }
    {
        ChangeList {
            bytes: Vec::new(alloc),
            heads: Vec::new(alloc),
        }
    }

    /// Makes room for the changes of so many keys more, as many and as long as those of the first keys, of which the list has so
    /// many. Where there is no memory for that it stays as it is.
    pub fn make_room(&mut self, keys: usize, more: usize)
        ensures { self.new ≡ self.old }
    {
        let bytes = on_scale(self.bytes.len(), keys, more);
        let _ = self.bytes.reserve(bytes);
        let heads = on_scale(self.heads.len(), keys, more);
        let _ = self.heads.reserve(heads);
    }

    pub fn len(&self) -> usize
        ensures { result ≡ length self.now }
    {
        self.heads.len()
    }

    pub fn is_empty(&self) -> bool
        ensures { result ≡ (length self.now == 0) }
    {
        self.heads.is_empty()
    }

    /// How many changes have keys below another, where those come first.
    pub fn count_below(&self, key: &[u8]) -> usize
        requires { IsPartitionedBy (λ c. is_lt (key_cmp c.key key.now)) self.now }
        ensures bound { result ≤ length self.now }
        ensures parts { IsPartitionPoint (λ c. is_lt (key_cmp c.key key.now) ≡ true) (λ c. is_lt (key_cmp c.key key.now) ≡ false) self.now result }
    {
        let bytes = self.bytes.as_slice();
        self.heads
            .partition_point(|head| bytes_of(bytes, head.key).cmp(&key).is_lt())
    }

    /// How many changes have keys that are not above another, where those come first.
    pub fn count_not_above(&self, key: &[u8]) -> usize
        requires { IsPartitionedBy (λ c. not (is_lt (key_cmp key.now c.key))) self.now }
        ensures bound { result ≤ length self.now }
        ensures parts { IsPartitionPoint (λ c. not (is_lt (key_cmp key.now c.key)) ≡ true) (λ c. not (is_lt (key_cmp key.now c.key)) ≡ false) self.now result }
    {
        let bytes = self.bytes.as_slice();
        self.heads
            .partition_point(|head| !key.cmp(&bytes_of(bytes, head.key)).is_lt())
    }

    /// The key of the change at a place, if there is one.
    pub fn key(&self, at: usize) -> Option<&[u8]>
        ensures { option_copied result ≡ option_map (λ c. c.key) (slice_get self.now at) }
    {
        let head = self.heads.get(at)?;
        Some(bytes_of(&self.bytes, head.key))
    }

    /// Whether the change at a place, if there is one, is of this key.
    pub fn is_key(&self, at: usize, key: &[u8]) -> bool
        ensures { IsTrue result ↔ (option_map (λ c. c.key) (slice_get self.now at) ≡ Some key.now) }
    {
        match self.key(at) {
            Some(here) => is_same_key(here, key),
            None => false,
        }
    }

    /// Whether the change behind this one, if there is one, is of the same key.
    pub fn goes_on(&self, at: usize) -> bool
        requires { at < length self.now }
        ensures { IsTrue result ↔ (option_map (λ c. c.key) (slice_get self.now at) ≡ option_map (λ c. c.key) (slice_get self.now (at + 1))) }
    {
        match self.heads.get(at + 1) {
            Some(behind) => is_same(self.heads[at].key, behind.key),
            None => false,
        }
    }

    /// The change at a place, if there is one.
    pub fn get(&self, at: usize) -> Option<ChangeRef<'_>>
        ensures { option_map step_in result ≡ option_map step_of (slice_get self.now at) }
    {
        let head = self.heads.get(at)?;
        Some(ChangeRef {
            ts: head.ts,
            kind: head.kind,
            cells: CellsRef::of(bytes_of(&self.bytes, head.cells)),
        })
    }

    /// The change at a place that has one.
    pub fn at(&self, at: usize) -> ChangeRef<'_>
        requires { at < length self.now }
        ensures { Some (step_in result) ≡ option_map step_of (slice_get self.now at) }
    {
        let head = self.heads[at];
        ChangeRef {
            ts: head.ts,
            kind: head.kind,
            cells: CellsRef::of(bytes_of(&self.bytes, head.cells)),
        }
    }

    /// Adds a change of a key, with its cells as they are spelled behind their count. Without memory nothing is added.
    pub fn push(&mut self, key: &[u8], ts: u64, kind: Kindly, cells: &[u8]) -> Result<(), NoMemory>
        ensures ok { OnOk result (self.new ≡ self.old ++ (record { key = key.now; ts = ts; change = change_with kind (cells_behind cells.now) }) ∷ []) }
        ensures err { OnErr result (self.new ≡ self.old) }
    {
        let at = place_of(&mut self.bytes, &self.heads, key)?;
        add(&mut self.bytes, &mut self.heads, at, ts, kind, cells)
    }

    /// As `push`, with the cells that stand in a place of the pool behind so many bytes. They are copied once, from cell to cell.
    pub fn push_placed(
        &mut self,
        key: &[u8],
        ts: u64,
        kind: Kindly,
        pool: &Pool,
        place: Place,
        front: usize,
    ) -> Result<(), NoMemory>
        requires stands { Stands pool.now place.cell }
        requires front { front ≤ length (bytes_at pool.now place.cell) }
        ensures ok { OnOk result (self.new ≡ self.old ++ (record { key = key.now; ts = ts; change = change_with kind (cells_behind (drop front (bytes_at pool.now place.cell))) }) ∷ []) }
        ensures err { OnErr result (self.new ≡ self.old) }
    {
        let at = place_of(&mut self.bytes, &self.heads, key)?;
        add_placed(
            &mut self.bytes,
            &mut self.heads,
            at,
            ts,
            kind,
            pool,
            place,
            front,
        )
    }

    /// Adds a change of the key that the last one is of, as `push` does.
    pub fn push_same(&mut self, ts: u64, kind: Kindly, cells: &[u8]) -> Result<(), NoMemory>
        requires { 0 < length self.old }
        ensures ok { OnOk result (self.new ≡ self.old ++ (record { key = last_key self.old; ts = ts; change = change_with kind (cells_behind cells.now) }) ∷ []) }
        ensures err { OnErr result (self.new ≡ self.old) }
    {
        let at = last_key(&self.heads);
        add(&mut self.bytes, &mut self.heads, at, ts, kind, cells)
    }
}
