//! Which cells of a block are null, and where the values of the others stand.

ghost use Rattle.std.specs.Prelude.{◌≡◌, ◌+◌, ◌-◌, ◌*◌, ◌/◌, ◌^◌, ◌%◌, ◌<◌, ◌≤◌, ◌++◌, ◌∷◌, [], ℕ, List, Bool, true, false, length, map, take, get_or, IfOk, IfErr, OnOk, MatchOption};
ghost use Rattle.std.specs.Bool.{OnTrue, OnFalse};
ghost use Rattle.kt_column.specs.Nulls as spec;
ghost use Rattle.kt_column.specs.Nulls.{byte_len, null_bytes, count_present, ReadsNulls, IsNullStop};
ghost use Rattle.kt_column.specs.Reading.{IsOrMemory};

use crate::errors::Stop;
use std::alloc::{AllocError, Global};
use std::marker::Model;

/// For each cell none where it is null, and else the place of its value among the values. Contracts
/// see it as a list that says of each cell whether it is null.
#[derive(Drop)]
pub struct Nulls {
    slots: Vec<Option<u16>>,
    present: u16,
}

impl Model for Nulls {
    ghost use Rattle.std.specs.Prelude.{◌≡◌, ◌≤◌, List, Bool, map, length};
    ghost use Rattle.kt_column.specs.Nulls.{is_none, count_present, AreSlots};

    ghost Value = { List Bool };

    ghost view = { λ s. map is_none s.slots.items };

    ghost invariant = { λ s. AreSlots 0 s.slots.items × (s.present ≡ count_present (map is_none s.slots.items)) × (length s.slots.items ≤ 8192) };
}

/// The bits of so many cells, the lowest first.
fn bits_value(slots: &[Option<u16>]) -> u8
    requires { length slots.now ≤ 8 }
    ensures value { result ≡ spec.bits_value (map spec.is_none slots.now) }
    ensures below { result < 2 ^ length slots.now }
{
    match slots {
        [] => 0,
        [first, rest @ ..] => u8::from(first.is_none()) + 2 * bits_value(rest),
    }
}

/// Adds the bits of the cells to the bytes.
fn put_bits(out: &mut Vec<u8>, slots: &[Option<u16>]) -> Result<(), AllocError>
    ensures { OnOk result (out.new.items ≡ out.old.items ++ null_bytes (map spec.is_none slots.now)) }
{
    let mut rest = slots;
    while !rest.is_empty() {
        let (front, after) = rest.split_at(rest.len().min(8));
        out.push(bits_value(front))?;
        rest = after;
    }
    Ok(())
}

impl Nulls {
    pub fn new(alloc: Global) -> Nulls
        ensures { result ≡ [] }
    {
        Nulls {
            slots: Vec::new(alloc),
            present: 0,
        }
    }

    /// No cell, with room for so many.
    fn with_room(alloc: Global, n: usize) -> Result<Nulls, AllocError>
        ensures { IfOk result (λ nulls. nulls ≡ []) }
    {
        Ok(Nulls {
            slots: Vec::with_capacity(alloc, n)?,
            present: 0,
        })
    }

    pub fn len(&self) -> usize
        ensures { result ≡ length self.now }
    {
        self.slots.len()
    }

    /// How many bytes the bits of the cells take.
    pub fn byte_len(&self) -> usize
        ensures value { result ≡ byte_len (length self.now) }
        ensures few { result ≤ 1024 }
    {
        self.slots.len().div_ceil(8)
    }

    /// How many cells are not null.
    pub fn present(&self) -> u32
        ensures { result ≡ count_present self.now }
    {
        u32::from(self.present)
    }

    /// Adds a cell that is null.
    pub fn push_null(&mut self) -> Result<(), AllocError>
        requires { length self.old < 8192 }
        ensures { OnOk result (self.new ≡ self.old ++ true ∷ []) }
    {
        self.slots.push(None)?;
        Ok(())
    }

    /// Adds a cell that is not null.
    pub fn push_value(&mut self) -> Result<(), AllocError>
        requires { length self.old < 8192 }
        ensures { OnOk result (self.new ≡ self.old ++ false ∷ []) }
    {
        self.slots.push(Some(self.present))?;
        self.present += 1;
        Ok(())
    }

    /// Adds a cell.
    pub fn push(&mut self, null: bool) -> Result<(), AllocError>
        requires { length self.old < 8192 }
        ensures { OnOk result (self.new ≡ self.old ++ null ∷ []) }
    {
        if null {
            self.push_null()
        } else {
            self.push_value()
        }
    }

    /// The place of a cell's value among the values, or none where the cell is null.
    pub fn slot(&self, i: usize) -> Option<u32>
        requires { i < length self.now }
        ensures { MatchOption result (get_or self.now i false ≡ true) (λ k. (get_or self.now i true ≡ false) × (k ≡ count_present (take i self.now))) }
    {
        match self.slots[i] {
            Some(k) => Some(u32::from(k)),
            None => None,
        }
    }

    /// Adds the bits of the cells to the bytes.
    pub fn spell(&self, out: &mut Vec<u8>) -> Result<(), AllocError>
        ensures { OnOk result (out.new.items ≡ out.old.items ++ null_bytes self.now) }
    {
        put_bits(out, &self.slots)
    }
}

/// Adds what the first bits of a byte say, the lowest first.
fn push_bits(nulls: &mut Nulls, byte: u8, n: usize) -> Result<(), AllocError>
    requires { length nulls.old + n ≤ 8192 }
    ensures { OnOk result (nulls.new ≡ nulls.old ++ spec.bits_of n byte) }
{
    let mut left = byte;
    'bits: for i in 0..n {
        tri!(nulls.push(left % 2 == 1));
        left /= 2;
    }
    Ok(())
}

/// What the bits of n cells say.
fn unpacked(alloc: Global, bytes: &[u8], n: usize) -> Result<Nulls, AllocError>
    requires few { n ≤ 8192 }
    requires whole { length bytes.now ≡ byte_len n }
    ensures { IfOk result (λ nulls. nulls ≡ spec.bits_in n bytes.now) }
{
    let mut nulls = tri!(Nulls::with_room(alloc, n));
    let mut left = n;
    'bytes: for byte in bytes {
        let here = left.min(8);
        tri!(push_bits(&mut nulls, *byte, here));
        left -= here;
    }
    Ok(nulls)
}

/// Whether a bit behind the last cell's is 1.
fn has_spare(bytes: &[u8], n: usize) -> bool
    requires { byte_len n ≤ length bytes.now }
    ensures yes { OnTrue result ((0 < n % 8) × (2 ^ (n % 8) ≤ get_or bytes.now (n / 8) 0)) }
    ensures no { OnFalse result (0 < n % 8 → get_or bytes.now (n / 8) 0 < 2 ^ (n % 8)) }
{
    let used = n % 8;
    used > 0 && u32::from(bytes[n / 8]) >= 1 << used
}

/// Which of n cells are null, by the bytes at the front.
pub fn read(alloc: Global, bytes: &[u8], n: u32) -> Result<Nulls, Stop>
    requires { n ≤ 8192 }
    ensures found { IfOk result (λ nulls. ReadsNulls n bytes.now nulls) }
    ensures only { (nulls : List Bool) (rest : List ℕ) → length nulls ≡ n → bytes.now ≡ null_bytes nulls ++ rest → IsOrMemory result nulls }
    ensures stop { IfErr result (IsNullStop n bytes.now) }
{
    let n = n as usize;
    let len = n.div_ceil(8);
    if bytes.len() < len {
        return Err(Stop::Fault { at: bytes.len() });
    }
    if has_spare(bytes, n) {
        return Err(Stop::Fault { at: n / 8 });
    }
    Ok(unpacked(alloc, &bytes[..len], n)?)
}
