ghost use Rattle.std.specs.Prelude.{◌≡◌, ◌+◌, ◌-◌, ◌*◌, ◌/◌, ◌<◌, ◌≤◌, ◌↔◌, length, IsOk, IfOk, OnOk, OnErr, MatchResult, slice_index, set, Some, None};
ghost use Rattle.std.specs.Prelude.{replicate, ◌++◌, if◌then◌else◌, min, slice_range, take};
ghost use Rattle.std.specs.Result.{is_ok};
ghost use Rattle.std.specs.Ordering.{nat_cmp};
ghost use Rattle.std.specs.Cmp.Lexicographic.{slice_cmp};
ghost use Rattle.std.specs.Vec.{vec_capacity, vec_len};
ghost use Rattle.kt_pool.specs.Contents.{Contents, cells_for, used, free, at_cell, Stands, bytes_at, with_place, with_reserved, overwritten};

use crate::cells::{
    Cell, append, byte, cells_taken, chunk, compare, fill, fill_two, front, len_of, lengthen,
    release, write,
};
use crate::error::{Full, NoMemory};
use crate::place::Place;
use std::alloc::Global;
use std::cmp::Ordering;
use std::marker::Model;

/// The most cells of a pool: the length of a place that takes them all still fits its word.
const MOST_CELLS: u32 = 76_695_844;

/// A pool of cells. They are made as they are used, in room that is taken at once.
#[derive(Drop)]
pub struct Pool {
    cells: Vec<Cell>,
    size: u32,
    first: u32,
    spare: u32,
    reserved: u32,
}

impl Model for Pool {
    ghost use Rattle.kt_pool.specs.Contents.{Contents};

    ghost Value = { Contents };

    ghost use Rattle.std.specs.Prelude.{◌-◌, length};
    ghost use Rattle.std.specs.Vec.{vec_capacity};
    ghost use Rattle.kt_pool.specs.Sound.{IsPool, places_in, padded};

    ghost view = { λ p. record { places = padded (places_in p.cells.items) (p.size - length p.cells.items); reserved = p.reserved } };

    ghost invariant = { λ p. IsPool p.cells.items p.first p.spare p.size (vec_capacity p.cells) p.reserved };
}

impl Pool {
    /// A pool of so many free cells. There is no memory for more than 76,695,844 of them.
    pub fn new(alloc: Global, cells: u32) -> Result<Pool, NoMemory>
        ensures places { IfOk result (λ pool. pool.places ≡ replicate cells None) }
        ensures reserved { IfOk result (λ pool. pool.reserved ≡ 0) }
    {
        if cells > MOST_CELLS {
            return Err(NoMemory);
        }
        Ok(Pool {
            cells: Vec::with_capacity(alloc, cells as usize)?,
            size: cells,
            first: 0,
            spare: 0,
            reserved: 0,
        })
    }

    /// How many cells there are.
    pub fn size(&self) -> u32
        ensures { result ≡ length self.now.places }
    {
        self.size
    }

    /// How many cells no place has.
    pub fn free(&self) -> u32
        ensures free { result ≡ free self.now }
        ensures all { result + used self.now ≡ length self.now.places }
    {
        self.spare + (self.size - self.cells.len() as u32)
    }

    /// How many of the free cells are promised.
    pub fn reserved(&self) -> u32
        ensures reserved { result ≡ self.now.reserved }
        ensures free { result ≤ free self.now }
    {
        self.reserved
    }

    /// Promises n more cells.
    pub fn reserve(&mut self, n: u32) -> Result<(), Full>
        ensures ok { OnOk result (self.new ≡ with_reserved self.old (self.old.reserved + n)) }
        ensures err { OnErr result (self.new ≡ self.old) }
        ensures full { IsOk result ↔ (n ≤ free self.old - self.old.reserved) }
        ensures says { MatchResult result (λ _. Unit {0}) (λ e. (e.need ≡ n) × (e.free ≡ free self.old - self.old.reserved)) }
    {
        let left = self.free() - self.reserved;
        if n > left {
            return Err(Full {
                need: n,
                free: left,
            });
        }
        self.reserved += n;
        Ok(())
    }

    /// Takes back the promise of n cells.
    pub fn release(&mut self, n: u32)
        requires { n ≤ self.old.reserved }
        ensures { self.new ≡ with_reserved self.old (self.old.reserved - n) }
    {
        self.reserved -= n;
    }

    /// Places these bytes in reserved cells, where no place stood.
    pub fn place(&mut self, bytes: &[u8]) -> Place
        requires { cells_for (length bytes.now) ≤ self.old.reserved }
        ensures vacant { at_cell self.old result.cell ≡ None }
        ensures inside { result.cell < length self.old.places }
        ensures placed { self.new ≡ with_place self.old result.cell (Some bytes.now) (self.old.reserved - cells_for (length bytes.now)) }
    {
        let spare = self.spare;
        let taken = cells_taken(bytes.len()) as u32;
        let first = lengthen(&mut self.cells, self.first, spare, taken);
        self.first = fill(&mut self.cells, first, bytes);
        self.spare = spare.saturating_sub(taken);
        self.reserved -= taken;
        Place { cell: first }
    }

    /// Places two pieces, one behind the other, in reserved cells, where no place stood. The first is shorter than a cell.
    pub fn place_two(&mut self, front: &[u8], behind: &[u8]) -> Place
        requires small { length front.now < 56 }
        requires room { cells_for (length (front.now ++ behind.now)) ≤ self.old.reserved }
        ensures vacant { at_cell self.old result.cell ≡ None }
        ensures inside { result.cell < length self.old.places }
        ensures placed { self.new ≡ with_place self.old result.cell (Some (front.now ++ behind.now)) (self.old.reserved - cells_for (length (front.now ++ behind.now))) }
    {
        let spare = self.spare;
        let taken = cells_taken(front.len() + behind.len()) as u32;
        let first = lengthen(&mut self.cells, self.first, spare, taken);
        self.first = fill_two(&mut self.cells, first, front, behind);
        self.spare = spare.saturating_sub(taken);
        self.reserved -= taken;
        Place { cell: first }
    }

    /// How many bytes are placed there.
    pub fn len(&self, place: Place) -> usize
        requires { Stands self.now place.cell }
        ensures { result ≡ length (bytes_at self.now place.cell) }
    {
        len_of(&self.cells, place.cell)
    }

    /// One of the bytes placed there.
    pub fn read(&self, place: Place, at: usize) -> u8
        requires { at < length (bytes_at self.now place.cell) }
        ensures { result ≡ slice_index (bytes_at self.now place.cell) at }
    {
        byte(&self.cells, place.cell, at)
    }

    /// The bytes placed there, from `at` to the end of that cell.
    pub fn chunk(&self, place: Place, at: usize) -> &[u8]
        requires { at < length (bytes_at self.now place.cell) }
        ensures { result.now ≡ slice_range (bytes_at self.now place.cell) at (min (length (bytes_at self.now place.cell)) (56 * (at / 56) + 56)) }
    {
        let len = len_of(&self.cells, place.cell);
        chunk(&self.cells, place.cell, len, at)
    }

    /// The first of the bytes placed there, as many as a cell holds at most.
    pub fn front(&self, place: Place, len: usize) -> &[u8]
        requires some { 0 < len }
        requires short { len ≤ 56 }
        requires inside { len ≤ length (bytes_at self.now place.cell) }
        ensures { result.now ≡ take len (bytes_at self.now place.cell) }
    {
        front(&self.cells, place.cell, len)
    }

    /// The order of the bytes placed there and a key.
    pub fn compare(&self, place: Place, key: &[u8]) -> Ordering
        requires { Stands self.now place.cell }
        ensures { result ≡ slice_cmp nat_cmp (bytes_at self.now place.cell) key.now }
    {
        let len = len_of(&self.cells, place.cell);
        compare(&self.cells, place.cell, len, key)
    }

    /// Appends the bytes placed there. It fails only where `out` has no room and none is to be had.
    pub fn append_to(&self, place: Place, out: &mut Vec<u8>) -> Result<(), NoMemory>
        requires { Stands self.now place.cell }
        ensures items { out.new.items ≡ (if is_ok result then out.old.items ++ bytes_at self.now place.cell else out.old.items) }
        ensures room { OnErr result (vec_capacity out.old < vec_len out.old + length (bytes_at self.now place.cell)) }
    {
        let len = len_of(&self.cells, place.cell);
        append(&self.cells, place.cell, len, out)?;
        Ok(())
    }

    /// Writes these bytes over those placed there, from `at` on.
    pub fn set(&mut self, place: Place, at: usize, bytes: &[u8])
        requires stands { Stands self.old place.cell }
        requires within { at + length bytes.now ≤ length (bytes_at self.old place.cell) }
        ensures { self.new ≡ with_place self.old place.cell (Some (overwritten at bytes.now (bytes_at self.old place.cell))) self.old.reserved }
    {
        if !bytes.is_empty() {
            write(&mut self.cells, place.cell, at, bytes);
        }
    }

    /// Makes the cells of a place free.
    pub fn give_back(&mut self, place: Place)
        requires { Stands self.old place.cell }
        ensures { self.new ≡ with_place self.old place.cell None self.old.reserved }
    {
        let taken = release(&mut self.cells, place.cell, self.first);
        self.first = place.cell;
        self.spare += taken;
    }
}
