//! Cells in chains. A chain begins at a cell, and each cell names the next. The bytes of a place lie along its chain.
ghost use Rattle.std.specs.Prelude.{◌≡◌, ◌≢◌, ℕ, ◌+◌, ◌-◌, ◌*◌, ◌/◌, ◌%◌, ◌<◌, ◌≤◌, length, get_or, ◌++◌, if◌then◌else◌, OnErr};
ghost use Rattle.std.specs.Result.{is_ok};
ghost use Rattle.std.specs.Ordering.{nat_cmp};
ghost use Rattle.std.specs.Cmp.Lexicographic.{slice_cmp};
ghost use Rattle.std.specs.Vec.{vec_capacity, vec_len};
ghost use Rattle.kt_pool.specs.Contents.{cells_for};
ghost use Rattle.kt_pool.specs.Cells.{KeepsChains, IsChain, IsFull, walk, len_at, load_at, byte_at, content, written, nothing, Fills, Frees};
ghost use Rattle.kt_pool.specs.Sound.{IsSound, places_in, padded};
ghost use Rattle.std.specs.Prelude.{min, max, slice_range};

use std::alloc::AllocError;
use std::cmp::Ordering;

/// The bytes that a cell holds.
pub const PAYLOAD: usize = 56;

/// The length that marks a cell in which no place begins.
pub const NOTHING: u32 = u32::MAX;

/// A cell of 64 bytes.
#[derive(Clone, Copy)]
pub struct Cell {
    /// Its share of a place's bytes.
    pub bytes: [u8; 56],
    /// The cell after it in its chain.
    pub next: u32,
    /// The length of the place that begins here, or `NOTHING`.
    pub len: u32,
}

/// The cell that stands `steps` after `first`.
pub fn walked(cells: &[Cell], first: u32, steps: usize) -> u32
    requires { (j : ℕ) → j < steps → walk cells.now first j < length cells.now }
    ensures { result ≡ walk cells.now first steps }
{
    let mut at = first;
    for _step in 0..steps {
        at = cells[at as usize].next;
    }
    at
}

/// Writes a piece over the bytes of one cell.
fn put(cells: &mut [Cell], cell: u32, skip: usize, piece: &[u8])
    requires inside { cell < length cells.old }
    requires fits { skip + length piece.now ≤ 56 }
    requires full { IsFull cells.old }
    ensures kept { KeepsChains cells.old cells.new }
    ensures others { (k : ℕ) → k ≢ cell → load_at cells.new k ≡ load_at cells.old k }
    ensures load { (i : ℕ) → get_or (load_at cells.new cell) i 0 ≡ written skip piece.now (λ i. get_or (load_at cells.old cell) i 0) i }
{
    let here = &mut cells[cell as usize];
    here.bytes[skip..skip + piece.len()].copy_from_slice(piece);
}

/// Writes these bytes from byte `at` of the chain on, and says which cell comes after them.
pub fn write(cells: &mut [Cell], first: u32, at: usize, bytes: &[u8]) -> u32
    requires chain { IsChain cells.old first (cells_for (at + length bytes.now)) }
    requires starts { at / 56 < cells_for (at + length bytes.now) }
    requires full { IsFull cells.old }
    ensures kept { KeepsChains cells.old cells.new }
    ensures next { result ≡ walk cells.old first (cells_for (at + length bytes.now)) }
    ensures bytes { (m i : ℕ) → IsChain cells.old first m → i < 56 * m → byte_at cells.new first i ≡ written at bytes.now (byte_at cells.old first) i }
    ensures frame { (k : ℕ) → ((j : ℕ) → j < cells_for (at + length bytes.now) → walk cells.old first j ≢ k) → load_at cells.new k ≡ load_at cells.old k }
{
    let mut cell = walked(cells, first, at / PAYLOAD);
    let mut skip = at % PAYLOAD;
    let mut rest = bytes;
    while rest.len() > PAYLOAD - skip {
        let (piece, more) = rest.split_at(PAYLOAD - skip);
        put(cells, cell, skip, piece);
        cell = cells[cell as usize].next;
        rest = more;
        skip = 0;
    }
    put(cells, cell, skip, rest);
    cells[cell as usize].next
}

/// Places these bytes in the first cells of a chain, and says which cell comes after them.
pub fn fill(cells: &mut [Cell], first: u32, bytes: &[u8]) -> u32
    requires chain { IsChain cells.old first (cells_for (length bytes.now)) }
    requires full { IsFull cells.old }
    requires short { length bytes.now < nothing }
    ensures { Fills cells.old cells.new first bytes.now result }
{
    let after = write(cells, first, 0, bytes);
    cells[first as usize].len = bytes.len() as u32;
    after
}

/// Makes free cells in front of a chain of them until there are `count`, and says where it begins then.
pub fn lengthen(cells: &mut Vec<Cell>, first: u32, spare: u32, count: u32) -> u32
    requires sound { IsSound cells.old.items first spare }
    requires room { length cells.old.items + (count - spare) ≤ vec_capacity cells.old }
    requires small { length cells.old.items + (count - spare) ≤ 76_695_844 }
    ensures sound { IsSound cells.new.items result (max spare count) }
    ensures places { places_in cells.new.items ≡ padded (places_in cells.old.items) (count - spare) }
    ensures room { vec_capacity cells.new ≡ vec_capacity cells.old }
{
    let mut at = first;
    for _made in spare..count {
        let number = cells.len() as u32;
        cells.push_reserved(Cell {
            bytes: [0; 56],
            next: at,
            len: NOTHING,
        });
        at = number;
    }
    at
}

/// Places two pieces, one behind the other, in the first cells of a chain, and says which cell comes after them.
pub fn fill_two(cells: &mut [Cell], first: u32, front: &[u8], behind: &[u8]) -> u32
    requires chain { IsChain cells.old first (cells_for (length (front.now ++ behind.now))) }
    requires full { IsFull cells.old }
    requires small { length front.now < 56 }
    requires short { length (front.now ++ behind.now) < nothing }
    ensures { Fills cells.old cells.new first (front.now ++ behind.now) result }
{
    put(cells, first, 0, front);
    let after = write(cells, first, front.len(), behind);
    cells[first as usize].len = (front.len() + behind.len()) as u32;
    after
}

/// Takes the place out of the cell at which it begins, puts its cells in front of another chain, and says how many they are.
pub fn release(cells: &mut [Cell], head: u32, next: u32) -> u32
    requires { IsChain cells.old head (cells_for (len_at cells.old head)) }
    ensures count { result ≡ cells_for (len_at cells.old head) }
    ensures frees { Frees cells.old cells.new head next }
{
    let taken = cells_taken(cells[head as usize].len as usize);
    let last = walked(cells, head, taken - 1);
    cells[last as usize].next = next;
    cells[head as usize].len = NOTHING;
    taken as u32
}

/// The cells that so many bytes take.
pub fn cells_taken(len: usize) -> usize
    ensures { result ≡ cells_for len }
{
    if len == 0 { 1 } else { (len - 1) / PAYLOAD + 1 }
}

/// The length that this cell names.
pub fn len_of(cells: &[Cell], cell: u32) -> usize
    requires { cell < length cells.now }
    ensures { result ≡ len_at cells.now cell }
{
    cells[cell as usize].len as usize
}

/// One byte along a chain.
pub fn byte(cells: &[Cell], first: u32, at: usize) -> u8
    requires chain { IsChain cells.now first (at / 56 + 1) }
    requires full { IsFull cells.now }
    ensures { result ≡ byte_at cells.now first at }
{
    let cell = walked(cells, first, at / PAYLOAD);
    cells[cell as usize].bytes[at % PAYLOAD]
}

/// The first `len` bytes along a chain, from `at` to the end of that cell.
pub fn chunk(cells: &[Cell], first: u32, len: usize, at: usize) -> &[u8]
    requires chain { IsChain cells.now first (cells_for len) }
    requires full { IsFull cells.now }
    requires inside { at < len }
    ensures { result.now ≡ slice_range (content cells.now first len) at (min len (56 * (at / 56) + 56)) }
{
    let left = len - at;
    let cell = walked(cells, first, at / PAYLOAD);
    let skip = at % PAYLOAD;
    let room = PAYLOAD - skip;
    let end = skip + if left < room { left } else { room };
    let here = &cells[cell as usize].bytes;
    &here[skip..end]
}

/// The first `len` bytes along a chain, where its first cell has them all.
pub fn front(cells: &[Cell], first: u32, len: usize) -> &[u8]
    requires inside { first < length cells.now }
    requires full { IsFull cells.now }
    requires short { len ≤ 56 }
    ensures { result.now ≡ content cells.now first len }
{
    &cells[first as usize].bytes[..len]
}

/// Compares the first `len` bytes along a chain with a key.
pub fn compare(cells: &[Cell], first: u32, len: usize, key: &[u8]) -> Ordering
    requires chain { IsChain cells.now first (cells_for len) }
    requires full { IsFull cells.now }
    ensures { result ≡ slice_cmp nat_cmp (content cells.now first len) key.now }
{
    let mut at = first;
    let mut left = len;
    let mut rest = key;
    while left > PAYLOAD && rest.len() > PAYLOAD {
        let (front, back) = rest.split_at(PAYLOAD);
        let here = &cells[at as usize];
        let order = here.bytes[..].cmp(front);
        if order != Ordering::Equal {
            return order;
        }
        at = here.next;
        left -= PAYLOAD;
        rest = back;
    }
    let here = &cells[at as usize];
    if left > PAYLOAD {
        here.bytes[..].cmp(rest).then(Ordering::Greater)
    } else {
        here.bytes[..left].cmp(rest)
    }
}

/// Appends the first `len` bytes along a chain.
pub fn append(cells: &[Cell], first: u32, len: usize, out: &mut Vec<u8>) -> Result<(), AllocError>
    requires chain { IsChain cells.now first (cells_for len) }
    requires full { IsFull cells.now }
    ensures items { out.new.items ≡ (if is_ok result then out.old.items ++ content cells.now first len else out.old.items) }
    ensures room { OnErr result (vec_capacity out.old < vec_len out.old + len) }
{
    out.reserve(len)?;
    let mut at = first;
    let mut left = len;
    while left > PAYLOAD {
        let here = &cells[at as usize];
        out.extend_from_slice(&here.bytes)?;
        at = here.next;
        left -= PAYLOAD;
    }
    let here = &cells[at as usize];
    out.extend_from_slice(&here.bytes[..left])?;
    Ok(())
}
