//! From the bytes of a block to its cells.

ghost use Rattle.std.specs.Prelude.{◌≡◌, ◌<◌, ◌≤◌, ◌+◌, ◌^◌, ◌++◌, ◌⊎◌, ℕ, List, length, take, drop, IfOk, IfErr, MatchResult};
ghost use Rattle.kt_column.specs.declared.errors.Stop.TheVariants as stops;
ghost use Rattle.std.specs.Bool.{OnTrue, OnFalse};
ghost use Rattle.kt_column.specs.Blocks.{Held, SpellsBlock, values_in};
ghost use Rattle.kt_column.specs.Held.{items_of, encoding_of, cells_of, IsChosen};
ghost use Rattle.kt_column.specs.Values.{IsShortest, MayStand};
ghost use Rattle.kt_base.specs.declared.cell.Cell.{Cell};
ghost use Rattle.kt_plain.specs.declared.items.Items.{Items};
ghost use Rattle.kt_column.specs.Forms.{is_nullable, MayUse};
ghost use Rattle.kt_column.specs.Reading.{Reads, ReadsValues, IsOrMemory, HoldsOrMemory};
ghost use Rattle.kt_column.specs.Nulls.{byte_len};
ghost use Rattle.kt_column.specs.Faults as spec;
ghost use Rattle.kt_column.specs.Faults.{AreNullsFor, FrontNulls, IsBody, IsBodyStop, IsBlockStop, IsContentStop, IsFound, IsRefusal, IsShiftable, IsValuesStop, ReadsContent, shifted};

use crate::block::Block;
use crate::errors::{CodecNo, Stop};
use crate::form::{Encoding, Form};
use crate::held::Values;
use crate::least::is_shortest;
use crate::nulls::Nulls;
use crate::parts::{Head, front_nulls, read_head};
use crate::reading::read;
use kt_base::NoMemory;
use std::alloc::Global;

/// A fault behind so many bytes.
fn behind(len: usize, stop: Stop) -> Stop
    requires { IsShiftable len stop }
    ensures { result ≡ shifted len stop }
{
    match stop {
        Stop::Fault { at } => Stop::Fault { at: len + at },
        _ => stop,
    }
}

/// How many values n cells have.
#[tactic(auto, using(crate::proofs::NullBits::present_le))]
fn value_count(form: Form, n: u32, nulls: &Nulls) -> u32
    requires few { n ≤ 8192 }
    requires nulls { AreNullsFor (is_nullable form) n nulls.now }
    ensures value { result ≡ spec.value_count (is_nullable form) n nulls.now }
    ensures few { result ≤ 8192 }
{
    if form.is_nullable() {
        nulls.present()
    } else {
        n
    }
}

/// The bytes behind those of the nulls.
fn behind_nulls<'a>(nulls: &Nulls, part: &'a [u8]) -> &'a [u8]
    requires { byte_len (length nulls.now) ≤ length part.now }
    ensures { result.now ≡ drop (byte_len (length nulls.now)) part.now }
{
    &part[nulls.byte_len()..]
}

/// The values behind the nulls.
fn values_behind(
    alloc: Global,
    form: Form,
    encoding: Encoding,
    n: u32,
    nulls: &Nulls,
    part: &[u8],
) -> Result<Values, Stop>
    requires few { n ≤ 8192 }
    requires open { MayUse form encoding }
    requires front { FrontNulls form n part.now nulls.now }
    ensures found { IfOk result (ReadsValues form encoding (spec.value_count (is_nullable form) n nulls.now) (drop (byte_len (length nulls.now)) part.now)) }
    ensures only { (items : Items) → Reads form encoding (spec.value_count (is_nullable form) n nulls.now) (drop (byte_len (length nulls.now)) part.now) items → HoldsOrMemory result items }
    ensures stop { IfErr result (IsValuesStop form encoding n part.now) }
{
    let count = value_count(form, n, nulls);
    match read(alloc, form, encoding, count, behind_nulls(nulls, part)) {
        Ok(values) => Ok(values),
        Err(stop) => Err(behind(nulls.byte_len(), stop)),
    }
}

/// Which cells are null, and the values of the others.
#[derive(Drop)]
struct Content {
    nulls: Nulls,
    values: Values,
}

/// The nulls and values that these bytes are.
fn read_content(
    alloc: Global,
    form: Form,
    encoding: Encoding,
    n: u32,
    part: &[u8],
) -> Result<Content, Stop>
    requires few { n ≤ 8192 }
    requires open { MayUse form encoding }
    ensures held { IfOk result (λ c. Held form c.nulls (items_of c.values) (cells_of form c.nulls c.values)) }
    ensures own { IfOk result (λ c. encoding_of c.values ≡ encoding) }
    ensures found { IfOk result (λ c. ReadsContent form encoding n part.now (cells_of form c.nulls c.values)) }
    ensures only { (cs : List Cell) → ReadsContent form encoding n part.now cs → MatchResult result (λ c. cells_of form c.nulls c.values ≡ cs) (λ e. e ≡ stops.Memory) }
    ensures stop { IfErr result (IsContentStop form encoding n part.now) }
{
    let nulls = match front_nulls(alloc, form, n, part) {
        Ok(nulls) => nulls,
        Err(stop) => return Err(stop),
    };
    match values_behind(alloc, form, encoding, n, &nulls, part) {
        Ok(values) => Ok(Content { nulls, values }),
        Err(stop) => Err(stop),
    }
}

/// Whether the values of content that was read are the shortest in its encoding.
fn is_least(
    alloc: Global,
    form: Form,
    encoding: Encoding,
    content: &Content,
) -> Result<bool, NoMemory>
    requires held { Held form content.now.nulls (items_of content.now.values) (cells_of form content.now.nulls content.now.values) }
    requires own { encoding_of content.now.values ≡ encoding }
    requires open { MayUse form encoding }
    ensures yes { IfOk result (λ b. OnTrue b ((bytes : List ℕ) → MayStand form (values_in form (cells_of form content.now.nulls content.now.values)) encoding bytes → IsShortest form (values_in form (cells_of form content.now.nulls content.now.values)) encoding bytes)) }
    ensures no { IfOk result (λ b. OnFalse b ((bytes : List ℕ) → ¬ IsShortest form (values_in form (cells_of form content.now.nulls content.now.values)) encoding bytes)) }
{
    is_shortest(alloc, form, &content.values)
}

/// A block, and how many bytes it takes.
#[derive(Drop)]
pub struct Found {
    pub block: Block,
    pub len: usize,
}

/// The first so many bytes, or all.
fn front_of(rest: &[u8], len: usize) -> &[u8]
    ensures { result.now ≡ take len rest.now }
{
    &rest[..len.min(rest.len())]
}

/// Whether these bytes are nulls and values, and why not.
fn check_content(
    alloc: Global,
    form: Form,
    encoding: Encoding,
    n: u32,
    part: &[u8],
) -> Result<(), Stop>
    requires few { n ≤ 8192 }
    requires open { MayUse form encoding }
    ensures found { IfOk result (λ _. (cs : List Cell) × ReadsContent form encoding n part.now cs) }
    ensures only { (cs : List Cell) → ReadsContent form encoding n part.now cs → IfErr result (λ e. e ≡ stops.Memory) }
    ensures stop { IfErr result (IsContentStop form encoding n part.now) }
{
    let read = match read_content(alloc, form, encoding, n, part) {
        Ok(read) => read,
        Err(stop) => return Err(stop),
    };
    drop(read);
    Ok(())
}

/// Why the bytes begin with no content of this length: its own first fault, wherever it ends, or the
/// length.
fn content_stop(
    alloc: Global,
    form: Form,
    encoding: Encoding,
    n: u32,
    len: usize,
    rest: &[u8],
) -> Stop
    requires few { n ≤ 8192 }
    requires open { MayUse form encoding }
    requires room { 5 + length rest.now < 2 ^ 64 }
    requires none { (cs : List Cell) → ¬ ReadsContent form encoding n (take len rest.now) cs }
    ensures { IsBodyStop form encoding n len rest.now result }
{
    let at = match check_content(alloc, form, encoding, n, rest) {
        Ok(()) => return Stop::Fault { at: 1 },
        Err(Stop::Memory) => return Stop::Memory,
        Err(Stop::Fault { at }) => at,
    };
    match check_content(alloc, form, encoding, n, front_of(rest, at)) {
        Ok(()) => Stop::Fault { at: 1 },
        Err(Stop::Memory) => Stop::Memory,
        Err(Stop::Fault { .. }) => Stop::Fault { at: 5 + at },
    }
}

/// The nulls and values behind the first fields, as long as those say, or the first fault.
fn content_of(alloc: Global, form: Form, n: u32, head: Head<'_>) -> Result<Content, Stop>
    requires few { n ≤ 8192 }
    requires open { MayUse form head.encoding }
    requires room { 5 + length head.rest.now < 2 ^ 64 }
    ensures held { IfOk result (λ c. Held form c.nulls (items_of c.values) (cells_of form c.nulls c.values)) }
    ensures own { IfOk result (λ c. encoding_of c.values ≡ head.entry.encoding) }
    ensures within { IfOk result (λ _. head.entry.len ≤ length head.entry.rest.now) }
    ensures found { IfOk result (λ c. ReadsContent form head.entry.encoding n (take head.entry.len head.entry.rest.now) (cells_of form c.nulls c.values)) }
    ensures only { (cs : List Cell) → head.entry.len ≤ length head.entry.rest.now → ReadsContent form head.entry.encoding n (take head.entry.len head.entry.rest.now) cs → MatchResult result (λ c. cells_of form c.nulls c.values ≡ cs) (λ e. e ≡ stops.Memory) }
    ensures stop { IfErr result (IsBodyStop form head.entry.encoding n head.entry.len head.entry.rest.now) }
{
    let read = match read_content(alloc, form, head.encoding, n, front_of(head.rest, head.len)) {
        Ok(read) => read,
        Err(Stop::Memory) => return Err(Stop::Memory),
        Err(Stop::Fault { .. }) => {
            let stop = content_stop(alloc, form, head.encoding, n, head.len, head.rest);
            return Err(stop);
        }
    };
    if head.rest.len() < head.len {
        drop(read);
        return Err(Stop::Fault { at: 1 });
    }
    Ok(read)
}

/// The fault where another encoding is shorter.
fn check_least(alloc: Global, form: Form, encoding: Encoding, content: &Content) -> Result<(), Stop>
    requires held { Held form content.now.nulls (items_of content.now.values) (cells_of form content.now.nulls content.now.values) }
    requires own { encoding_of content.now.values ≡ encoding }
    requires open { MayUse form encoding }
    ensures yes { IfOk result (λ _. (bytes : List ℕ) → MayStand form (values_in form (cells_of form content.now.nulls content.now.values)) encoding bytes → IsShortest form (values_in form (cells_of form content.now.nulls content.now.values)) encoding bytes) }
    ensures no { IfErr result (λ e. (e ≡ stops.Memory) ⊎ ((e ≡ stops.Fault 0) × ((bytes : List ℕ) → ¬ IsShortest form (values_in form (cells_of form content.now.nulls content.now.values)) encoding bytes))) }
{
    match is_least(alloc, form, encoding, content) {
        Ok(true) => Ok(()),
        Ok(false) => Err(Stop::Fault { at: 0 }),
        Err(NoMemory) => Err(Stop::Memory),
    }
}

fn as_block(form: Form, read: Content) -> Block
    requires held { Held form read.nulls (items_of read.values) (cells_of form read.nulls read.values) }
    requires chosen { IsChosen form read.values }
    ensures { result ≡ record { form = form; cells = cells_of form read.nulls read.values } }
{
    Block::of(form, read.nulls, read.values)
}

/// The block of content that was read, if its encoding is the shortest.
fn block_of(alloc: Global, form: Form, encoding: Encoding, read: Content) -> Result<Block, Stop>
    requires held { Held form read.nulls (items_of read.values) (cells_of form read.nulls read.values) }
    requires own { encoding_of read.values ≡ encoding }
    requires open { MayUse form encoding }
    requires stands { (bytes : List ℕ) × MayStand form (values_in form (cells_of form read.nulls read.values)) encoding bytes }
    ensures found { IfOk result (λ block. block ≡ record { form = form; cells = cells_of form read.nulls read.values }) }
    ensures yes { IfOk result (λ _. (bytes : List ℕ) → MayStand form (values_in form (cells_of form read.nulls read.values)) encoding bytes → IsShortest form (values_in form (cells_of form read.nulls read.values)) encoding bytes) }
    ensures no { IfErr result (λ e. (e ≡ stops.Memory) ⊎ ((e ≡ stops.Fault 0) × ((bytes : List ℕ) → ¬ IsShortest form (values_in form (cells_of form read.nulls read.values)) encoding bytes))) }
{
    match check_least(alloc, form, encoding, &read) {
        Ok(()) => Ok(as_block(form, read)),
        Err(stop) => {
            drop(read);
            Err(stop)
        }
    }
}

/// The block behind its first fields.
fn body(alloc: Global, form: Form, n: u32, head: Head<'_>) -> Result<Block, Stop>
    requires few { n ≤ 8192 }
    requires open { MayUse form head.encoding }
    requires room { 5 + length head.rest.now < 2 ^ 64 }
    ensures form { IfOk result (λ block. block.form ≡ form) }
    ensures found { IfOk result (λ block. IsBody form head.entry.encoding n head.entry.len head.entry.rest.now block.cells) }
    ensures only { (cs : List Cell) → IsBody form head.entry.encoding n head.entry.len head.entry.rest.now cs → IsOrMemory result (record { form = form; cells = cs }) }
    ensures stop { IfErr result (IsBodyStop form head.entry.encoding n head.entry.len head.entry.rest.now) }
{
    match content_of(alloc, form, n, head) {
        Ok(read) => block_of(alloc, form, head.encoding, read),
        Err(stop) => Err(stop),
    }
}

/// The block at the front of the bytes, and how many bytes it takes.
pub(crate) fn read_block(alloc: Global, form: Form, n: u32, bytes: &[u8]) -> Result<Found, Stop>
    requires { n ≤ 8192 }
    ensures form { IfOk result (λ f. f.block.form ≡ form) }
    ensures found { IfOk result (λ f. IsFound form n bytes.now f.block.cells f.len) }
    ensures only { (cs : List Cell) (front rest : List ℕ) → SpellsBlock form cs front → length cs ≡ n → bytes.now ≡ front ++ rest → MatchResult result (λ f. (f.block ≡ record { form = form; cells = cs }) × (f.len ≡ length front)) (λ e. e ≡ stops.Memory) }
    ensures stop { IfErr result (IsBlockStop form n bytes.now) }
{
    let head = match read_head(form, bytes) {
        Ok(head) => head,
        Err(stop) => return Err(stop),
    };
    match body(alloc, form, n, head) {
        Ok(block) => Ok(Found {
            block,
            len: 5 + head.len,
        }),
        Err(stop) => Err(stop),
    }
}

/// The block of n cells that the bytes begin with, and how many bytes it takes.
pub fn decode_block(alloc: Global, form: Form, n: u32, bytes: &[u8]) -> Result<Found, CodecNo>
    requires { n ≤ 8192 }
    ensures form { IfOk result (λ f. f.block.form ≡ form) }
    // What is read is spelled so.
    ensures found { IfOk result (λ f. IsFound form n bytes.now f.block.cells f.len) }
    // What is spelled so is read, unless memory runs out.
    ensures only { (cs : List Cell) (front rest : List ℕ) → SpellsBlock form cs front → length cs ≡ n → bytes.now ≡ front ++ rest → MatchResult result (λ f. (f.block ≡ record { form = form; cells = cs }) × (f.len ≡ length front)) (λ e. e ≡ CodecNo.Memory) }
    // Where the first fault is.
    ensures place { IfErr result (IsRefusal form n bytes.now) }
{
    match read_block(alloc, form, n, bytes) {
        Ok(found) => Ok(found),
        Err(Stop::Memory) => Err(CodecNo::Memory),
        Err(Stop::Fault { at }) => Err(CodecNo::Place { offset: at as u64 }),
    }
}
