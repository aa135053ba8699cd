//! The operations of a write, held as the bytes that spell them, so that they are copied, logged and placed as they lie.
ghost use Rattle.std.specs.Prelude.{◌≡◌, ◌==◌, ◌<◌, ◌≤◌, ◌+◌, ◌^◌, ◌∷◌, ◌++◌, [], length, get_or, slice_get, IfOk, OnOk, OnErr};
ghost use Rattle.std.specs.List.{between, flat_map};
ghost use Rattle.std.specs.Int.{w16, to_le_bytes};
ghost use Rattle.kt_cells.specs.Spelling.{cell_list};
ghost use Rattle.kt_cells.specs.Reading.{cells_behind};
ghost use Rattle.kt_cells.specs.Spelled.{SpellsCells};
ghost use Rattle.kt_cells.specs.Borrowed.{cells_in_ref};
ghost use Rattle.kt_history.specs.Operations.{op_len};
ghost use Rattle.kt_history.specs.Spelled.{kind as number_of_kind, kind_of, op_in, operation, OpFits, SpellsOp};

use crate::OpKind;
use crate::shared_texts::SharedTexts;
use kt_base::NoMemory;
use kt_bytes::Texts;
use kt_cells::CellsRef;
use std::alloc::Global;
use std::marker::Model;

/// An operation that is read where it lies. Contracts see it as a `RowOp`.
#[derive(Drop)]
pub struct OpRef<'v> {
    kind: OpKind,
    key: &'v [u8],
    cells: &'v [u8],
}

impl<'v> Model for OpRef<'v> {
    ghost use Rattle.std.specs.Prelude.{◌<◌, ◌^◌, length};
    ghost use Rattle.kt_cells.specs.Reading.{cells_behind};
    ghost use Rattle.kt_cells.specs.Spelled.{SpellsCells};
    ghost use Rattle.kt_history.specs.declared.operation.RowOp.{RowOp};

    ghost Value = { RowOp };

    ghost view = { λ o. record { kind = o.kind; key = o.key.now; cells = cells_behind o.cells.now } };

    ghost invariant = { λ o. (length o.key.now < 2 ^ 16) × SpellsCells o.cells.now };
}

impl<'v> OpRef<'v> {
    /// An operation of a kind on a key, whose cells these bytes spell behind their count.
    pub fn of(kind: OpKind, key: &'v [u8], cells: &'v [u8]) -> OpRef<'v>
        requires key { length key.now < 2 ^ 16 }
        requires cells { SpellsCells cells.now }
        ensures { result ≡ record { kind = kind; key = key.now; cells = cells_behind cells.now } }
    {
        OpRef { kind, key, cells }
    }

    pub fn kind(&self) -> OpKind
        ensures { result ≡ self.now.kind }
    {
        self.kind
    }

    pub fn key(&self) -> &'v [u8]
        ensures { result.now ≡ self.now.key }
    {
        self.key
    }

    pub fn cells(&self) -> CellsRef<'v>
        ensures { cells_in_ref result ≡ self.now.cells }
    {
        CellsRef::of(self.cells)
    }

    /// The cells as they are spelled behind their count.
    pub fn spelled_cells(&self) -> &'v [u8]
        ensures fits { OpFits self.now }
        ensures is { result.now ≡ cell_list self.now.cells }
    {
        self.cells
    }

    /// How many bytes the operation takes in the log.
    pub fn len(&self) -> usize
        ensures { result ≡ op_len self.now }
    {
        3 + self.key.len() + self.cells.len()
    }
}

fn number_of_kind(kind: OpKind) -> u8
    ensures { result ≡ number_of_kind kind }
{
    match kind {
        OpKind::Insert => 1,
        OpKind::Upsert => 2,
        OpKind::Update => 3,
        OpKind::Delete => 4,
        OpKind::InsertIgnore => 5,
        OpKind::UpdateIgnore => 6,
        OpKind::DeleteIgnore => 7,
    }
}

fn kind_of(number: u8) -> OpKind
    ensures { result ≡ kind_of number }
{
    match number {
        1 => OpKind::Insert,
        2 => OpKind::Upsert,
        3 => OpKind::Update,
        4 => OpKind::Delete,
        5 => OpKind::InsertIgnore,
        6 => OpKind::UpdateIgnore,
        _ => OpKind::DeleteIgnore,
    }
}

// What stands in front of a key: the operation's kind, and the key's length.
fn front_of(kind: OpKind, len: u16) -> [u8; 3]
    ensures { result ≡ number_of_kind kind ∷ to_le_bytes w16 len }
{
    let mut front = [number_of_kind(kind); 3];
    front[1..].copy_from_slice(&len.to_le_bytes());
    front
}

// The operation that some bytes spell.
fn op_of(bytes: &[u8]) -> OpRef<'_>
    requires { SpellsOp bytes.now }
    ensures { result ≡ op_in bytes.now }
{
    let [number, low, high, rest @ ..] = bytes else {
        unreachable!()
    };
    let (key, cells) = rest.split_at(usize::from(u16::from_le_bytes([*low, *high])));
    OpRef {
        kind: kind_of(*number),
        key,
        cells,
    }
}

/// The operations of a write, as the log spells them, one behind the other. Several lists may share the bytes. Contracts
/// see each as a list.
#[derive(Drop)]
pub struct OpList {
    texts: SharedTexts,
}

impl Model for OpList {
    ghost use Rattle.std.specs.Prelude.{List};
    ghost use Rattle.std.specs.List.{All};
    ghost use Rattle.kt_history.specs.declared.operation.RowOp.{RowOp};
    ghost use Rattle.kt_history.specs.Spelled.{ops_in, SpellsOp};

    ghost Value = { List RowOp };

    ghost view = { λ l. ops_in l.texts };

    ghost invariant = { λ l. All SpellsOp l.texts };
}

impl OpList {
    /// No operations.
    pub fn new(alloc: Global) -> OpList
        ensures { result ≡ [] }
    {
        OpList {
            texts: SharedTexts::of(Texts::new(alloc)),
        }
    }

    /// No operations, with room for so many, of so many bytes together.
    pub fn with_capacity(alloc: Global, ops: usize, bytes: usize) -> Result<OpList, NoMemory>
        ensures { IfOk result (λ list. list ≡ []) }
    {
        let bytes = Vec::with_capacity(alloc, bytes)?;
        let ends = Vec::with_capacity(alloc, ops)?;
        Ok(OpList {
            texts: SharedTexts::of(Texts::cut(bytes, ends)),
        })
    }

    pub fn len(&self) -> usize
        ensures { result ≡ length self.now }
    {
        self.texts.len()
    }

    pub fn is_empty(&self) -> bool
        ensures { result ≡ (length self.now == 0) }
    {
        self.texts.is_empty()
    }

    /// The operation at a place, if there is one.
    pub fn get(&self, at: usize) -> Option<OpRef<'_>>
        ensures { result ≡ slice_get self.now at }
    {
        if at >= self.texts.len() {
            return None;
        }
        Some(op_of(self.texts.get(at)))
    }

    /// The operation at a place.
    pub fn at(&self, at: usize) -> OpRef<'_>
        requires { at < length self.now }
        ensures { result ≡ get_or self.now at result }
    {
        op_of(self.texts.get(at))
    }

    /// The operations as the log spells them, one behind the other.
    pub fn as_bytes(&self) -> &[u8]
        ensures { result.now ≡ flat_map operation self.now }
    {
        self.texts.as_bytes()
    }

    /// Adds an operation. Without memory nothing is added. Where the bytes are shared, an own copy is taken first.
    pub fn push(&mut self, op: &OpRef<'_>) -> Result<(), NoMemory>
        ensures ok { OnOk result (self.new ≡ self.old ++ op.now ∷ []) }
        ensures err { OnErr result (self.new ≡ self.old) }
    {
        let front = front_of(op.kind, op.key.len() as u16);
        self.texts.push_parts(&[&front, op.key, op.cells])
    }

    /// Adds the operation that these bytes spell. Without memory nothing is added. Where the bytes of the list are shared, an
    /// own copy is taken first.
    pub fn push_spelled(&mut self, bytes: &[u8]) -> Result<(), NoMemory>
        requires { SpellsOp bytes.now }
        ensures ok { OnOk result (self.new ≡ self.old ++ op_in bytes.now ∷ []) }
        ensures err { OnErr result (self.new ≡ self.old) }
    {
        self.texts.push_parts(&[bytes])
    }

    /// No operations are left. Where nothing shared their bytes, the room of these stays.
    pub fn clear(&mut self, alloc: Global)
        ensures { self.new ≡ [] }
    {
        self.texts.clear(alloc);
    }

    /// The same list, of which a copy takes no memory.
    pub fn shared(self, alloc: Global) -> Result<OpList, NoMemory>
        ensures { IfOk result (λ list. list ≡ self) }
    {
        Ok(OpList {
            texts: self.texts.shared(alloc)?,
        })
    }

    /// Another owner of a shared list's bytes, which takes no memory, and else a copy, which takes no more than it needs.
    pub fn copy(&self) -> Result<OpList, NoMemory>
        ensures { IfOk result (λ copy. copy ≡ self.now) }
    {
        Ok(OpList {
            texts: self.texts.copy()?,
        })
    }

    /// So many of the operations, from a place on: another owner of a shared list's bytes, which takes no memory, and else
    /// a copy.
    pub fn part(&self, alloc: Global, first: usize, len: usize) -> Result<OpList, NoMemory>
        requires { first + len ≤ length self.now }
        ensures { IfOk result (λ part. part ≡ between first (first + len) self.now) }
    {
        Ok(OpList {
            texts: self.texts.part(alloc, first, len)?,
        })
    }
}
