//! The bytes of a batch.
ghost use Rattle.std.specs.Prelude.{◌≡◌, ◌+◌, ◌/◌, ◌%◌, ◌≤◌, ◌++◌, ◌<◌, [], ◌∷◌, map, length, slice_set, OnOk};
ghost use Rattle.std.specs.List.{flat_map, All};
ghost use Rattle.kt_records.specs.Spelling.{spelling};
ghost use Rattle.kt_journal.specs.Frames.{frame};
ghost use Rattle.kt_journal.specs.Order.{IsFramed};

use kt_base::{NoMemory, Octets};
use kt_cells::Tail;
use kt_records::{Entry, put_entry_behind};
use std::alloc::Global;
use std::mem;

// How many bytes a frame has where its record is of one operation, or of a few.
const FRAME_USUAL: usize = 64;

// Writes a length behind the gate at this place.
fn set_length(out: &mut Tail, gate: usize, len: u32)
    requires { gate + 5 ≤ length out.old.added }
    ensures front { out.new.front ≡ out.old.front }
    ensures added { out.new.added ≡ slice_set (slice_set (slice_set (slice_set out.old.added (gate + 1) (len % 256)) (gate + 2) (len / 256 % 256)) (gate + 3) (len / 65536 % 256)) (gate + 4) (len / 16777216 % 256) }
{
    prove!(gate < out.len());
    out.set(gate + 1, (len % 256) as u8);
    out.set(gate + 2, (len / 256 % 256) as u8);
    out.set(gate + 3, (len / 65_536 % 256) as u8);
    out.set(gate + 4, (len / 16_777_216 % 256) as u8);
}

// Adds a frame with its gate open.
fn put_frame(out: &mut Tail, entry: &Entry) -> Result<(), NoMemory>
    requires { IsFramed entry.now }
    ensures front { out.new.front ≡ out.old.front }
    ensures ok { OnOk result (out.new.added ≡ out.old.added ++ frame (spelling entry.now)) }
{
    let gate = out.len();
    put_entry_behind(out, 1, entry)?;
    let len = out.len() - gate - 5;
    set_length(out, gate, len as u32);
    Ok(())
}

// Adds the frames of these records.
fn put_frames(out: &mut Tail, records: &[Entry]) -> Result<(), NoMemory>
    requires { All IsFramed records.now }
    ensures front { out.new.front ≡ out.old.front }
    ensures ok { OnOk result (out.new.added ≡ out.old.added ++ flat_map frame (map spelling records.now)) }
{
    'records: for entry in records {
        put_frame(out, entry)?;
    }
    Ok(())
}

/// Writes the frames of these records, and a closed gate, over what a buffer held.
pub fn spell_batch(alloc: Global, out: &mut Octets, records: &[Entry]) -> Result<(), NoMemory>
    requires { All IsFramed records.now }
    ensures { OnOk result (out.new ≡ flat_map frame (map spelling records.now) ++ 0 ∷ []) }
{
    out.clear();
    out.reserve(records.len().saturating_mul(FRAME_USUAL))?;
    let mut tail = Tail::of(mem::replace(out, Octets::new(alloc)));
    put_frames(&mut tail, records)?;
    tail.push(0)?;
    *out = tail.whole();
    Ok(())
}
