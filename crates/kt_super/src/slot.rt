//! What the bytes of a slot tell.
ghost use Rattle.std.specs.Prelude.{◌≡◌, ◌+◌, ◌≤◌, ◌<◌, ◌^◌, length, min, nat_le, IfOk, IfSome};
ghost use Rattle.kt_bytes.specs.Places.{AreBytes};
ghost use Rattle.kt_super.specs.Body.{IsMeta, body_at};
ghost use Rattle.kt_super.specs.Slots.{is_open, settled, IsHead};
ghost use Rattle.kt_super.specs.Told.{Tells};

use crate::Meta;
use crate::body::body_of;
use kt_bytes::Stop;
use std::alloc::Global;

/// Why a slot tells no superblock.
#[derive(Clone, Copy)]
pub enum SlotNo {
    Memory,
    At(u64),
}

/// How a slot begins.
#[derive(Clone, Copy)]
pub enum Head {
    /// Its gate is closed.
    Closed,
    /// Its gate is open, and bytes of the length are missing.
    Short,
    /// Its gate is open, and its body has so many bytes.
    Body(u32),
}

fn is_open(bytes: &[u8]) -> bool
    ensures { result ≡ is_open bytes.now }
{
    matches!(bytes, [1, _, ..])
}

/// How a slot begins whose first bytes these are, five or all.
pub fn head_of(front: &[u8]) -> Head
    requires { length front.now ≤ 5 }
    ensures { IsHead front.now result }
{
    if !is_open(front) {
        return Head::Closed;
    }
    if front.len() < 5 {
        return Head::Short;
    }
    Head::Body(u32::from_le_bytes([front[1], front[2], front[3], front[4]]))
}

/// What a body tells that should have `len` bytes, where `left` bytes stand behind the length. The first of these are
/// `body`, as many as it should have or all.
pub fn body_told(
    alloc: Global,
    slot: u64,
    len: u64,
    left: u64,
    body: &[u8],
) -> Result<Option<Meta>, SlotNo>
    requires there { length body.now ≡ min len left }
    requires room { left + 5 < 2 ^ 64 }
    ensures told { Tells result (settled (nat_le len left) (5 + left) (length body.now) (body_at slot body.now)) }
    ensures rules { IfOk result (λ found. IfSome found IsMeta) }
    ensures bytes { AreBytes body.now }
{
    let there = len <= left;
    let misfit = if there { 1 } else { 5 + left };
    match body_of(alloc, slot, body) {
        Ok((meta, behind)) => {
            if there && behind.is_empty() {
                Ok(Some(meta))
            } else {
                drop(meta);
                Err(SlotNo::At(misfit))
            }
        }
        Err(Stop::Memory) => Err(SlotNo::Memory),
        Err(Stop::Left(0)) => Err(SlotNo::At(misfit)),
        Err(Stop::Left(left)) => Err(SlotNo::At(5 + body.len().saturating_sub(left) as u64)),
    }
}
