//! From a list to its block.

ghost use Rattle.std.specs.Prelude.{◌≡◌, ◌<◌, ◌^◌, ◌++◌, length, sum_by, OnOk, IfOk, IfErr};
ghost use Rattle.kt_front.specs.Spelling.{base, cell, spelling, Fits};

use crate::prefix::{base_of, common_prefix};
use crate::width::Width;
use kt_bytes::{CodecNo, Octets, Texts};
use std::alloc::{AllocError, Global};

#[tactic(auto, unfolding(crate::specs::Spelling::cell, crate::specs::Spelling::number))]
fn put_cell(out: &mut Vec<u8>, with: &[u8], item: &[u8]) -> Result<(), AllocError>
    requires { length item.now < 2 ^ 32 }
    ensures { OnOk result (out.new.items ≡ out.old.items ++ cell with.now item.now) }
{
    let shared = common_prefix(with, item);
    let rest = &item[shared..];
    out.extend_from_slice(&(shared as u32).to_le_bytes())?;
    out.extend_from_slice(&(rest.len() as u32).to_le_bytes())?;
    out.extend_from_slice(rest)
}

/// How many bytes cell `i` takes, behind this item.
#[tactic(auto, using(crate::proofs::Fields::len_of_cell))]
pub fn cell_len(i: usize, before: &[u8], item: &[u8]) -> usize
    ensures { result ≡ length (cell (base i before.now) item.now) }
{
    8 + (item.len() - common_prefix(base_of(i, before), item))
}

/// The one spelling of the list.
pub fn encode(alloc: Global, cells: &Texts, width: Width) -> Result<Octets, CodecNo>
    requires { sum_by length cells.now < 2 ^ 32 }
    ensures ok { IfOk result (λ bytes. (bytes ≡ spelling cells.now) × Fits cells.now) }
    ensures err { IfErr result (λ e. e ≡ CodecNo.Memory) }
{
    let Width::Bytes = width;
    let mut out = Vec::new(alloc);
    let mut before: &[u8] = &[];
    for i in 0..cells.len() {
        let item = cells.get(i);
        put_cell(&mut out, base_of(i, before), item)?;
        before = item;
    }
    Ok(Octets::of(out))
}
