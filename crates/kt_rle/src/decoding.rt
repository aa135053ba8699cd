//! Bytes as items.

ghost use Rattle.std.specs.Prelude.{◌≡◌, ◌<◌, ◌^◌, ℤ, List, IfOk};
ghost use Rattle.kt_bytes.specs.Reading.{IfPlace, IsOrMemory};
ghost use Rattle.kt_rle.specs.Spelling.{Spells, IsTold};
ghost use Rattle.kt_rle.specs.Reading.{AreRead};

use crate::items::Items;
use crate::reading::{fault_in, from_run, may_follow, run_at};
use crate::runs::Held;
use kt_bytes::CodecNo;
use kt_plain::NumberWidth as Width;
use std::alloc::Global;

/// The n items that the bytes spell, all of the bytes. They are held in at most four times as many.
pub fn decode(alloc: Global, bytes: &[u8], n: u32, width: Width) -> Result<Items, CodecNo>
    // What is read is spelled so.
    ensures found { IfOk result (λ items. Spells width n items bytes.now) }
    // What is spelled so is read, unless memory runs out.
    ensures only { (items : List ℤ) → Spells width n items bytes.now → IsOrMemory result items }
    // No items have the spelling, and which fault is the first: a number alone that is wrong is told at the number.
    ensures place { IfPlace result (IsTold width n bytes.now) }
{
    match read(alloc, bytes, n as usize, width) {
        Ok(runs) => Ok(Items::held(runs)),
        Err(no) => Err(no),
    }
}

/// The runs that the bytes are, of n items together.
fn read(alloc: Global, bytes: &[u8], n: usize, width: Width) -> Result<Vec<Held>, CodecNo>
    requires { n < 2 ^ 32 }
    ensures read { IfOk result (λ v. AreRead width n bytes.now v.items) }
    ensures place { IfPlace result (IsTold width n bytes.now) }
{
    let step = 4 + width.field_len();
    let count = bytes.len() / step;
    let mut runs = Vec::with_capacity(alloc, count)?;
    let mut end = 0;
    let mut last = None;
    'runs: for i in 0..count {
        let run = run_at(from_run(bytes, i, width), width);
        if !may_follow(run, n - end, last, width) {
            return Err(CodecNo::Place {
                offset: (step * i + fault_in(run, n - end, width)) as u64,
            });
        }
        end += run.len as usize;
        last = Some(run.value);
        runs.push(Held {
            end,
            value: run.value,
        })?;
    }
    if end < n {
        return Err(CodecNo::Place {
            offset: bytes.len() as u64,
        });
    }
    if step * count < bytes.len() {
        return Err(CodecNo::Place {
            offset: (step * count) as u64,
        });
    }
    Ok(runs)
}
