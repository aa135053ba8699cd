//! From the bytes of a block's values to the values, as they are held.

ghost use Rattle.std.specs.Prelude.{◌≡◌, ◌≤◌, IfOk, IfErr};
ghost use Rattle.kt_plain.specs.declared.items.Items.{Items};
ghost use Rattle.kt_column.specs.Forms.{width, IsNumeric, MayUse};
ghost use Rattle.kt_column.specs.Reading.{Reads, ReadsValues, IsStop, HoldsOrMemory};

use crate::errors::Stop;
use crate::form::{Encoding, Form};
use crate::held::Values;
use crate::values::run_width;
use kt_plain::Width;
use std::alloc::Global;

/// The values that the bytes are, as plain values.
#[tactic(auto, using(crate::proofs::Readings::plain_read, crate::proofs::Readings::plain_spelled))]
fn read_plain(alloc: Global, form: Form, n: u32, bytes: &[u8]) -> Result<Values, Stop>
    requires { n ≤ 8192 }
    ensures found { IfOk result (ReadsValues form Encoding.Plain n bytes.now) }
    ensures only { (items : Items) → Reads form Encoding.Plain n bytes.now items → HoldsOrMemory result items }
    ensures stop { IfErr result (IsStop form Encoding.Plain n bytes.now) }
{
    match kt_plain::decode_within(alloc, bytes, n, form.width(), form.limit()) {
        Ok(items) => Ok(Values::Plain(items)),
        Err(kt_plain::CodecNo::Place { offset }) => Err(Stop::Fault {
            at: offset as usize,
        }),
        Err(kt_plain::CodecNo::Memory) => Err(Stop::Memory),
    }
}

/// The values that the bytes are, as runs.
#[tactic(auto, using(crate::proofs::Readings::runs_read))]
fn read_runs(alloc: Global, form: Form, n: u32, bytes: &[u8]) -> Result<Values, Stop>
    requires few { n ≤ 8192 }
    requires numeric { IsNumeric (width form) }
    ensures found { IfOk result (ReadsValues form Encoding.RunLength n bytes.now) }
    ensures only { (items : Items) → Reads form Encoding.RunLength n bytes.now items → HoldsOrMemory result items }
    ensures stop { IfErr result (IsStop form Encoding.RunLength n bytes.now) }
{
    match kt_rle::decode(alloc, bytes, n, run_width(form.width())) {
        Ok(runs) => Ok(Values::Runs(runs)),
        Err(kt_rle::CodecNo::Place { offset }) => Err(Stop::Fault {
            at: offset as usize,
        }),
        Err(kt_rle::CodecNo::Memory) => Err(Stop::Memory),
    }
}

/// The values that the bytes are, as a dictionary.
#[tactic(auto, using(crate::proofs::Readings::dictionary_read, crate::proofs::Readings::dictionary_spelled))]
fn read_dictionary(alloc: Global, form: Form, n: u32, bytes: &[u8]) -> Result<Values, Stop>
    requires few { n ≤ 8192 }
    requires bytes { width form ≡ Width.Bytes }
    ensures found { IfOk result (ReadsValues form Encoding.Dictionary n bytes.now) }
    ensures only { (items : Items) → Reads form Encoding.Dictionary n bytes.now items → HoldsOrMemory result items }
    ensures stop { IfErr result (IsStop form Encoding.Dictionary n bytes.now) }
{
    match kt_dict::decode_within(alloc, bytes, n, kt_dict::Width::Bytes, form.limit()) {
        Ok(items) => Ok(Values::Dictionary(items)),
        Err(kt_dict::CodecNo::Place { offset }) => Err(Stop::Fault {
            at: offset as usize,
        }),
        Err(_) => Err(Stop::Memory),
    }
}

/// The values that the bytes are, as what each shares with the one before and the rest.
#[tactic(auto, using(crate::proofs::Readings::prefix_read, crate::proofs::Readings::prefix_spelled))]
fn read_prefixes(alloc: Global, form: Form, n: u32, bytes: &[u8]) -> Result<Values, Stop>
    requires few { n ≤ 8192 }
    requires bytes { width form ≡ Width.Bytes }
    ensures found { IfOk result (ReadsValues form Encoding.Prefix n bytes.now) }
    ensures only { (items : Items) → Reads form Encoding.Prefix n bytes.now items → HoldsOrMemory result items }
    ensures stop { IfErr result (IsStop form Encoding.Prefix n bytes.now) }
{
    match kt_front::decode_within(alloc, bytes, n, kt_front::Width::Bytes, form.limit()) {
        Ok(items) => Ok(Values::Prefixes(items)),
        Err(kt_front::CodecNo::Place { offset }) => Err(Stop::Fault {
            at: offset as usize,
        }),
        Err(_) => Err(Stop::Memory),
    }
}

/// The n values that the bytes are in an encoding that the column may use.
pub(crate) fn read(
    alloc: Global,
    form: Form,
    encoding: Encoding,
    n: u32,
    bytes: &[u8],
) -> Result<Values, Stop>
    requires few { n ≤ 8192 }
    requires open { MayUse form encoding }
    ensures found { IfOk result (ReadsValues form encoding n bytes.now) }
    ensures only { (items : Items) → Reads form encoding n bytes.now items → HoldsOrMemory result items }
    ensures stop { IfErr result (IsStop form encoding n bytes.now) }
{
    match encoding {
        Encoding::Plain => read_plain(alloc, form, n, bytes),
        Encoding::RunLength => read_runs(alloc, form, n, bytes),
        Encoding::Dictionary => read_dictionary(alloc, form, n, bytes),
        Encoding::Prefix => read_prefixes(alloc, form, n, bytes),
    }
}
