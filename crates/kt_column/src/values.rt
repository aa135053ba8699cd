//! The values of a block in their shortest encoding.

ghost use Rattle.std.specs.Prelude.{◌≡◌, ◌<◌, ◌-◌, ◌^◌, ℕ, List, length, sum_by, IfOk, MatchOption};
ghost use Rattle.kt_column.specs.Forms.{width};
ghost use Rattle.kt_column.specs.Held.{items_of, IsChosen};
ghost use Rattle.kt_column.specs.Values.{AreValues, IsEncoded, IsShortest, MayStand, run_width};
ghost use Rattle.kt_rle.specs.Spelling as run_length;
ghost use Rattle.kt_dict.specs.Spelling as dictionary;
ghost use Rattle.kt_front.specs.Spelling as prefix;

use crate::form::{Encoding, Form};
use crate::held::Values;
use crate::lengths::shortest_encoding;
use kt_base::NoMemory;
use kt_plain::{Items, NumberWidth, Numbers, Texts, Width};
use std::alloc::Global;

/// The bytes of a block's values, and their encoding.
#[derive(Drop)]
pub struct Chosen {
    pub encoding: Encoding,
    pub bytes: Vec<u8>,
}

/// The width of numbers, as the run-length encoding has it.
pub(crate) fn run_width(width: Width) -> NumberWidth
    ensures { result ≡ run_width width }
{
    match width {
        Width::Numbers(width) => width,
        Width::Bytes => NumberWidth::Eight,
    }
}

fn plain(alloc: Global, form: Form, items: &Items) -> Result<Vec<u8>, NoMemory>
    requires { AreValues form items.now }
    ensures { IfOk result (λ bytes. IsEncoded (width form) Encoding.Plain items.now bytes.items) }
{
    match kt_plain::encode(alloc, items, form.width()) {
        Ok(octets) => Ok(octets.into_vec()),
        Err(_) => Err(NoMemory),
    }
}

/// The bytes of runs.
fn runs_spelled(alloc: Global, width: Width, runs: &kt_rle::Items) -> Result<Vec<u8>, NoMemory>
    requires { run_length.Fits (run_width width) runs.now }
    ensures { IfOk result (λ bytes. run_length.Spells (run_width width) (length runs.now) runs.now bytes.items) }
{
    match kt_rle::encode(alloc, runs, run_width(width)) {
        Ok(octets) => Ok(octets.into_vec()),
        Err(_) => Err(NoMemory),
    }
}

fn run_lengths(alloc: Global, width: Width, numbers: &Numbers) -> Result<Vec<u8>, NoMemory>
    requires { run_length.Fits (run_width width) numbers.now }
    ensures { IfOk result (λ bytes. run_length.Spells (run_width width) (length numbers.now) numbers.now bytes.items) }
{
    let runs = tri!(kt_rle::Items::of(alloc, numbers));
    runs_spelled(alloc, width, &runs)
}

/// The values in a dictionary, or none where there are too many different ones.
fn dictionary(alloc: Global, texts: &Texts) -> Result<Option<Vec<u8>>, NoMemory>
    requires few { length texts.now < 2 ^ 32 }
    requires small { sum_by length texts.now < 2 ^ 32 }
    ensures { IfOk result (λ bytes. MatchOption bytes (¬ dictionary.Fits texts.now) (λ b. dictionary.Fits texts.now × (b.items ≡ dictionary.spelling texts.now))) }
{
    match kt_dict::encode(alloc, texts, kt_dict::Width::Bytes) {
        Ok(octets) => Ok(Some(octets.into_vec())),
        Err(kt_dict::CodecNo::TooMany { .. }) => Ok(None),
        Err(_) => Err(NoMemory),
    }
}

fn prefixes(alloc: Global, texts: &Texts) -> Result<Vec<u8>, NoMemory>
    requires { sum_by length texts.now < 2 ^ 32 }
    ensures { IfOk result (λ bytes. prefix.Fits texts.now × (bytes.items ≡ prefix.spelling texts.now)) }
{
    match kt_front::encode(alloc, texts, kt_front::Width::Bytes) {
        Ok(octets) => Ok(octets.into_vec()),
        Err(_) => Err(NoMemory),
    }
}

/// The values in an encoding, or none where the column may not use it or they have no such bytes.
fn encoded(
    alloc: Global,
    form: Form,
    encoding: Encoding,
    items: &Items,
) -> Result<Option<Vec<u8>>, NoMemory>
    requires { AreValues form items.now }
    ensures { IfOk result (λ found. MatchOption found ((bytes : List ℕ) → ¬ MayStand form items.now encoding bytes) (λ b. MayStand form items.now encoding b.items)) }
{
    if !form.may_use(encoding) {
        return Ok(None);
    }
    match (encoding, items) {
        (Encoding::Plain, _) => Ok(Some(tri!(plain(alloc, form, items)))),
        (Encoding::RunLength, Items::Numbers(numbers)) => {
            Ok(Some(tri!(run_lengths(alloc, form.width(), numbers))))
        }
        (Encoding::Dictionary, Items::Texts(texts)) => dictionary(alloc, texts),
        (Encoding::Prefix, Items::Texts(texts)) => Ok(Some(tri!(prefixes(alloc, texts)))),
        _ => Ok(None),
    }
}

/// Plain values in the shortest encoding that the column may use, the lowest number among equals.
fn shortest(alloc: Global, form: Form, items: &Items) -> Result<Chosen, NoMemory>
    requires { AreValues form items.now }
    ensures { IfOk result (λ chosen. IsShortest form items.now chosen.encoding chosen.bytes.items) }
{
    let encoding = tri!(shortest_encoding(alloc, form, items));
    match tri!(encoded(alloc, form, encoding, items)) {
        Some(bytes) => Ok(Chosen { encoding, bytes }),
        None => unreachable!(),
    }
}

/// Values in the shortest encoding that the column may use. Those that are held in one are in it
/// already.
pub fn spell_values(alloc: Global, form: Form, values: &Values) -> Result<Chosen, NoMemory>
    requires values { AreValues form (items_of values.now) }
    requires chosen { IsChosen form values.now }
    ensures { IfOk result (λ chosen. IsShortest form (items_of values.now) chosen.encoding chosen.bytes.items) }
{
    match values {
        Values::Plain(items) => shortest(alloc, form, items),
        Values::Runs(runs) => Ok(Chosen {
            encoding: Encoding::RunLength,
            bytes: tri!(runs_spelled(alloc, form.width(), runs)),
        }),
        Values::Dictionary(items) => Ok(Chosen {
            encoding: Encoding::Dictionary,
            bytes: tri!(items.spell(alloc)).into_vec(),
        }),
        Values::Prefixes(items) => Ok(Chosen {
            encoding: Encoding::Prefix,
            bytes: Vec::from_slice(alloc, items.as_bytes())?,
        }),
    }
}
