//! The shortest encoding of a block's values, from how many bytes each would take.

ghost use Rattle.std.specs.Prelude.{◌≡◌, ◌<◌, ◌≤◌, ◌-◌, ◌^◌, ℕ, List, length, sum_by, IfOk, MatchOption};
ghost use Rattle.kt_column.specs.Forms.{width, code};
ghost use Rattle.kt_column.specs.Values.{AreValues, IsShortest, IsBestUpTo, IsShorter, MayStand, Takes};
ghost use Rattle.kt_dict.specs.Spelling as dictionary;
ghost use Rattle.kt_front.specs.Spelling as prefix;

use crate::form::{Encoding, Form};
use crate::values::run_width;
use kt_base::NoMemory;
use kt_plain::{Items, Texts};
use std::alloc::Global;

/// An encoding, and how many bytes the values take in it.
#[derive(Clone, Copy)]
pub struct Measured {
    pub encoding: Encoding,
    pub len: usize,
}

/// How many bytes the values take in a dictionary, or none where there are too many different ones.
fn dictionary_len(alloc: Global, texts: &Texts) -> Result<Option<usize>, NoMemory>
    requires few { length texts.now < 2 ^ 32 }
    requires small { sum_by length texts.now < 2 ^ 32 }
    ensures { IfOk result (λ len. MatchOption len (¬ dictionary.Fits texts.now) (λ n. dictionary.Fits texts.now × (n ≡ length (dictionary.spelling texts.now)))) }
{
    kt_dict::encoded_len(alloc, texts)
}

fn prefix_len(texts: &Texts) -> usize
    requires few { length texts.now ≤ 8192 }
    requires small { sum_by length texts.now < 2 ^ 32 }
    ensures { result ≡ length (prefix.spelling texts.now) }
{
    let mut len = 0;
    let mut before: &[u8] = &[];
    for i in 0..texts.len() {
        let text = texts.get(i);
        len += kt_front::cell_len(i, before, text);
        before = text;
    }
    len
}

/// How many bytes the values take in an encoding, or none where the column may not use it or they
/// have no such bytes.
fn encoded_len(
    alloc: Global,
    form: Form,
    encoding: Encoding,
    items: &Items,
) -> Result<Option<usize>, NoMemory>
    requires { AreValues form items.now }
    ensures { IfOk result (λ found. MatchOption found ((bytes : List ℕ) → ¬ MayStand form items.now encoding bytes) (Takes form items.now encoding)) }
{
    if !form.may_use(encoding) {
        return Ok(None);
    }
    match (encoding, items) {
        (Encoding::Plain, _) => Ok(Some(kt_plain::encoded_len(items, form.width()))),
        (Encoding::RunLength, Items::Numbers(numbers)) => {
            let width = run_width(form.width());
            Ok(Some(kt_rle::encoded_len(numbers, width)))
        }
        (Encoding::Dictionary, Items::Texts(texts)) => dictionary_len(alloc, texts),
        (Encoding::Prefix, Items::Texts(texts)) => Ok(Some(prefix_len(texts))),
        _ => Ok(None),
    }
}

/// The shorter one, and the first where they are as long.
fn shorter(best: Option<Measured>, other: Measured) -> Measured
    ensures { IsShorter best other result }
{
    match best {
        Some(best) if best.len <= other.len => best,
        _ => other,
    }
}

/// The best of the encodings up to this one, from the best of those before it.
fn try_next(
    alloc: Global,
    form: Form,
    items: &Items,
    best: Option<Measured>,
    encoding: Encoding,
) -> Result<Option<Measured>, NoMemory>
    requires values { AreValues form items.now }
    requires before { IsBestUpTo form items.now (code encoding - 1) best }
    ensures { IfOk result (IsBestUpTo form items.now (code encoding)) }
{
    match tri!(encoded_len(alloc, form, encoding, items)) {
        Some(len) => Ok(Some(shorter(best, Measured { encoding, len }))),
        None => Ok(best),
    }
}

/// The shortest encoding that the column may use, the lowest number among equals.
pub fn shortest_encoding(alloc: Global, form: Form, items: &Items) -> Result<Encoding, NoMemory>
    requires { AreValues form items.now }
    ensures { IfOk result (λ encoding. (bytes : List ℕ) × IsShortest form items.now encoding bytes) }
{
    let best = tri!(try_next(alloc, form, items, None, Encoding::Plain));
    let best = tri!(try_next(alloc, form, items, best, Encoding::RunLength));
    let best = tri!(try_next(alloc, form, items, best, Encoding::Dictionary));
    match tri!(try_next(alloc, form, items, best, Encoding::Prefix)) {
        Some(best) => Ok(best.encoding),
        None => unreachable!(),
    }
}
