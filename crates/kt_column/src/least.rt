//! Whether the encoding in which values are held is the shortest, told without a list of the values.

ghost use Rattle.std.specs.Prelude.{◌≡◌, ◌<◌, ◌≤◌, ◌+◌, ◌*◌, ◌^◌, ◌⊎◌, [], ℕ, List, length, get_or, sum_by, IfOk, OnOk};
ghost use Rattle.std.specs.Bool.{OnTrue, OnFalse};
ghost use Rattle.std.specs.List.{All, flat_map};
ghost use Rattle.kt_plain.specs.declared.items.Items.TheVariants.{Numbers, Texts};
ghost use Rattle.kt_dict.specs.Spelling as dictionary;
ghost use Rattle.kt_dict.specs.Writing.{text};
ghost use Rattle.kt_front.specs.Spelling as prefix;
ghost use Rattle.kt_column.specs.Forms.{MayUse};
ghost use Rattle.kt_column.specs.Values.{AreValues, IsShortest, MayStand};
ghost use Rattle.kt_column.specs.Held.{items_of, encoding_of};

use crate::form::{Encoding, Form};
use crate::held::Values;
use crate::lengths::shortest_encoding;
use crate::values::run_width;
use kt_base::{NoMemory, Octets};
use kt_dict::Entries;
use kt_plain::Items;
use std::alloc::Global;

/// Whether plain values are the shortest in an encoding.
fn are_items_shortest(
    alloc: Global,
    form: Form,
    items: &Items,
    encoding: Encoding,
) -> Result<bool, NoMemory>
    requires { AreValues form items.now }
    ensures yes { IfOk result (λ b. OnTrue b ((bytes : List ℕ) → MayStand form items.now encoding bytes → IsShortest form items.now encoding bytes)) }
    ensures no { IfOk result (λ b. OnFalse b ((bytes : List ℕ) → ¬ IsShortest form items.now encoding bytes)) }
{
    let chosen = tri!(shortest_encoding(alloc, form, items));
    Ok(chosen.code() == encoding.code())
}

/// Whether runs are shorter than the numbers one after another.
fn are_runs_shortest(form: Form, runs: &kt_rle::Items) -> bool
    requires values { AreValues form (Numbers runs.now) }
    requires open { MayUse form Encoding.RunLength }
    ensures yes { OnTrue result ((bytes : List ℕ) → MayStand form (Numbers runs.now) Encoding.RunLength bytes → IsShortest form (Numbers runs.now) Encoding.RunLength bytes) }
    ensures no { OnFalse result ((bytes : List ℕ) → ¬ IsShortest form (Numbers runs.now) Encoding.RunLength bytes) }
{
    let width = run_width(form.width());
    kt_rle::spelled_len(runs, width) < kt_rle::plain_len(runs, width)
}

/// Whether the items of a dictionary take fewer bytes than this as what each shares with the one
/// before and the rest.
fn are_prefixes_below(items: &kt_dict::Items, bound: usize) -> bool
    requires few { length items.now ≤ 8192 }
    requires small { sum_by length items.now < 2 ^ 32 }
    ensures yes { OnTrue result (length (prefix.spelling items.now) < bound) }
    ensures no { OnFalse result (bound ≤ length (prefix.spelling items.now)) }
{
    let mut len = 0;
    let mut before: &[u8] = &[];
    for i in 0..items.len() {
        let text = items.item(i);
        len += kt_front::cell_len(i, before, text);
        if len >= bound {
            return false;
        }
        before = text;
    }
    len < bound
}

/// Whether a dictionary is the shortest.
fn is_dictionary_shortest(form: Form, items: &kt_dict::Items) -> bool
    requires values { AreValues form (Texts items.now) }
    requires open { MayUse form Encoding.Dictionary }
    ensures yes { OnTrue result ((bytes : List ℕ) → MayStand form (Texts items.now) Encoding.Dictionary bytes → IsShortest form (Texts items.now) Encoding.Dictionary bytes) }
    ensures no { OnFalse result ((bytes : List ℕ) → ¬ IsShortest form (Texts items.now) Encoding.Dictionary bytes) }
{
    let len = items.spelled_len();
    len < 4 * items.len() + items.byte_len() && !are_prefixes_below(items, len)
}

/// How many bytes the items of a prefix block have together.
fn byte_len(items: &kt_front::Items) -> usize
    requires few { length items.now ≤ 8192 }
    requires short { All (λ t. length t ≤ 65536) items.now }
    ensures { result ≡ sum_by length items.now }
{
    let mut sum = 0;
    'items: for i in 0..items.len() {
        sum += items.item(i as u32).len();
    }
    sum
}

/// Uses an item of a prefix block, by way of a copy of it in the room.
fn use_item(
    alloc: Global,
    entries: &mut Entries,
    items: &kt_front::Items,
    i: usize,
    room: &mut Octets,
) -> Result<(), NoMemory>
    requires few { length items.now ≤ 8192 }
    requires within { i < length items.now }
    requires small { length (flat_map text entries.old) + (4 + length (get_or items.now i [])) < 2 ^ 64 }
    ensures { OnOk result (entries.new ≡ dictionary.with_entry entries.old (get_or items.now i [])) }
{
    tri!(items.item(i as u32).copy_into(room));
    entries.add(alloc, room.as_slice())
}

/// Whether so many cells have no dictionary of these entries and so many bytes at most.
fn are_over(entries: &Entries, cells: usize, most: usize) -> bool
    requires { 2 + length (flat_map text entries.now) + 2 * cells < 2 ^ 64 }
    ensures yes { OnTrue result ((4096 < length entries.now) ⊎ (most < 2 + length (flat_map text entries.now) + 2 * cells)) }
    ensures no { OnFalse result (length entries.now ≤ 4096) }
{
    entries.len() > 4096 || entries.spelled_len(cells) > most
}

/// Whether the items of a prefix block have a dictionary of so many bytes at most, which is made of the entries.
fn are_within(
    alloc: Global,
    items: &kt_front::Items,
    most: usize,
    entries: &mut Entries,
    room: &mut Octets,
) -> Result<bool, NoMemory>
    requires few { length items.now ≤ 8192 }
    requires short { All (λ t. length t ≤ 65536) items.now }
    requires none { entries.old ≡ [] }
    ensures yes { IfOk result (λ b. OnTrue b (dictionary.Fits items.now × (length (dictionary.spelling items.now) ≤ most))) }
    ensures no { IfOk result (λ b. OnFalse b (dictionary.Fits items.now → most < length (dictionary.spelling items.now))) }
{
    let n = items.len();
    'items: for i in 0..n {
        tri!(use_item(alloc, entries, items, i, room));
        if are_over(entries, n, most) {
            return Ok(false);
        }
    }
    Ok(entries.spelled_len(n) <= most)
}

/// Whether the items of a prefix block have a dictionary of so many bytes at most. It holds no more
/// than these and one item.
fn has_dictionary(alloc: Global, items: &kt_front::Items, most: usize) -> Result<bool, NoMemory>
    requires few { length items.now ≤ 8192 }
    requires short { All (λ t. length t ≤ 65536) items.now }
    ensures yes { IfOk result (λ b. OnTrue b (dictionary.Fits items.now × (length (dictionary.spelling items.now) ≤ most))) }
    ensures no { IfOk result (λ b. OnFalse b (dictionary.Fits items.now → most < length (dictionary.spelling items.now))) }
{
    let mut entries = Entries::new(alloc);
    let mut room = Octets::new(alloc);
    are_within(alloc, items, most, &mut entries, &mut room)
}

/// Whether prefixes are the shortest, which they are where no other encoding may be used.
fn are_prefixes_shortest(
    alloc: Global,
    form: Form,
    items: &kt_front::Items,
) -> Result<bool, NoMemory>
    requires values { AreValues form (Texts items.now) }
    requires open { MayUse form Encoding.Prefix }
    ensures yes { IfOk result (λ b. OnTrue b ((bytes : List ℕ) → MayStand form (Texts items.now) Encoding.Prefix bytes → IsShortest form (Texts items.now) Encoding.Prefix bytes)) }
    ensures no { IfOk result (λ b. OnFalse b ((bytes : List ℕ) → ¬ IsShortest form (Texts items.now) Encoding.Prefix bytes)) }
{
    if !form.may_use(Encoding::Plain) {
        return Ok(true);
    }
    let len = items.as_bytes().len();
    if 4 * items.len() + byte_len(items) <= len {
        return Ok(false);
    }
    Ok(!tri!(has_dictionary(alloc, items, len)))
}

/// Whether values are held in the shortest encoding that the column may use, the lowest number among
/// equals.
pub fn is_shortest(alloc: Global, form: Form, values: &Values) -> Result<bool, NoMemory>
    requires values { AreValues form (items_of values.now) }
    requires open { MayUse form (encoding_of values.now) }
    ensures yes { IfOk result (λ b. OnTrue b ((bytes : List ℕ) → MayStand form (items_of values.now) (encoding_of values.now) bytes → IsShortest form (items_of values.now) (encoding_of values.now) bytes)) }
    ensures no { IfOk result (λ b. OnFalse b ((bytes : List ℕ) → ¬ IsShortest form (items_of values.now) (encoding_of values.now) bytes)) }
{
    match values {
        Values::Plain(items) => are_items_shortest(alloc, form, items, Encoding::Plain),
        Values::Runs(runs) => Ok(are_runs_shortest(form, runs)),
        Values::Dictionary(items) => Ok(is_dictionary_shortest(form, items)),
        Values::Prefixes(items) => are_prefixes_shortest(alloc, form, items),
    }
}
