//! Values in each encoding, of which a block of a column takes the shortest alone.
ghost use Rattle.std.specs.Prelude.{◌≡◌, length, sum_by, IfOk};

use kt_plain::{Items, NoMemory, NumberWidth, Numbers, Texts, Width};
use std::alloc::Global;

#[test]
fn plain_numbers(rt: HostRuntime) {
    let numbers = Numbers::of(rt.alloc(), &[1, -1], NumberWidth::Four).expect(&rt, "memory");
    let width = Width::Numbers(NumberWidth::Four);
    let items = Items::Numbers(numbers);
    let bytes = kt_plain::encode(rt.alloc(), &items, width).expect(&rt, "memory");
    assert!(rt; bytes.as_slice() == [1, 0, 0, 0, 255, 255, 255, 255].as_slice());
}

#[test]
fn runs_of_numbers(rt: HostRuntime) {
    let numbers = Numbers::of(rt.alloc(), &[5, 5, 7], NumberWidth::One).expect(&rt, "memory");
    let items = kt_rle::Items::of(rt.alloc(), &numbers).expect(&rt, "memory");
    let bytes = kt_rle::encode(rt.alloc(), &items, NumberWidth::One).expect(&rt, "memory");
    assert!(rt; bytes.as_slice() == [2, 0, 0, 0, 5, 1, 0, 0, 0, 7].as_slice());
}

/// The texts a, b and a.
fn three(alloc: Global) -> Result<Texts, NoMemory>
    ensures count { IfOk result (λ items. length items ≡ 3) }
    ensures bytes { IfOk result (λ items. sum_by length items ≡ 3) }
{
    let mut items = Texts::new(alloc);
    items.push(b"a")?;
    items.push(b"b")?;
    items.push(b"a")?;
    Ok(items)
}

#[test]
fn a_dictionary_of_texts(rt: HostRuntime) {
    let items = three(rt.alloc()).expect(&rt, "memory");
    let bytes = kt_dict::encode(rt.alloc(), &items, kt_dict::Width::Bytes).expect(&rt, "memory");
    let wanted = b"\x02\0\x01\0\0\0a\x01\0\0\0b\0\0\x01\0\0\0";
    assert!(rt; bytes.as_slice() == wanted.as_slice());
}
