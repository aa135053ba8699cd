//! The items of a block.

ghost use Rattle.std.specs.Prelude.{◌<◌};
ghost use Rattle.kt_plain.specs.Items.{count, IsItemAt};

use crate::numbers::Numbers;
use kt_bytes::Texts;

/// The items of a block: numbers, or byte lists.
#[derive(Drop)]
pub enum Items {
    Numbers(Numbers),
    Texts(Texts),
}

/// One item.
#[derive(Clone, Copy)]
pub enum Item<'a> {
    Number(i64),
    Bytes(&'a [u8]),
}

/// The item at a place, in constant time and with no copy.
pub fn get(block: &Items, i: u32) -> Item<'_>
    requires { i < count block.now }
    ensures { IsItemAt block.now i result }
{
    match block {
        Items::Numbers(numbers) => Item::Number(numbers.get(i as usize)),
        Items::Texts(texts) => Item::Bytes(texts.get(i as usize)),
    }
}
