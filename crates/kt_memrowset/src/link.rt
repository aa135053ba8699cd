//! Changes in places of the pool.
ghost use Rattle.std.specs.Prelude.{◌≡◌, ◌≤◌, length};
ghost use Rattle.kt_pool.specs.Contents.{bytes_at};
ghost use Rattle.kt_memrowset.specs.Links.{kind_of, head_of};

use byteorder::{ByteOrder, LittleEndian};
use kt_history::Kindly;
use kt_pool::{Place, Pool};

/// The cell of no change.
pub const NOTHING: u32 = u32::MAX;

/// The cells of the next change of its row and, in the first, of the row's last, the cell of the change that the store
/// took before it, its timestamp and its kind.
#[derive(Clone, Copy)]
pub struct Head {
    pub next: u32,
    pub last: u32,
    pub before: u32,
    pub ts: u64,
    pub kind: Kindly,
}

fn kind_in(byte: u8) -> Kindly
    ensures { result ≡ kind_of byte }
{
    match byte {
        1 => Kindly::Ins,
        2 => Kindly::Upd,
        _ => Kindly::Del,
    }
}

/// The first fields of a change that these bytes spell.
fn head_from(bytes: &[u8]) -> Head
    requires { 23 ≤ length bytes.now }
    ensures { result ≡ head_of bytes.now }
{
    Head {
        next: LittleEndian::read_u32(bytes),
        last: LittleEndian::read_u32(&bytes[4..]),
        before: LittleEndian::read_u32(&bytes[8..]),
        ts: LittleEndian::read_u64(&bytes[12..]),
        kind: kind_in(bytes[20]),
    }
}

// So many bytes each change has at least: its first fields, and the count of its cells. One cell of the pool has them.
const HEAD_READ: usize = 23;

/// The first fields of the change in this cell.
pub fn head_in(pool: &Pool, cell: u32) -> Head
    requires { 23 ≤ length (bytes_at pool.now cell) }
    ensures { result ≡ head_of (bytes_at pool.now cell) }
{
    head_from(pool.front(Place { cell }, HEAD_READ))
}
