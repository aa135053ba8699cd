//! Nodes in cells.
ghost use Rattle.std.specs.Prelude.{◌≡◌, ◌≢◌, ◌<◌, ◌≤◌, ℕ, length, slice_index, None};
ghost use Rattle.kt_pool.specs.Contents.{Stands, bytes_at, at_cell};
ghost use Rattle.kt_tree.specs.Shapes.{nothing, node_of, spelling, IsNode, Rewrites, one_at, head_of, AreBytes};
ghost use Rattle.kt_tree.specs.Entries.{order};
ghost use Rattle.kt_tree.specs.Takes.{Takes};

use byteorder::{BigEndian, ByteOrder, LittleEndian};
use kt_pool::{Place, Pool};
use std::cmp::Ordering;

/// The cell of no node.
pub const NOTHING: u32 = u32::MAX;

/// The first eight bytes of a key, the highest first. A shorter key goes on with zeros.
#[derive(Clone, Copy)]
pub struct Head {
    pub high: u32,
    pub low: u32,
}

/// The cells of the nodes to its left and right, where its key and its value are placed, and how its key begins.
#[derive(Clone, Copy)]
pub struct Node {
    pub left: u32,
    pub right: u32,
    pub key: u32,
    pub value: u32,
    pub head: Head,
}

/// The node that these bytes spell.
fn node_from(bytes: &[u8]) -> Node
    requires { length bytes.now ≡ 24 }
    ensures { result ≡ node_of bytes.now }
{
    Node {
        left: LittleEndian::read_u32(bytes),
        right: LittleEndian::read_u32(&bytes[4..]),
        key: LittleEndian::read_u32(&bytes[8..]),
        value: LittleEndian::read_u32(&bytes[12..]),
        head: Head {
            high: LittleEndian::read_u32(&bytes[16..]),
            low: LittleEndian::read_u32(&bytes[20..]),
        },
    }
}

/// The node in this cell.
pub fn node_in(pool: &Pool, cell: u32) -> Node
    requires { length (bytes_at pool.now cell) ≡ 24 }
    ensures { result ≡ node_of (bytes_at pool.now cell) }
{
    node_from(pool.front(Place { cell }, 24))
}

/// The bytes of a node.
fn spelled(left: u32, right: u32, key: u32, value: u32, high: u32, low: u32) -> [u8; 24]
    ensures bytes { result ≡ spelling (record { left = left; right = right; key = key; value = value; head = record { high = high; low = low } }) }
    ensures reads { node_of result ≡ record { left = left; right = right; key = key; value = value; head = record { high = high; low = low } } }
{
    let mut bytes = [0; 24];
    LittleEndian::write_u32_into(&[left, right, key, value, high, low], &mut bytes);
    bytes
}

/// Writes the node over the one in this cell.
pub fn write(pool: &mut Pool, cell: u32, node: Node)
    requires long { length (bytes_at pool.old cell) ≡ 24 }
    requires inside { cell < nothing }
    ensures node { IsNode pool.new cell node }
    ensures others { Rewrites pool.old pool.new (one_at cell) }
{
    pool.set(
        Place { cell },
        0,
        &spelled(
            node.left,
            node.right,
            node.key,
            node.value,
            node.head.high,
            node.head.low,
        ),
    );
}

/// Places a node with none to its sides in a reserved cell.
pub fn place(pool: &mut Pool, key: u32, value: u32, head: Head) -> u32
    requires { 1 ≤ pool.old.reserved }
    ensures vacant { at_cell pool.old result ≡ None }
    ensures inside { result < length pool.old.places }
    ensures others { (k : ℕ) → k ≢ result → at_cell pool.new k ≡ at_cell pool.old k }
    ensures takes { Takes pool.old pool.new 1 }
    ensures node { IsNode pool.new result (record { left = nothing; right = nothing; key = key; value = value; head = head }) }
{
    let cell = pool
        .place(&spelled(NOTHING, NOTHING, key, value, head.high, head.low))
        .cell;
    prove!(cell < pool.size());
    cell
}

/// The bytes of a short key, and zeros behind them.
fn padded(key: &[u8]) -> [u8; 8]
    requires { length key.now < 8 }
    ensures { (i : ℕ) → i < 8 → slice_index result i ≡ slice_index key.now i }
{
    let mut bytes = [0; 8];
    bytes[..key.len()].copy_from_slice(key);
    bytes
}

/// The first eight bytes.
fn first_eight(key: &[u8]) -> Head
    requires { 8 ≤ length key.now }
    ensures { result ≡ head_of key.now }
{
    Head {
        high: BigEndian::read_u32(key),
        low: BigEndian::read_u32(&key[4..]),
    }
}

/// How a key begins.
pub fn head_of(key: &[u8]) -> Head
    ensures { result ≡ head_of key.now }
{
    if key.len() < 8 {
        first_eight(&padded(key))
    } else {
        first_eight(key)
    }
}

/// The order of a node's key and another, told how that begins. The keys themselves are compared only where they begin alike.
#[inline(always)]
pub fn order(pool: &Pool, node: &Node, key: &[u8], head: Head) -> Ordering
    requires stands { Stands pool.now node.now.key }
    requires head { node.now.head ≡ head_of (bytes_at pool.now node.now.key) }
    requires bytes { AreBytes (bytes_at pool.now node.now.key) }
    requires sought { head ≡ head_of key.now }
    ensures { result ≡ order (bytes_at pool.now node.now.key) key.now }
{
    if node.head.high != head.high {
        return node.head.high.cmp(&head.high);
    }
    if node.head.low != head.low {
        return node.head.low.cmp(&head.low);
    }
    pool.compare(Place { cell: node.key }, key)
}
