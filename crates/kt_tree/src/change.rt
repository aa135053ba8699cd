//! Trees that are cut and joined.
ghost use Rattle.std.specs.Prelude.{◌≡◌, ◌≢◌, ◌<◌, ◌+◌, ℕ, Some, None, MatchOption, if◌then◌else◌};
ghost use Rattle.std.specs.Ordering.{is_lt};
ghost use Rattle.kt_pool.specs.Contents.{bytes_at};
ghost use Rattle.kt_tree.specs.Entries.{IsRising, value_of, put, order};
ghost use Rattle.kt_tree.specs.Shapes.{Shape, IsNode, IsTreeAt, head_of, HasTree, Rewrites, flat, key_cells, count, one_at, node_of, nothing};
ghost use Rattle.kt_tree.specs.Changes.{IsAbsent, Lacks, Splits, Becomes, alone, StandsBy, Clears};
ghost use Rattle.kt_tree.specs.Spots.{below, Leads};
ghost use Rattle.kt_tree.specs.Ways.{IsSeatAt};

use crate::node::{Head, NOTHING, Node, node_in, order, write};
use crate::seat::Seat;
use kt_pool::{Place, Pool};
use std::cmp::Ordering;

/// Where two trees begin.
#[derive(Clone, Copy)]
pub struct Halves {
    pub low: u32,
    pub high: u32,
}

/// Where a node is hung: above the tree at a cell, which is to one side of another node, or is the whole tree.
#[derive(Clone, Copy)]
pub struct Spot {
    pub cell: u32,
    /// The cell of that other node, or that of no node.
    pub above: u32,
    pub node: Node,
    /// Whether the tree is to the right of it.
    pub right: bool,
}

/// How high in the tree a node stands: a mix of the number of its cell.
fn rank(cell: u32) -> u32 {
    let a = (cell ^ (cell >> 16)).wrapping_mul(0x7feb_352d);
    let b = (a ^ (a >> 15)).wrapping_mul(0x846c_a68b);
    b ^ (b >> 16)
}

/// Cuts a tree at a key that it does not have, told how that begins.
pub fn split(pool: &mut Pool, root: u32, key: &[u8], head: Head) -> Halves
    requires lacks { (s : Shape) × Lacks pool.old root key.now s }
    requires sought { head ≡ head_of key.now }
    ensures { (s : Shape) → Lacks pool.old root key.now s → Splits pool.old pool.new s key.now result.low result.high }
{
    if root == NOTHING {
        return Halves {
            low: NOTHING,
            high: NOTHING,
        };
    }
    let mut node = node_in(pool, root);
    if order(pool, &node, key, head).is_lt() {
        let halves = split(pool, node.right, key, head);
        node.right = halves.low;
        write(pool, root, node);
        Halves {
            low: root,
            high: halves.high,
        }
    } else {
        let halves = split(pool, node.left, key, head);
        node.left = halves.high;
        write(pool, root, node);
        Halves {
            low: halves.low,
            high: root,
        }
    }
}

/// The node in this cell has this tree to its left from now on. It is written only where it had another.
fn set_left(pool: &mut Pool, cell: u32, node: Node, left: u32)
    requires { IsNode pool.old cell node }
    ensures node { IsNode pool.new cell (record node { left = left }) }
    ensures others { Rewrites pool.old pool.new (one_at cell) }
{
    if node.left != left {
        write(pool, cell, Node { left, ..node });
    }
}

/// The node in this cell has this tree to its right from now on. It is written only where it had another.
fn set_right(pool: &mut Pool, cell: u32, node: Node, right: u32)
    requires { IsNode pool.old cell node }
    ensures node { IsNode pool.new cell (record node { right = right }) }
    ensures others { Rewrites pool.old pool.new (one_at cell) }
{
    if node.right != right {
        write(pool, cell, Node { right, ..node });
    }
}

// The spot above a whole tree.
fn whole(root: u32) -> Spot
    ensures cell { result.cell ≡ root }
    ensures above { result.above ≡ nothing }
{
    let head = Head { high: 0, low: 0 };
    let node = Node {
        left: NOTHING,
        right: NOTHING,
        key: NOTHING,
        value: NOTHING,
        head,
    };
    Spot {
        cell: root,
        above: NOTHING,
        node,
        right: false,
    }
}

// One step down the way of a key, from a node.
fn step(pool: &Pool, cell: u32, key: &[u8], head: Head) -> Spot
    requires there { cell ≢ nothing }
    requires lacks { (s : Shape) × Lacks pool.now cell key.now s }
    requires sought { head ≡ head_of key.now }
    ensures above { result.above ≡ cell }
    ensures node { result.node ≡ node_of (bytes_at pool.now cell) }
    ensures right { result.right ≡ is_lt (order (bytes_at pool.now result.node.key) key.now) }
    ensures below { result.cell ≡ below pool.now key.now cell }
{
    let node = node_in(pool, cell);
    let right = order(pool, &node, key, head).is_lt();
    if right {
        return Spot {
            cell: node.right,
            above: cell,
            node,
            right,
        };
    }
    Spot {
        cell: node.left,
        above: cell,
        node,
        right,
    }
}

// Where a node is hung: down the way of its key, above the first tree whose root is lower than the node.
fn spot_of(pool: &Pool, root: u32, fresh: u32, key: &[u8], head: Head) -> Spot
    requires lacks { (s : Shape) × Lacks pool.now root key.now s }
    requires sought { head ≡ head_of key.now }
    ensures { Leads pool.now key.now root result.above result.cell result.node result.right }
{
    let high = rank(fresh);
    let mut spot = whole(root);
    'down: while spot.cell != NOTHING {
        if rank(spot.cell) < high {
            return spot;
        }
        spot = step(pool, spot.cell, key, head);
    }
    spot
}

// The same spot, found up the way from its end: below the first node that is no lower than the one that is hung.
fn spot_on(pool: &Pool, root: u32, fresh: u32, key: &[u8], seat: &Seat) -> Spot
    requires lacks { (s : Shape) × Lacks pool.now root key.now s }
    requires seat { (s : Shape) → IsTreeAt pool.now root s → IsSeatAt s key.now seat.now }
    ensures { Leads pool.now key.now root result.above result.cell result.node result.right }
{
    let high = rank(fresh);
    let mut steps = seat.way.steps;
    'up: while steps > 0 {
        let Some(cell) = seat.way.node(steps - 1) else {
            return spot_of(pool, root, fresh, key, seat.head);
        };
        if rank(cell) >= high {
            return step(pool, cell, key, seat.head);
        }
        steps -= 1;
    }
    whole(root)
}

// Hangs a node that stands alone above a tree without its key, told how that begins.
fn crown(pool: &mut Pool, cell: u32, fresh: u32, key: &[u8], head: Head)
    requires sought { head ≡ head_of key.now }
    requires beside { (s : Shape) × (place : ℕ) × (value : ℕ) × StandsBy pool.old cell fresh key.now s place value }
    ensures { (s : Shape) (place value : ℕ) → StandsBy pool.old cell fresh key.now s place value → Becomes pool.old pool.new fresh (put key.now value (flat s)) (put key.now place (key_cells s)) (λ k. count s k + count (alone fresh key.now place value) k) }
{
    if cell == NOTHING {
        return;
    }
    let mut top = node_in(pool, fresh);
    let halves = split(pool, cell, key, head);
    top.left = halves.low;
    top.right = halves.high;
    write(pool, fresh, top);
}

// The node above a spot has this tree there from now on.
fn link(pool: &mut Pool, spot: Spot, fresh: u32)
    requires { IsNode pool.old spot.above spot.node }
    ensures node { IsNode pool.new spot.above (if spot.right then record spot.node { right = fresh } else record spot.node { left = fresh }) }
    ensures others { Rewrites pool.old pool.new (one_at spot.above) }
{
    let right = spot.right;
    if right {
        set_right(pool, spot.above, spot.node, fresh);
        return;
    }
    set_left(pool, spot.above, spot.node, fresh);
}

/// Hangs a node that stands alone into a tree without its key, at the seat of that, and says where the tree begins now.
pub fn hang(pool: &mut Pool, root: u32, fresh: u32, key: &[u8], seat: &Seat) -> u32
    requires seat { (s : Shape) → IsTreeAt pool.old root s → IsSeatAt s key.now seat.now }
    requires beside { (s : Shape) × (place : ℕ) × (value : ℕ) × StandsBy pool.old root fresh key.now s place value }
    ensures { (s : Shape) (place value : ℕ) → StandsBy pool.old root fresh key.now s place value → Becomes pool.old pool.new result (put key.now value (flat s)) (put key.now place (key_cells s)) (λ k. count s k + count (alone fresh key.now place value) k) }
{
    let spot = spot_on(pool, root, fresh, key, seat);
    crown(pool, spot.cell, fresh, key, seat.head);
    let above = spot.above;
    if above == NOTHING {
        return fresh;
    }
    link(pool, spot, fresh);
    root
}

/// Writes another value at a key, told how that begins, and says which was there, if the tree has the key.
pub fn overwrite(pool: &mut Pool, root: u32, key: &[u8], head: Head, value: u32) -> Option<u32>
    requires there { HasTree pool.old root }
    requires sought { head ≡ head_of key.now }
    ensures { (s : Shape) → IsTreeAt pool.old root s → IsRising (flat s) → MatchOption result (IsAbsent key.now (flat s) × (pool.new ≡ pool.old)) (λ old. (value_of key.now (flat s) ≡ Some old) × Becomes pool.old pool.new root (put key.now value (flat s)) (key_cells s) (count s)) }
{
    if root == NOTHING {
        return None;
    }
    let mut node = node_in(pool, root);
    match order(pool, &node, key, head) {
        Ordering::Less => overwrite(pool, node.right, key, head, value),
        Ordering::Greater => overwrite(pool, node.left, key, head, value),
        Ordering::Equal => {
            let old = node.value;
            node.value = value;
            write(pool, root, node);
            Some(old)
        }
    }
}

/// Gives back the cells of a tree's nodes and keys.
pub fn give_back(pool: &mut Pool, root: u32)
    requires { HasTree pool.old root }
    ensures { (s : Shape) → IsTreeAt pool.old root s → Clears pool.old pool.new s }
{
    if root == NOTHING {
        return;
    }
    let node = node_in(pool, root);
    give_back(pool, node.left);
    give_back(pool, node.right);
    pool.give_back(Place { cell: node.key });
    pool.give_back(Place { cell: root });
}
