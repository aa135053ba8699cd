//! A tree that is filled, emptied and filled again, with keys of all lengths.
ghost use Rattle.std.specs.Prelude.{◌≤◌, length};
ghost use Rattle.kt_tree.specs.Trees.{IsTree};

use kt_pool::{Place, Pool};
use kt_tree::Tree;
use std::process::Abort;
use std::test::Fail;

/// Puts keys in, each with its number in the place of its value's cell, and reads each back.
fn put_all(rt: &impl Abort, tree: &mut Tree, pool: &mut Pool, keys: &[&[u8]])
    requires { IsTree tree.old pool.old }
    ensures { IsTree tree.new pool.new }
{
    let mut cell: u32 = 0;
    for key in keys {
        cell = cell.saturating_add(1);
        put(rt, tree, pool, *key, cell);
    }
}

/// Puts a key in that is not there.
fn put(rt: &impl Abort, tree: &mut Tree, pool: &mut Pool, key: &[u8], cell: u32)
    requires { IsTree tree.old pool.old }
    ensures { IsTree tree.new pool.new }
{
    assert!(rt; key.len() <= 16384);
    assert!(rt; pool.reserved() >= 294);
    assert!(rt; tree.insert_reserved(pool, key, Place { cell }).is_none());
    assert_eq!(rt; tree.get(pool, key), Some(Place { cell }));
}

/// Whether the tree has just these keys, which rise.
fn has_keys(tree: &Tree, pool: &Pool, keys: &[&[u8]]) -> bool
    requires { IsTree tree.now pool.now }
{
    let mut last = None;
    for key in keys {
        match tree.after(pool, last) {
            Some(pair) if pool.compare(pair.key, *key).is_eq() => last = Some(*key),
            _ => return false,
        }
    }
    tree.after(pool, last).is_none()
}

/// A tree of these keys, which has them in their order and is emptied. Tells how many cells were free before.
fn goes_round(rt: &impl Abort, pool: &mut Pool, keys: &[&[u8]], rising: &[&[u8]]) -> u32 {
    let mut tree = Tree::new();
    put_all(rt, &mut tree, pool, keys);
    assert!(rt; has_keys(&tree, pool, rising));
    let free = pool.free();
    tree.empty_into(pool);
    free
}

const LONG: [u8; 16384] = [7; 16384];

#[test]
fn filled_and_filled_again(rt: HostRuntime) -> Result<(), Fail> {
    let mut pool = Pool::new(rt.alloc(), 1000)?;
    pool.reserve(1000)?;
    let rising: [&[u8]; 4] = [b"", &LONG, b"a", b"b"];
    let free = goes_round(&rt, &mut pool, &[b"b", b"", &LONG, b"a"], &rising);
    // A cell for each node, and those of the keys: 1, 1, 293 and 1.
    assert_eq!(rt; free, 1000 - 4 - 296);
    let free = goes_round(&rt, &mut pool, &rising[..3], &rising[..3]);
    assert_eq!(rt; (free, pool.free()), (1000 - 3 - 295, 1000));
    Ok(())
}
