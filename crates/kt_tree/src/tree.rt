//! The sorted map.
ghost use Rattle.std.specs.Prelude.{◌≡◌, ◌≤◌, ◌+◌, ◌⊎◌, ℕ, List, [], length, IfSome, None, Some, is_some, MatchOption, if◌then◌else◌};
ghost use Rattle.std.specs.Option.{option_map, option_copied};
ghost use Rattle.std.specs.List.{sum_by};
ghost use Rattle.kt_pool.specs.Contents.{Contents, Stands, at_cell, bytes_at, used};
ghost use Rattle.kt_tree.specs.Entries.{Entry, value_of, is_past, next, put};
ghost use Rattle.kt_tree.specs.Shapes.{head_of, AreBytes};
ghost use Rattle.kt_tree.specs.InOrder.{IsWalk, to_come};
ghost use Rattle.kt_tree.specs.Takes.{Takes};
ghost use Rattle.kt_tree.specs.Trees.{IsTree, IsPairOf, IsNewlyPlaced, IsSeat, entries, place_of, Owns, need, place_at};

use crate::change::{give_back, hang, overwrite};
use crate::node::{Head, NOTHING, Node, head_of, node_in, order, place};
use crate::seat::{Seat, Way};
use crate::walk::Walk;
use kt_pool::{Place, Pool};
use std::alloc::Global;
use std::cmp::Ordering;

/// A key's place, and that of its value.
#[derive(Clone, Copy, PartialEq, Eq)]
pub struct Pair {
    pub key: Place,
    pub value: Place,
}

// How a key begins, if there is one.
fn head_if(key: Option<&[u8]>) -> Head
    ensures { IfSome (option_copied key.entry) (λ key. result ≡ head_of key) }
{
    match key {
        Some(key) => head_of(key),
        None => Head { high: 0, low: 0 },
    }
}

/// Whether a node's key is above this one, if there is one, told how this one begins.
fn is_past(pool: &Pool, node: &Node, key: Option<&[u8]>, head: Head) -> bool
    requires stands { Stands pool.now node.now.key }
    requires head { node.now.head ≡ head_of (bytes_at pool.now node.now.key) }
    requires bytes { AreBytes (bytes_at pool.now node.now.key) }
    requires sought { IfSome (option_copied key) (λ key. head ≡ head_of key) }
    ensures { result ≡ is_past (option_copied key.entry) (bytes_at pool.now node.now.key) }
{
    match key {
        Some(key) => order(pool, node, key, head).is_gt(),
        None => true,
    }
}

/// A sorted map in a pool's cells. It gives them back by `empty_into` only.
#[derive(Drop)]
pub struct Tree {
    root: u32,
    count: u32,
}

impl Tree {
    /// A tree with no key. It takes no cell.
    pub fn new() -> Tree
        ensures tree { (pool : Contents) → IsTree result pool }
        ensures empty { (pool : Contents) → entries result pool ≡ [] }
        ensures bare { (pool : Contents) (k : ℕ) → ¬ Owns result pool k }
    {
        Tree {
            root: NOTHING,
            count: 0,
        }
    }

    /// How many keys there are.
    pub fn len(&self) -> u32
        ensures { (pool : Contents) → IsTree self.now pool → result ≡ length (entries self.now pool) }
    {
        self.count
    }

    /// Sets the place of a key's value, in reserved cells: one for the node and those of the key, of which none is taken
    /// where the key is there. Says where its value was.
    pub fn insert_reserved(&mut self, pool: &mut Pool, key: &[u8], value: Place) -> Option<Place>
        requires tree { IsTree self.old pool.old }
        requires reserved { need key.now ≤ pool.old.reserved }
        ensures tree { IsTree self.new pool.new }
        ensures put { entries self.new pool.new ≡ put key.now value.cell (entries self.old pool.old) }
        ensures old { result ≡ option_map place_at (value_of key.now (entries self.old pool.old)) }
        ensures takes { Takes pool.old pool.new (if is_some result then 0 else need key.now) }
        // Each key that was there keeps its place, and one that was not there has a new one.
        ensures stays { (k : List ℕ) (place : ℕ) → place_of k self.old pool.old ≡ Some place → place_of k self.new pool.new ≡ Some place }
        ensures placed { MatchOption result (IsNewlyPlaced pool.old (place_of key.now self.new pool.new)) (λ _. Unit {0}) }
        // Its new places are vacant before, and every other place keeps its bytes.
        ensures keeps { (k : ℕ) → Owns self.old pool.old k → Owns self.new pool.new k }
        ensures grows { (k : ℕ) → Owns self.new pool.new k → Owns self.old pool.old k ⊎ (at_cell pool.old k ≡ None) }
        ensures frame { (k : ℕ) → ¬ Owns self.new pool.new k → at_cell pool.new k ≡ at_cell pool.old k }
    {
        if let Some(old) = overwrite(pool, self.root, key, head_of(key), value.cell) {
            return Some(Place { cell: old });
        }
        let seat = self.seek(pool, key);
        self.insert_at(pool, &seat, key, value);
        None
    }

    /// Sets the place of a key's value at the seat of the key, which is not there, in reserved cells: one for the node and
    /// those of the key.
    pub fn insert_at(&mut self, pool: &mut Pool, seat: &Seat, key: &[u8], value: Place)
        requires tree { IsTree self.old pool.old }
        requires seat { IsSeat self.old pool.old key.now seat.now }
        requires absent { value_of key.now (entries self.old pool.old) ≡ None }
        requires reserved { need key.now ≤ pool.old.reserved }
        ensures tree { IsTree self.new pool.new }
        ensures put { entries self.new pool.new ≡ put key.now value.cell (entries self.old pool.old) }
        ensures takes { Takes pool.old pool.new (need key.now) }
        // Each key that was there keeps its place, and this one has a new one.
        ensures stays { (k : List ℕ) (place : ℕ) → place_of k self.old pool.old ≡ Some place → place_of k self.new pool.new ≡ Some place }
        ensures placed { IsNewlyPlaced pool.old (place_of key.now self.new pool.new) }
        // Its new places are vacant before, and every other place keeps its bytes.
        ensures keeps { (k : ℕ) → Owns self.old pool.old k → Owns self.new pool.new k }
        ensures grows { (k : ℕ) → Owns self.new pool.new k → Owns self.old pool.old k ⊎ (at_cell pool.old k ≡ None) }
        ensures frame { (k : ℕ) → ¬ Owns self.new pool.new k → at_cell pool.new k ≡ at_cell pool.old k }
    {
        let at = pool.place(key);
        let fresh = place(pool, at.cell, value.cell, seat.head);
        self.root = hang(pool, self.root, fresh, key, seat);
        prove!(self.count < pool.size());
        self.count += 1;
    }

    /// Where the value of this key is placed, if it is there.
    pub fn get(&self, pool: &Pool, key: &[u8]) -> Option<Place>
        requires { IsTree self.now pool.now }
        ensures { result ≡ option_map place_at (value_of key.now (entries self.now pool.now)) }
    {
        let head = head_of(key);
        let mut cell = self.root;
        while cell != NOTHING {
            let node = node_in(pool, cell);
            match order(pool, &node, key, head) {
                Ordering::Less => cell = node.right,
                Ordering::Greater => cell = node.left,
                Ordering::Equal => return Some(Place { cell: node.value }),
            }
        }
        None
    }

    /// Where the value of this key is placed, if it is there, and where the key belongs.
    pub fn seek(&self, pool: &Pool, key: &[u8]) -> Seat
        requires { IsTree self.now pool.now }
        ensures value { result.value ≡ option_map place_at (value_of key.now (entries self.now pool.now)) }
        ensures seat { IsSeat self.now pool.now key.now result }
    {
        let head = head_of(key);
        let mut way = Way::new();
        let mut cell = self.root;
        while cell != NOTHING {
            let node = node_in(pool, cell);
            prove!(way.steps < pool.size());
            way.note(cell);
            match order(pool, &node, key, head) {
                Ordering::Less => cell = node.right,
                Ordering::Greater => cell = node.left,
                Ordering::Equal => {
                    let value = Some(Place { cell: node.value });
                    return Seat { value, head, way };
                }
            }
        }
        Seat {
            value: None,
            head,
            way,
        }
    }

    /// The least key above this one, or the least of all, and its value.
    pub fn after(&self, pool: &Pool, key: Option<&[u8]>) -> Option<Pair>
        requires { IsTree self.now pool.now }
        ensures pair { IsPairOf self.now pool.now result (next (option_copied key.entry) (entries self.now pool.now)) }
        ensures stands { IfSome result (λ pair. Stands pool.now pair.key.cell) }
    {
        let head = head_if(key);
        let mut best = None;
        let mut cell = self.root;
        while cell != NOTHING {
            let node = node_in(pool, cell);
            if is_past(pool, &node, key, head) {
                best = Some(Pair {
                    key: Place { cell: node.key },
                    value: Place { cell: node.value },
                });
                cell = node.left;
            } else {
                cell = node.right;
            }
        }
        best
    }

    /// A walk through the entries in the order of their keys.
    pub fn walk(&self, alloc: Global) -> Walk
        ensures walk { (pool : Contents) → IsTree self.now pool → IsWalk result pool }
        ensures all { (pool : Contents) → IsTree self.now pool → to_come result pool ≡ entries self.now pool }
    {
        Walk {
            cell: self.root,
            above: Vec::new(alloc),
        }
    }

    /// Gives back the cells of all nodes and keys. The values keep theirs.
    pub fn empty_into(&mut self, pool: &mut Pool)
        requires { IsTree self.old pool.old }
        ensures tree { IsTree self.new pool.new }
        ensures empty { entries self.new pool.new ≡ [] }
        ensures size { length pool.new.places ≡ length pool.old.places }
        ensures reserved { pool.new.reserved ≡ pool.old.reserved }
        ensures used { used pool.new + sum_by (λ (e : Entry). need e.key) (entries self.old pool.old) ≡ used pool.old }
        ensures gone { (k : ℕ) → Owns self.old pool.old k → at_cell pool.new k ≡ None }
        ensures frame { (k : ℕ) → ¬ Owns self.old pool.old k → at_cell pool.new k ≡ at_cell pool.old k }
        ensures bare { (k : ℕ) → ¬ Owns self.new pool.new k }
    {
        give_back(pool, self.root);
        self.root = NOTHING;
        self.count = 0;
    }
}
