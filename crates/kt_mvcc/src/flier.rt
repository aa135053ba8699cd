//! Writes that fly.
ghost use Rattle.std.specs.Prelude.{◌≡◌, ◌<◌, length, get_or, map};
ghost use Rattle.std.specs.List.{list_any};
ghost use Rattle.kt_mvcc.specs.Keys.{same_key};

use kt_history::OpList;
use std::marker::Model;

/// The encoded keys of a write, as its operations have them. Contracts see them as a list.
#[derive(Drop)]
pub struct KeyList {
    ops: OpList,
}

impl Model for KeyList {
    ghost use Rattle.std.specs.Prelude.{List, ℕ, map};

    ghost Value = { List (List ℕ) };

    ghost view = { λ l. map (λ op. op.key) l.ops };
}

impl KeyList {
    /// The keys of operations, which takes no memory.
    pub fn of_ops(ops: OpList) -> KeyList
        ensures { result ≡ map (λ op. op.key) ops }
    {
        KeyList { ops }
    }

    pub fn len(&self) -> usize
        ensures { result ≡ length self.now }
    {
        self.ops.len()
    }

    /// The key at a place.
    pub fn at(&self, at: usize) -> &[u8]
        requires { at < length self.now }
        ensures { result.now ≡ get_or self.now at result.now }
    {
        self.ops.at(at).key()
    }
}

/// A write that flies, and the keys that it holds.
#[derive(Drop)]
pub struct Flier {
    pub who: u32,
    pub ts: u64,
    pub keys: KeyList,
}

// Whether a key is among those that are held.
fn is_held(held: &KeyList, key: &[u8]) -> bool
    ensures { result ≡ list_any (λ other. same_key key.now other) held.now }
{
    'held: for at in 0..held.len() {
        if key.cmp(&held.at(at)).is_eq() {
            return true;
        }
    }
    false
}

/// Whether one of the keys is among those that are held.
pub fn share_key(keys: &KeyList, held: &KeyList) -> bool
    ensures { result ≡ list_any (λ key. list_any (λ other. same_key key other) held.now) keys.now }
{
    'keys: for at in 0..keys.len() {
        if is_held(held, keys.at(at)) {
            return true;
        }
    }
    false
}
