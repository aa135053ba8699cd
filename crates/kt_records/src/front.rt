//! The operations of a write that stand in front of one that is read.
ghost use Rattle.std.specs.Prelude.{◌≡◌, true};
ghost use Rattle.kt_records.specs.Rules.{has_key};
ghost use Rattle.kt_records.specs.Rising.{AreBelow, LastIsTop};

use crate::log_records::OpsRef;
use std::marker::Model;

/// Whether one of the operations has this key.
fn is_taken(ops: &OpsRef<'_>, key: &[u8]) -> bool
    ensures { result ≡ has_key ops.now key.now }
{
    'ops: for at in 0..ops.len() {
        let op = ops.at(at);
        if op.key().cmp(&key).is_eq() {
            return true;
        }
    }
    false
}

// Whether a key is above that of the last operation, if there is one.
fn is_above(ops: &OpsRef<'_>, key: &[u8]) -> bool
    requires { LastIsTop ops.now }
    ensures { result ≡ true → AreBelow ops.now key.now }
{
    let len = ops.len();
    if len == 0 {
        return true;
    }
    let last = ops.at(len - 1);
    last.key().cmp(&key).is_lt()
}

/// Operations on different keys. While the keys rise, one look at the last one tells that a key above it is new. Contracts see
/// the operations.
#[derive(Drop)]
pub struct Front<'v> {
    ops: OpsRef<'v>,
    rises: bool,
}

impl<'v> Model for Front<'v> {
    ghost use Rattle.std.specs.Prelude.{List, ◌≡◌, true};
    ghost use Rattle.kt_history.specs.declared.operation.RowOp.{RowOp};
    ghost use Rattle.kt_records.specs.Rising.{LastIsTop};

    ghost Value = { List RowOp };

    ghost view = { λ f. f.ops };

    ghost invariant = { λ f. f.rises ≡ true → LastIsTop f.ops };
}

impl<'v> Front<'v> {
    /// These operations, and whether it is known that their keys rise.
    pub fn of(ops: OpsRef<'v>, rises: bool) -> Front<'v>
        requires { rises ≡ true → LastIsTop ops }
        ensures { result ≡ ops.entry }
    {
        Front { ops, rises }
    }

    /// Whether it is known without a search that the key is above all.
    pub fn rises_to(&self, key: &[u8]) -> bool
        ensures { result ≡ true → AreBelow self.now key.now }
    {
        self.rises && is_above(&self.ops, key)
    }

    /// Whether one of the operations has this key.
    pub fn has(&self, key: &[u8]) -> bool
        ensures { result ≡ has_key self.now key.now }
    {
        if self.rises_to(key) {
            return false;
        }
        is_taken(&self.ops, key)
    }
}
