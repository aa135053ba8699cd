//! The keys that may come to have rows in a run.

use crate::follow::write_at;
use crate::opening::Opening;
use kt_base::NoMemory;
use kt_history::{Change, Event, OpKind, OpList};
use kt_script::Script;
use std::alloc::Global;

// The keys that have rows at the mark, or that a write of the opening inserts.
fn add_opening<'a>(keys: &mut Vec<&'a [u8]>, opening: &'a Opening) -> Result<(), NoMemory> {
    for (key, _) in &opening.rows {
        keys.push(key.as_slice())?;
    }
    for write in &opening.writes {
        for (key, change) in &write.changes {
            if let Change::Ins(_) = change {
                keys.push(key.as_slice())?;
            }
        }
    }
    Ok(())
}

// The keys of the operations that can insert a row.
fn add_ops<'a>(keys: &mut Vec<&'a [u8]>, ops: &'a OpList) -> Result<(), NoMemory> {
    for at in 0..ops.len() {
        let op = ops.at(at);
        match op.kind() {
            OpKind::Insert | OpKind::Upsert | OpKind::InsertIgnore => {
                keys.push(op.key())?;
            }
            _ => {}
        }
    }
    Ok(())
}

/// The keys that may come to have rows in a run, by rising bytes. A table that is begun with them has no key to put between
/// others later; nothing else depends on which they are.
pub(crate) fn run_keys<'a>(
    alloc: Global,
    opening: &'a Opening,
    script: &'a Script,
    events: &[Event],
) -> Result<Vec<&'a [u8]>, NoMemory> {
    let mut keys = Vec::new(alloc);
    add_opening(&mut keys, opening)?;
    for event in events {
        if let Event::Begin { s, i, .. } = *event {
            if let Some(ops) = write_at(&script.plan, s, i) {
                add_ops(&mut keys, ops)?;
            }
        }
    }
    keys.sort_unstable();
    Ok(keys)
}
