//! Spelling a delta file.
ghost use Rattle.std.specs.Prelude.{◌≡◌, ◌<◌, ◌^◌, ◌++◌, [], IfOk, OnOk};
ghost use Rattle.std.specs.List.{flat_map};
ghost use Rattle.kt_cells.specs.Rules.{EachAfter};
ghost use Rattle.kt_deltafile.specs.Rules.{ChangeFits, Follows, IsFile};
ghost use Rattle.kt_deltafile.specs.Spelling.{way_byte, change_bytes, record_bytes, spelling};

use crate::file::Way;
use kt_base::{NoMemory, Octets};
use kt_cells::Tail;
use kt_cells::writing::put_cell_list;
use kt_history::{Change, Delta, DeltaList};
use std::alloc::Global;

fn number_of_way(way: Way) -> u8
    ensures { result ≡ way_byte way }
{
    match way {
        Way::Redo => 1,
        Way::Undo => 2,
    }
}

fn put_change(way: Way, out: &mut Tail, change: &Change) -> Result<(), NoMemory>
    requires { ChangeFits way change.now }
    ensures front { out.new.front ≡ out.old.front }
    ensures ok { OnOk result (out.new.added ≡ out.old.added ++ change_bytes change.now) }
{
    match change {
        Change::Ins(cells) => {
            out.push(1)?;
            put_cell_list(out, cells)
        }
        Change::Upd(cells) => {
            out.push(2)?;
            put_cell_list(out, cells)
        }
        Change::Del => out.push(3),
    }
}

fn put_record(way: Way, out: &mut Tail, record1: &Delta) -> Result<(), NoMemory>
    requires { ChangeFits way record1.now.change }
    ensures front { out.new.front ≡ out.old.front }
    ensures ok { OnOk result (out.new.added ≡ out.old.added ++ record_bytes record1.now) }
{
    out.extend(&record1.ordinal.to_le_bytes())?;
    out.extend(&record1.ts.to_le_bytes())?;
    put_change(way, out, &record1.change)
}

fn put_records(way: Way, out: &mut Tail, records: &[Delta]) -> Result<(), NoMemory>
    requires { EachAfter (Follows way (2 ^ 32)) [] records.now }
    ensures front { out.new.front ≡ out.old.front }
    ensures ok { OnOk result (out.new.added ≡ out.old.added ++ flat_map record_bytes records.now) }
{
    'records: for one in records {
        put_record(way, out, one)?;
    }
    Ok(())
}

/// The one spelling of a list of changes as a file of this way.
pub fn spell(alloc: Global, list: &DeltaList, way: Way) -> Result<Octets, NoMemory>
    requires { IsFile way list.now }
    ensures { IfOk result (λ bytes. bytes ≡ spelling way list.now) }
{
    let mut out = Tail::of(Octets::new(alloc));
    out.extend(b"KTD1")?;
    out.push(number_of_way(way))?;
    out.extend(&(list.len() as u32).to_le_bytes())?;
    put_records(way, &mut out, list.as_slice())?;
    Ok(out.whole())
}
