//! The rows of a scan against the lines of a reply.
ghost use Rattle.std.specs.Prelude.{◌≡◌, map, IfOk, OnOk};
ghost use Rattle.kt_script.specs.Texts.{row_text};
ghost use Rattle.kt_judge.specs.Decided.{Decided};

use kt_base::{Kind, NoMemory, Octets};
use kt_history::{RowCells, RowList};
use kt_script::print_row;
use std::alloc::Global;

// The line of a row under columns of these kinds, in place of the bytes before.
fn row_line(kinds: &[Kind], row: &RowCells<'_>, line: &mut Octets) -> Result<(), NoMemory>
    ensures { OnOk result (line.new ≡ row_text kinds.now row.now) }
{
    line.clear();
    print_row(kinds, row, line)?;
    Ok(())
}

// Whether these are the bytes of a line.
fn is_line(line: &[u8], shown: &[u8]) -> bool
    ensures { Decided result (shown.now ≡ line.now) }
{
    line == shown
}

/// Whether these lines are those of some rows.
pub(crate) fn rows_stand(
    alloc: Global,
    kinds: &[Kind],
    rows: &RowList,
    lines: &[Octets],
) -> Result<bool, NoMemory>
    ensures { IfOk result (λ stand. Decided stand (lines.now ≡ map (row_text kinds.now) rows.now)) }
{
    if rows.len() != lines.len() {
        return Ok(false);
    }
    let mut line = Octets::new(alloc);
    'rows: for at in 0..rows.len() {
        let row = rows.at(at);
        row_line(kinds, &row, &mut line)?;
        if !is_line(line.as_slice(), lines[at].as_slice()) {
            return Ok(false);
        }
    }
    Ok(true)
}
