//! The parts of an opening, read a line at a time.

ghost use Rattle.std.specs.Prelude.{◌≡◌, ◌≤◌, ◌++◌, ◌∷◌, [], ℕ, map, length, Some, None, IfOk, if◌then◌else◌};
ghost use Rattle.kt_history.specs.Rows.{Rows};
ghost use Rattle.kt_judge.specs.Openings.{write_of as write_view};
ghost use Rattle.kt_opening.specs.Live.{IsLive};
ghost use Rattle.kt_opening.specs.OpeningTexts.{is_next, joined, fitting};
ghost use Rattle.kt_opening.specs.Reading.{IsHeadRead, IsFrontRead, AreRowsRead, AreChangesRead, AreWritesRead};

use crate::lines::{Due, Stop, line_at};
use crate::live::Live;
use crate::opening_lines::{begin_of, change_of, count_of, row_of, turn_of};
use kt_base::{Cells, NoMemory, Octets};
use kt_history::Change;
use kt_judge::OpeningWrite;
use kt_schema::Schema;
use std::alloc::Global;

/// Why a part is not read.
#[derive(Clone, Copy, PartialEq, Eq)]
pub(crate) enum PartNo {
    At(Stop),
    Memory,
}

impl From<NoMemory> for PartNo {
    ghost use Rattle.std.specs.Prelude.{◌≡◌};
    ghost use Rattle.kt_opening.specs.declared.parts.PartNo.TheVariants.{Memory};

    ghost from_gives = { λ _ e. e ≡ Memory };

    fn from(_: NoMemory) -> Self {
        PartNo::Memory
    }
}

impl From<Stop> for PartNo {
    ghost use Rattle.std.specs.Prelude.{◌≡◌};
    ghost use Rattle.kt_opening.specs.declared.parts.PartNo.TheVariants.{At};

    ghost from_gives = { λ stop e. e ≡ At stop };

    fn from(stop: Stop) -> Self {
        PartNo::At(stop)
    }
}

// The mark and the last timestamp, and the place behind their line.
#[derive(Clone, Copy)]
struct Head {
    a: u64,
    c: u64,
    at: usize,
}

/// What the first two lines say: the mark, the last timestamp and how many rows follow; and the place behind them.
#[derive(Clone, Copy)]
pub(crate) struct Front {
    pub(crate) a: u64,
    pub(crate) c: u64,
    pub(crate) rows: u64,
    pub(crate) at: usize,
}

/// Rows, and the place behind their lines.
#[derive(Drop)]
pub(crate) struct RowsPart {
    pub(crate) rows: Vec<(Octets, Cells)>,
    pub(crate) at: usize,
}

// The changes of a write, and the place behind their lines.
#[derive(Drop)]
struct ChangesPart {
    changes: Vec<(Octets, Change)>,
    at: usize,
}

/// Writes, and the place behind the line `output`.
#[derive(Drop)]
pub(crate) struct WritesPart {
    pub(crate) writes: Vec<OpeningWrite>,
    pub(crate) at: usize,
}

fn read_head(text: &[u8]) -> Result<Head, Stop>
    ensures read { IsHeadRead text.now result }
    ensures within { IfOk result (λ h. h.at ≤ length text.now) }
{
    let stop = Stop {
        at: 0,
        due: Due::Head,
    };
    let Some(line) = line_at(text, 0) else {
        return Err(stop);
    };
    match begin_of(line) {
        Some((a, c)) => Ok(Head {
            a,
            c,
            at: line.len() + 1,
        }),
        None => Err(stop),
    }
}

/// The first two lines.
pub(crate) fn read_front(text: &[u8]) -> Result<Front, Stop>
    ensures read { IsFrontRead text.now result }
    ensures within { IfOk result (λ f. f.at ≤ length text.now) }
{
    let Head { a, c, at } = read_head(text)?;
    let stop = Stop {
        at,
        due: Due::Count,
    };
    let Some(line) = line_at(text, at) else {
        return Err(stop);
    };
    match count_of(line) {
        Some(rows) => Ok(Front {
            a,
            c,
            rows,
            at: at + line.len() + 1,
        }),
        None => Err(stop),
    }
}

// Whether a key is above all that are there.
fn is_next<T>(entries: &[(Octets, T)], key: &[u8]) -> bool
    ensures { result ≡ is_next entries.now key.now }
{
    match entries.last() {
        Some((last, _)) => last.as_slice().cmp(&key).is_lt(),
        None => true,
    }
}

// Adds an entry, if it is there and its key is above all others, and tells whether it did.
fn join<T: Drop>(
    entries: &mut Vec<(Octets, T)>,
    entry: Option<(Octets, T)>,
) -> Result<bool, NoMemory>
    ensures { IfOk result (λ taken. joined entries.old.items entry ≡ (if taken then Some entries.new.items else None)) }
{
    let Some((key, value)) = entry else {
        return Ok(false);
    };
    if !is_next(entries, key.as_slice()) {
        return Ok(false);
    }
    entries.push((key, value))?;
    Ok(true)
}

/// So many rows.
pub(crate) fn read_rows(
    alloc: Global,
    schema: &Schema,
    text: &[u8],
    start: usize,
    due: u64,
) -> Result<RowsPart, PartNo>
    requires { start ≤ length text.now }
    ensures read { AreRowsRead schema.now text.now start due result }
    ensures within { IfOk result (λ r. r.at ≤ length text.now) }
{
    let mut rows = Vec::new(alloc);
    let mut at = start;
    let mut left = due;
    while left > 0 {
        let stop = Stop { at, due: Due::Row };
        let Some(line) = line_at(text, at) else {
            return Err(PartNo::At(stop));
        };
        let row = row_of(alloc, schema, line)?;
        if !join(&mut rows, row)? {
            return Err(PartNo::At(stop));
        }
        at = at + line.len() + 1;
        left -= 1;
    }
    Ok(RowsPart { rows, at })
}

// The change, if it is there and fits the row that its key has.
fn fitting(live: &Live, change: Option<(Octets, Change)>) -> Option<(Octets, Change)>
    ensures { (rows : Rows) → IsLive live.now rows → result ≡ fitting rows change }
{
    let (key, change) = change?;
    if live.fits(key.as_slice(), &change) {
        Some((key, change))
    } else {
        None
    }
}

// So many changes, each of which fits the row that its key has before them.
fn read_changes(
    alloc: Global,
    schema: &Schema,
    live: &Live,
    text: &[u8],
    start: usize,
    due: u64,
) -> Result<ChangesPart, PartNo>
    requires { start ≤ length text.now }
    ensures read { AreChangesRead schema.now live.now text.now start due result }
    ensures within { IfOk result (λ r. (start ≤ r.at) × (r.at ≤ length text.now)) }
{
    let mut changes = Vec::new(alloc);
    let mut at = start;
    let mut left = due;
    while left > 0 {
        let stop = Stop {
            at,
            due: Due::Change,
        };
        let Some(line) = line_at(text, at) else {
            return Err(PartNo::At(stop));
        };
        let change = fitting(live, change_of(alloc, schema, line)?);
        if !join(&mut changes, change)? {
            return Err(PartNo::At(stop));
        }
        at = at + line.len() + 1;
        left -= 1;
    }
    Ok(ChangesPart { changes, at })
}

fn push_write(writes: &mut Vec<OpeningWrite>, write: OpeningWrite) -> Result<(), NoMemory>
    ensures { IfOk result (λ done. map write_view writes.new.items ≡ map write_view writes.old.items ++ write_view write ∷ []) }
{
    writes.push(write)?;
    Ok(())
}

/// The writes above a mark and not above the last timestamp, up to the line `output`, over rows with these keys.
pub(crate) fn read_writes(
    alloc: Global,
    schema: &Schema,
    mut live: Live,
    text: &[u8],
    start: usize,
    a: u64,
    c: u64,
) -> Result<WritesPart, PartNo>
    requires { start ≤ length text.now }
    ensures read { AreWritesRead schema.now live text.now start a c result }
    ensures within { IfOk result (λ r. r.at ≤ length text.now) }
{
    let mut writes = Vec::new(alloc);
    let mut at = start;
    let mut low = a;
    'lines: while let Some(line) = line_at(text, at) {
        let below = at + line.len() + 1;
        if line == b"output".as_slice() {
            return Ok(WritesPart { writes, at: below });
        }
        let Some((ts, due)) = turn_of(line, low, c) else {
            return Err(PartNo::At(Stop {
                at,
                due: Due::Turn { low, c },
            }));
        };
        let part = read_changes(alloc, schema, &live, text, below, due)?;
        live.apply_all(alloc, &part.changes)?;
        let changes = part.changes;
        push_write(&mut writes, OpeningWrite { ts, changes })?;
        low = ts;
        at = part.at;
    }
    Err(PartNo::At(Stop {
        at,
        due: Due::Turn { low, c },
    }))
}
