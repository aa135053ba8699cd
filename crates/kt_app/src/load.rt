//! What is printed of a script that loads: its outcomes counted, and the rows at its end counted and summed up.
ghost use Rattle.std.specs.Prelude.{◌≡◌, ◌≤◌, ◌++◌, ◌+◌, [], true, false, IfOk, OnOk, IfSome};
ghost use Rattle.std.specs.Fmt.{decimal, signed_decimal};
ghost use Rattle.std.specs.List.{All};
ghost use Rattle.kt_history.specs.History.{Past, rows_at};
ghost use Rattle.kt_history.specs.Replies.{shown};
ghost use Rattle.kt_history.specs.Rows.{Rows};
ghost use Rattle.kt_histlaws.specs.Core.{run_past};
ghost use Rattle.kt_scan.specs.Encoded.{keys_of};
ghost use Rattle.kt_scan.specs.Live.{AreRowsOf, row_in};
ghost use Rattle.kt_script.specs.Loads.{load_columns};
ghost use Rattle.kt_script.specs.Texts.{last_text};
ghost use Rattle.kt_script.specs.declared.output.LastLine.TheVariants as last;
ghost use Rattle.kt_loadlaws.specs.Summary.{counted, all_counted, replied, all_replied, counts_in, summary_line, summary_text};
ghost use Rattle.kt_tablet.specs.Reads.{IsCopied};
ghost use Rattle.kt_engine.specs.Engines.{IsFound, core_from};
ghost use Rattle.kt_serve.specs.Scans.{snap_row};
ghost use Rattle.kt_app.specs.Loaded.{value_scan, number_shown, sum_shown, counts_of, IsOfRows, IsLoadAt};

use itoa::Buffer;
use kt_base::{CellRef, Clock, NoMemory, Octets};
use kt_disk::Disk;
use kt_diskrowset::RowSetView;
use kt_engine::{Engine, Snap};
use kt_history::{At, ColumnIds, Outcome, PredList, Reply, RowCells, RowList, Scan, View};
use kt_scan::laws::live_law;
use kt_scan::run;
use kt_schema::Schema;
use kt_serve::SessionReplies;
use std::alloc::Global;

// The column that a load sums up.
const VALUE: u16 = 2;

/// What a load leaves.
#[derive(Clone, Copy)]
pub struct Load {
    /// How many writes each of its sessions has.
    pub number: u32,
    /// How many rows there are at its end.
    pub rows: u64,
    /// The sum of their numbers.
    pub sum: i128,
}

/// How many operations were done, found their key present, and found it absent.
#[derive(Clone, Copy)]
pub struct Tally {
    ok: u64,
    present: u64,
    absent: u64,
}

// One more. So many outcomes that they cannot be counted have no room in memory.
fn one_more(count: u64) -> Result<u64, NoMemory>
    ensures { IfOk result (λ more. more ≡ count + 1) }
{
    match count.checked_add(1) {
        Some(more) => Ok(more),
        None => Err(NoMemory),
    }
}

impl Tally {
    // With one outcome more. None of a load is ignored.
    fn with_outcome(self, outcome: Outcome) -> Result<Tally, NoMemory>
        ensures { IfOk result (λ tally. counts_of tally ≡ counted (counts_of self) outcome) }
    {
        match outcome {
            Outcome::Done => {
                let ok = one_more(self.ok)?;
                Ok(Tally { ok, ..self })
            }
            Outcome::Present => {
                let present = one_more(self.present)?;
                Ok(Tally { present, ..self })
            }
            Outcome::Absent => {
                let absent = one_more(self.absent)?;
                Ok(Tally { absent, ..self })
            }
            Outcome::Ignored => Ok(self),
        }
    }

    // With these.
    fn with_outcomes(self, outcomes: &[Outcome]) -> Result<Tally, NoMemory>
        ensures { IfOk result (λ tally. counts_of tally ≡ all_counted (counts_of self) outcomes.now) }
    {
        let mut tally = self;
        for outcome in outcomes {
            tally = tally.with_outcome(*outcome)?;
        }
        Ok(tally)
    }

    // With those of a reply.
    fn with_reply(self, reply: &Reply) -> Result<Tally, NoMemory>
        ensures { IfOk result (λ tally. counts_of tally ≡ replied (counts_of self) reply.now) }
    {
        match reply {
            Reply::At { ts: _, outcomes } => self.with_outcomes(outcomes.as_slice()),
            _ => Ok(self),
        }
    }

    // With those of a session.
    fn with_replies(self, replies: &[Reply]) -> Result<Tally, NoMemory>
        ensures { IfOk result (λ tally. counts_of tally ≡ all_replied (counts_of self) replies.now) }
    {
        let mut tally = self;
        for reply in replies {
            tally = tally.with_reply(reply)?;
        }
        Ok(tally)
    }
}

// The outcomes of all replies.
fn tally_of(sessions: &[SessionReplies]) -> Result<Tally, NoMemory>
    ensures { IfOk result (λ tally. counts_of tally ≡ counts_in sessions.now) }
{
    let mut tally = Tally {
        ok: 0,
        present: 0,
        absent: 0,
    };
    for session in sessions {
        tally = tally.with_replies(session.as_slice())?;
    }
    Ok(tally)
}

// The number that a row shows first, and 0 where it shows none.
fn number_shown(row: &RowCells<'_>) -> i64
    ensures { result ≡ number_shown row.now }
{
    if row.is_empty() {
        return 0;
    }
    match row.at(0) {
        CellRef::Int(number) => number,
        _ => 0,
    }
}

// The sum of the numbers that rows show first.
fn sum_shown(rows: &RowList) -> i128
    ensures { result ≡ sum_shown rows.now }
{
    let mut sum = 0;
    'rows: for at in 0..rows.len() {
        sum += i128::from(number_shown(&rows.at(at)));
    }
    sum
}

// A scan that shows the column that a load sums up.
fn value_scan(alloc: Global, t: u64) -> Result<Scan, NoMemory>
    ensures { IfOk result (λ scan. scan ≡ value_scan t) }
{
    let ids = vec![in alloc; VALUE]?;
    Ok(Scan {
        at: At::Given(t),
        columns: Some(ColumnIds::of(ids)),
        preds: PredList::of(Vec::new(alloc)),
    })
}

// What that scan shows of the rows that these views have at t, told from a mark on.
fn values_in<V: View>(
    alloc: Global,
    schema: &Schema,
    views: &[V],
    mark: u64,
    t: u64,
) -> Result<RowList, NoMemory>
    requires since { mark ≤ t }
    requires told { All (λ v. V.mark v ≤ mark) views.now }
    ensures { IfOk result (λ listed. (rows : Rows) → AreRowsOf (λ key. row_in V.row_of views.now key t) rows → listed ≡ shown (keys_of schema.now) (value_scan t) rows) }
{
    let scan = value_scan(alloc, t)?;
    let rows = run(alloc, views, t, &scan, schema, mark)?;
    live_law(views, t);
    Ok(rows)
}

// And of those of a snapshot, whose time is not below its mark.
fn values_of(alloc: Global, schema: &Schema, snap: &Snap<RowSetView>) -> Result<RowList, NoMemory>
    requires copied { IsCopied snap.now }
    ensures { IfOk result (λ listed. snap.now.mark ≤ snap.now.t → (rows : Rows) → AreRowsOf (snap_row snap.now) rows → listed ≡ shown (keys_of schema.now) (value_scan snap.now.t) rows) }
{
    let views = snap.read(alloc)?;
    values_in(alloc, schema, &views, snap.mark, snap.t.max(snap.mark))
}

// What a load leaves in an engine in which no write flies.
fn load_at<L: Disk, D: Disk + Drop, C: Clock>(
    alloc: Global,
    schema: &Schema,
    number: u32,
    engine: &Engine<L, D, C>,
) -> Result<Load, NoMemory>
    requires table { schema.now ≡ load_columns }
    ensures number { IfOk result (λ load. load.number ≡ number) }
    ensures rows { IfOk result (λ load. engine.now.tablet.core.aloft ≡ [] → (first : Past) → IsFound engine.now first → IsOfRows load (rows_at (run_past (core_from engine.now first)) engine.now.tablet.core.c)) }
{
    engine.standing();
    let snap = engine.rows_now(alloc)?;
    let values = values_of(alloc, schema, &snap)?;
    let rows = values.len() as u64;
    let sum = sum_shown(&values);
    Ok(Load { number, rows, sum })
}

/// What a load leaves in an engine, where there is one.
pub fn load_now<L: Disk, D: Disk + Drop, C: Clock>(
    alloc: Global,
    schema: &Schema,
    load: Option<u32>,
    engine: &Engine<L, D, C>,
) -> Result<Option<Load>, NoMemory>
    requires table { IfSome load (λ n. schema.now ≡ load_columns) }
    ensures { IfOk result (IsLoadAt engine.now load) }
{
    match load {
        Some(number) => {
            let load = load_at(alloc, schema, number, engine)?;
            Ok(Some(load))
        }
        None => Ok(None),
    }
}

// A line of a word and the digits of a number.
fn push_line(text: &mut Octets, word: &[u8], digits: &[u8]) -> Result<(), NoMemory>
    ensures { OnOk result (text.new ≡ text.old ++ summary_line word.now digits.now) }
{
    text.extend(word)?;
    text.push(b' ')?;
    text.extend(digits)?;
    text.push(b'\n')
}

// A line of a word and a count.
fn push_count(text: &mut Octets, word: &[u8], count: u64) -> Result<(), NoMemory>
    ensures { OnOk result (text.new ≡ text.old ++ summary_line word.now (decimal count)) }
{
    let mut buffer = Buffer::new();
    push_line(text, word, buffer.format(count).as_bytes())
}

// And of a sum.
fn push_sum(text: &mut Octets, word: &[u8], sum: i128) -> Result<(), NoMemory>
    ensures { OnOk result (text.new ≡ text.old ++ summary_line word.now (signed_decimal sum)) }
{
    let mut buffer = Buffer::new();
    push_line(text, word, buffer.format(sum).as_bytes())
}

// The lines of a summary.
fn summary_text(alloc: Global, load: &Load, tally: &Tally) -> Result<Octets, NoMemory>
    ensures { IfOk result (λ text. (rows : Rows) → IsOfRows load.now rows → text ≡ summary_text load.now.number (record { rows = rows; counts = counts_of tally.now })) }
{
    let mut text = Octets::new(alloc);
    push_count(&mut text, b"load", u64::from(load.number))?;
    push_count(&mut text, b"ok", tally.ok)?;
    push_count(&mut text, b"present", tally.present)?;
    push_count(&mut text, b"absent", tally.absent)?;
    push_count(&mut text, b"rows", load.rows)?;
    push_sum(&mut text, b"sum", load.sum)?;
    Ok(text)
}

const STOPPED: &[u8] = b"tablet stopped\n";

/// What is printed of a load that has these replies: its summary, or that it was stopped.
pub fn load_text(
    alloc: Global,
    load: &Load,
    sessions: &[SessionReplies],
    stopped: bool,
) -> Result<Octets, NoMemory>
    ensures stopped { IfOk result (λ text. stopped ≡ true → text ≡ last_text last.Stopped) }
    ensures summary { IfOk result (λ text. stopped ≡ false → (rows : Rows) → IsOfRows load.now rows → text ≡ summary_text load.now.number (record { rows = rows; counts = counts_in sessions.now })) }
{
    if stopped {
        return Octets::from_slice(alloc, STOPPED);
    }
    let tally = tally_of(sessions)?;
    summary_text(alloc, load, &tally)
}
