//! The checker: it reads a script, an opening and an output, and says whether the output is that of a run.
ghost use Rattle.std.specs.Prelude.{◌≡◌, ◌≢◌, ◌⊎◌, ◌≤◌, ◌+◌, [], ℕ, List, map, length, Some, None, IfOk, IfErr, IfSome, IsErrOf};
ghost use Rattle.std.specs.Io.KnownBytes.{Appends};
ghost use Rattle.kt_base.specs.Causes.{Rose};
ghost use Rattle.kt_streams.specs.Outside.{WritesFront};
ghost use Rattle.kt_judge.specs.Openings.{past_of, IsOpening};
ghost use Rattle.kt_judge.specs.Works.{work_of};
ghost use Rattle.kt_run_check.specs.Words.{pool_in};
ghost use Rattle.kt_script.specs.declared.reread.Output.{Output};
ghost use Rattle.kt_script.specs.Scripts.{Said, workload};
ghost use Rattle.kt_judge.specs.declared.verdict.Verdict.TheVariants.{Yes};
ghost use Rattle.kt_judge.specs.Verdicts.{IsVerdict};
ghost use Rattle.kt_opening.specs.OpeningTexts.{Found};
ghost use Rattle.kt_run_check.specs.Checks.{Spells, most_read, answer_text, status_of, IsAnswer, IsOutputJudged, IsRestJudged, said_in};

use crate::answer::{Answer, answer_text, status_of};
use crate::pool::pool_in;
use crate::source::script_len;
use kt_base::{NoMemory, Sink, Source};
use kt_judge::{Opening, judge};
use kt_opening::{OpeningNo, Read, read_opening};
use kt_script::{CodecNo, Script, ScriptNo, read_output, read_script};
use kt_streams::{ReadNo, read_all, write_all};
use std::alloc::Global;

/// Reading stops after so many bytes, which is one more than a source may have.
const MANY: usize = 268_435_457;

const USAGE: &[u8] = b"usage: check [--pool CELLS]\n";

// What is said of an opening that was read, and the output behind it.
fn judge_output(
    alloc: Global,
    cells: u32,
    script: &Script,
    opening: &Opening,
    text: &[u8],
    begins: usize,
) -> Result<Answer, NoMemory>
    requires opening { IsOpening opening.now }
    requires small { begins + length text.now ≤ most_read }
    ensures { IfOk result (λ answer. IsOutputJudged (work_of cells script.now) (past_of opening.now) opening.now.c text.now begins answer) }
{
    match read_output(alloc, text) {
        Ok(output) => Ok(Answer::Judged(judge(alloc, opening, script, cells, &output)?)),
        Err(CodecNo::Place { offset }) => Ok(Answer::Place(begins as u64 + offset)),
        Err(CodecNo::Memory) => Err(NoMemory),
    }
}

// What is said of what stands behind a script, which begins at a place of the source.
fn judge_rest(
    alloc: Global,
    cells: u32,
    script: &Script,
    text: &[u8],
    begins: usize,
) -> Result<Answer, NoMemory>
    requires { begins + length text.now ≤ most_read }
    ensures { IfOk result (λ answer. IsRestJudged cells (said_in script.now) text.now begins answer) }
{
    match read_opening(alloc, &script.schema, text) {
        Ok(Read { opening, at }) => {
            let (_, output) = text.split_at(at);
            let answer = judge_output(alloc, cells, script, &opening, output, begins + at)?;
            Ok(answer)
        }
        Err(OpeningNo::Place { offset }) => Ok(Answer::Place((begins + offset) as u64)),
        Err(OpeningNo::Memory) => Err(NoMemory),
    }
}

/// What is said of a source, with a pool of so many cells.
pub fn answer_to(alloc: Global, cells: u32, text: &[u8]) -> Result<Answer, NoMemory>
    ensures { IfOk result (λ answer. IsAnswer cells text.now answer) }
{
    if text.len() >= MANY {
        return Ok(Answer::Place(MANY as u64 - 1));
    }
    let (front, rest) = text.split_at(script_len(text));
    match read_script(alloc, front) {
        Ok(script) => {
            let answer = judge_rest(alloc, cells, &script, rest, front.len())?;
            Ok(answer)
        }
        Err(ScriptNo::Line { number, reason }) => Ok(Answer::Line { number, reason }),
        Err(ScriptNo::Memory) => Err(NoMemory),
    }
}

// Writes the text of a status.
fn finish<K: Sink>(sink: &mut K, text: &[u8], status: u8) -> u8
    requires { status ≢ 6 }
    ensures whole { result ≢ 6 → (result ≡ status) × Appends (K.written sink.old) (K.written sink.new) text.now }
    ensures cut { result ≡ 6 → Rose (K.faults sink.old) (K.faults sink.new) × WritesFront (K.written sink.old) (K.written sink.new) text.now }
{
    match write_all(sink, text) {
        Ok(()) => status,
        Err(_) => 6,
    }
}

// Writes an answer.
fn tell<K: Sink>(alloc: Global, sink: &mut K, answer: Answer) -> u8
    ensures told { (result ≡ status_of answer) × Appends (K.written sink.old) (K.written sink.new) (answer_text answer)
        ⊎ ((result ≡ 6) × Rose (K.faults sink.old) (K.faults sink.new) × WritesFront (K.written sink.old) (K.written sink.new) (answer_text answer)
        ⊎ (result ≡ 7) × Appends (K.written sink.old) (K.written sink.new) []) }
{
    match answer_text(alloc, answer) {
        Ok(text) => finish(sink, text.as_slice(), status_of(answer)),
        Err(NoMemory) => 7,
    }
}

// The answer to a source.
fn take_answer<S: Source>(alloc: Global, cells: u32, source: &mut S) -> Result<Answer, ReadNo>
    ensures answered { IfOk result (λ answer. IfSome (S.left source.old) (λ text. IsAnswer cells text answer)) }
    ensures failed { IsErrOf result ReadNo.Failed → Rose (S.faults source.old) (S.faults source.new) }
{
    let bytes = read_all(alloc, source, MANY)?;
    match answer_to(alloc, cells, &bytes) {
        Ok(answer) => Ok(answer),
        Err(NoMemory) => Err(ReadNo::Memory),
    }
}

/// The checker: the words of its command line, what it reads and what it writes. It answers the status.
pub fn check_main<S: Source, K: Sink>(
    alloc: Global,
    words: &[&str],
    source: &mut S,
    sink: &mut K,
) -> u8
    // Status 1 comes exactly where the words are not in the form, unless the sink fails.
    ensures usage { result ≡ 1 → (pool_in (map (λ w. w.now) words.now) ≡ None) × Appends (K.written sink.old) (K.written sink.new) USAGE.now }
    ensures words { pool_in (map (λ w. w.now) words.now) ≡ None → (result ≡ 1) ⊎ (result ≡ 6) }

    // On status 0, 2, 8 or 9 the answer to all bytes of the source was written, whose status it is.
    ensures answered { (result ≡ 0) ⊎ (result ≡ 2) ⊎ (result ≡ 8) ⊎ (result ≡ 9) → (cells : ℕ) × (pool_in (map (λ w. w.now) words.now) ≡ Some cells)
        × (answer : Answer) × (result ≡ status_of answer) × Appends (K.written sink.old) (K.written sink.new) (answer_text answer) × IfSome (S.left source.old) (λ text. IsAnswer cells text answer) }

    // A source has one answer, and it comes unless source, sink or memory fail: so status 0 comes exactly where the source spells a
    // script, an opening and an output that is that of a run of the script from the opening.
    ensures exact { (cells : ℕ) (text : List ℕ) (answer : Answer) → pool_in (map (λ w. w.now) words.now) ≡ Some cells → S.left source.old ≡ Some text → IsAnswer cells text answer
        → ¬ Rose (S.faults source.old) (S.faults source.new) → ¬ Rose (K.faults sink.old) (K.faults sink.new) → (result ≡ status_of answer) ⊎ (result ≡ 7) }

    // Of a source that spells a script, an opening and an output, status 0 comes only where the output is that of a run of the script from the opening.
    ensures yes { (cells : ℕ) (text : List ℕ) (said : Said) (found : Found) (output : Output) → pool_in (map (λ w. w.now) words.now) ≡ Some cells → S.left source.old ≡ Some text → Spells text said found output
        → result ≡ 0 → IsVerdict (workload cells said) found.past found.last output Yes }
    ensures source_fault { result ≡ 5 → Rose (S.faults source.old) (S.faults source.new) × Appends (K.written sink.old) (K.written sink.new) [] }

    // There a front of the text of the status that it replaces was written.
    ensures sink_fault { result ≡ 6 → Rose (K.faults sink.old) (K.faults sink.new) }
    ensures cut { result ≡ 6 → (WritesFront (K.written sink.old) (K.written sink.new) USAGE.now × (pool_in (map (λ w. w.now) words.now) ≡ None))
        ⊎ ((cells : ℕ) × (pool_in (map (λ w. w.now) words.now) ≡ Some cells) × (answer : Answer) × WritesFront (K.written sink.old) (K.written sink.new) (answer_text answer)
        × IfSome (S.left source.old) (λ text. IsAnswer cells text answer)) }
    ensures memory { result ≡ 7 → Appends (K.written sink.old) (K.written sink.new) [] }
    ensures statuses { (result ≤ 2) ⊎ (5 ≤ result) × (result ≤ 9) }
{
    let Some(cells) = pool_in(words) else {
        return finish(sink, USAGE, 1);
    };
    match take_answer(alloc, cells, source) {
        Ok(answer) => tell(alloc, sink, answer),
        Err(ReadNo::Failed) => 5,
        Err(ReadNo::Memory) => 7,
    }
}
