//! What the checker answers to a source.
ghost use Rattle.std.specs.Prelude.{◌≡◌, ◌++◌, IfOk, OnOk};
ghost use Rattle.std.specs.Fmt.{decimal};
ghost use Rattle.kt_script.specs.Texts.{words};
ghost use Rattle.kt_run_check.specs.Checks.{verdict_words, answer_text, status_of};

use kt_base::{NoMemory, Octets};
use kt_judge::Verdict;
use kt_script::number::print_number;
use std::alloc::Global;

/// What is said of a source. Contracts say what each answer means by `IsAnswer`.
#[derive(Clone, Copy, PartialEq, Eq)]
pub enum Answer {
    /// The first faulty line of its script, and the least reason that holds in it.
    Line { number: u64, reason: u8 },
    /// The verdict on its output.
    Judged(Verdict),
    /// Where what stands behind its script is at fault.
    Place(u64),
}

// Appends a word and a number.
fn append_number(word: &[u8], number: u64, text: &mut Octets) -> Result<(), NoMemory>
    ensures { OnOk result (text.new ≡ (text.old ++ word.now) ++ decimal number) }
{
    text.extend(word)?;
    print_number(number, text)
}

fn append_verdict(verdict: Verdict, text: &mut Octets) -> Result<(), NoMemory>
    ensures { OnOk result (text.new ≡ text.old ++ words (verdict_words verdict)) }
{
    match verdict {
        Verdict::Yes => text.extend(b"yes"),
        Verdict::NoEvent { number } => append_number(b"no event ", number, text),
        Verdict::NoReply { session, index } => {
            append_number(b"no reply ", session, text)?;
            append_number(b" ", index, text)
        }
        Verdict::NoEnd => text.extend(b"no end"),
    }
}

/// The text of an answer.
pub(crate) fn answer_text(alloc: Global, answer: Answer) -> Result<Octets, NoMemory>
    ensures { IfOk result (λ text. text ≡ answer_text answer) }
{
    let mut text = Octets::new(alloc);
    match answer {
        Answer::Line { number, reason } => {
            append_number(b"script line ", number, &mut text)?;
            append_number(b" reason ", u64::from(reason), &mut text)?;
        }
        Answer::Judged(verdict) => append_verdict(verdict, &mut text)?,
        Answer::Place(place) => append_number(b"check place ", place, &mut text)?,
    }
    text.push(b'\n')?;
    Ok(text)
}

/// The status that an answer has.
pub(crate) fn status_of(answer: Answer) -> u8
    ensures { result ≡ status_of answer }
{
    match answer {
        Answer::Judged(Verdict::Yes) => 0,
        Answer::Line { .. } => 2,
        Answer::Judged(_) => 8,
        Answer::Place(_) => 9,
    }
}
