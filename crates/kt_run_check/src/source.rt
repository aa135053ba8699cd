//! The parts of a source: a script, and an opening and an output behind it.
ghost use Rattle.std.specs.Prelude.{◌≡◌, ◌≤◌, length};
ghost use Rattle.kt_run_check.specs.Sources.{begins_opening, script_len};

use kt_script::split::cut_at;

// Whether a line begins an opening.
fn begins_opening(line: &[u8]) -> bool
    ensures { result ≡ begins_opening line.now }
{
    line.len() >= 8 && &line[..8] == b"opening ".as_slice()
}

/// How many bytes the script has: all before the first line that begins an opening, or the whole text without one.
pub(crate) fn script_len(text: &[u8]) -> usize
    ensures len { result ≡ script_len text.now }
    ensures within { result ≤ length text.now }
{
    let mut at = 0;
    let mut rest = text;
    'lines: while let Some((line, behind)) = cut_at(rest, b'\n') {
        if begins_opening(line) {
            return at;
        }
        at += line.len() + 1;
        rest = behind;
    }
    if begins_opening(rest) { at } else { text.len() }
}
