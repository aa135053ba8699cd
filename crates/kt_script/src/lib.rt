//! Texts: what a script spells, and what is printed of a run. A text is cut into lines first, and each line is
//! read by itself.
//!
//! For the layers above: `read_script` answers a script exactly where the text spells it, and otherwise the first
//! faulty line with the least reason that holds in it. `print_script` gives the text of a script with the names of each
//! operation in schema order, which is read as that script (`print::reading_law`). Each text that differs from it in the
//! order of these names alone is read as that script too, and no other text is (`laws::order_law`). A line `load N` stands
//! for four sessions that ask for N writes each, and their maintenance: `Script` has their commands, and is printed as
//! that line. `print_output`
//! appends the one text of the replies, the history and the last line, and `read_output` reads such a text again, with
//! each row as its line, or tells the first byte at which no output's text goes on. The whole grammar stands in `specs/`
//! as functions on lists of bytes. It stands on kt_base, kt_cells, kt_key, kt_schema and kt_history.
#![tactic(auto)]

pub mod asked;
pub mod columns;
mod draft;
pub mod forms;
pub mod fronts;
pub mod head;
pub mod laws;
pub mod leads;
pub mod least;
pub mod lex;
pub mod lists;
pub mod load;
pub mod named;
pub mod names;
pub mod number;
pub mod operations;
pub mod out_fronts;
pub mod out_lines;
pub mod output;
pub mod print;
pub mod refusal;
pub mod replies;
pub mod reread;
pub mod scans;
pub mod script;
pub mod sessions;
pub mod split;
pub mod test_words;
pub mod times;
mod vector;
pub mod word;
pub mod writes;

pub use head::{Table, read_table};
pub use lists::{KindList, ReplyList, ReplyLists, ShownReply};
pub use output::{LastLine, print_end, print_output, print_reply, print_row, print_session_line};
pub use print::print_script;
pub use refusal::ScriptNo;
pub use replies::{LineList, ReplyLine, ReplyLineList, ReplyLines};
pub use reread::{CodecNo, Output, read_output};
pub use scans::read_scan;
pub use script::{Script, read_script};
