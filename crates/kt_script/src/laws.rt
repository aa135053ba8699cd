//! Laws of the definitions.

ghost use Rattle.kt_script.specs.Laws.{texts_give_back};
ghost use Rattle.kt_script.specs.Spelled.{scripts_fit, loads_are_plans};
ghost use Rattle.kt_script.specs.Alike.{texts_are_printed, alike_texts_are_read, texts_are_one, texts_are_read_again};
ghost use Rattle.kt_script.specs.Outputs.{outputs_are_one, printed_texts, outputs_give_back, printed_hold};

/// Outputs of one text have the same replies, as far as a text shows them, the same history and the same last
/// line.
pub fn texts_law()
    ensures { texts_give_back }
{}

/// A text is that of one output at most. A printed text is that of what was printed, with rows as their lines, and
/// of no other output, and where the rows' cells fit their columns it is read again.
pub fn outputs_law()
    ensures one { outputs_are_one }
    ensures printed { printed_texts }
    ensures again { outputs_give_back }
    ensures held { printed_hold }
{}

/// What a text says keeps the rules of its table and of the grammar, so that `print_script` takes it. A text with a load line
/// says the plan of that load.
pub fn scripts_law()
    ensures fit { scripts_fit }
    ensures loads { loads_are_plans }
{}

/// Texts are alike where they are one but for the order of the names of each operation. The text of what a text says
/// is alike to that text. Each text that is alike to a script's says that script, and no other text does, but that a load
/// line and the sessions that it stands for say one plan. So what a text says is printed, and read again.
pub fn order_law()
    ensures printed { texts_are_printed }
    ensures read { alike_texts_are_read }
    ensures one { texts_are_one }
    ensures again { texts_are_read_again }
{}
