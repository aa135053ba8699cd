//! What holds of every spelling.

ghost use Rattle.std.specs.Prelude.{◌≡◌, ℕ, List, ◌++◌, length};
ghost use Rattle.kt_bytes.specs.Places.{AreBytes};
ghost use Rattle.kt_column.specs.declared.errors.CodecNo.TheVariants as answers;
ghost use Rattle.kt_base.specs.declared.cell.Cell.{Cell};
ghost use Rattle.kt_column.specs.declared.form.Form.{Form};
ghost use Rattle.kt_column.specs.Blocks.{SpellsBlock};
ghost use Rattle.kt_column.specs.Columns.{SpellsColumn, IsColumnRefusal};
ghost use Rattle.kt_column.specs.Faults.{IsRefusal};
ghost use Rattle.kt_column.specs.Keys.{IsRisingRefusal};

/// No cells of a block have two spellings.
pub fn one_spelling()
    ensures { (form : Form) (cs : List Cell) (a b : List ℕ) → SpellsBlock form cs a → SpellsBlock form cs b → a ≡ b }
{}

/// No column has two spellings.
pub fn one_column_spelling()
    ensures { (form : Form) (cs : List Cell) (a b : List ℕ) → SpellsColumn form cs a → SpellsColumn form cs b → a ≡ b }
{}

/// Bytes that begin with a column's spelling begin with no other column's of as many cells.
pub fn one_column()
    ensures { (form : Form) (cs ds : List Cell) (a b r s : List ℕ) → SpellsColumn form cs a → SpellsColumn form ds b → length cs ≡ length ds → a ++ r ≡ b ++ s → (cs ≡ ds) × (a ≡ b) × (r ≡ s) }
{}

/// Bytes that are refused as a block or as a column are refused at one place, and are none.
pub fn one_place()
    ensures one { (form : Form) (n : ℕ) (bytes : List ℕ) (a b : ℕ) → AreBytes bytes → IsRefusal form n bytes (answers.Place a) → IsRefusal form n bytes (answers.Place b) → a ≡ b }
    ensures none { (form : Form) (n : ℕ) (bytes : List ℕ) (at : ℕ) (cs : List Cell) (front rest : List ℕ) → AreBytes bytes → IsRefusal form n bytes (answers.Place at) → SpellsBlock form cs front → length cs ≡ n → ¬ (bytes ≡ front ++ rest) }
    ensures none_column { (form : Form) (rows : ℕ) (bytes : List ℕ) (at : ℕ) (cs : List Cell) (front rest : List ℕ) → AreBytes bytes → IsColumnRefusal form rows bytes (answers.Place at) → SpellsColumn form cs front → length cs ≡ rows → ¬ (bytes ≡ front ++ rest) }
    ensures column { (form : Form) (rows : ℕ) (bytes : List ℕ) (a b : ℕ) → AreBytes bytes → IsColumnRefusal form rows bytes (answers.Place a) → IsColumnRefusal form rows bytes (answers.Place b) → a ≡ b }
    ensures rising { (rows : ℕ) (bytes : List ℕ) (a b : ℕ) → AreBytes bytes → IsRisingRefusal rows bytes (answers.Place a) → IsRisingRefusal rows bytes (answers.Place b) → a ≡ b }
{}
