//! Laws of the definitions, each the contract of a function that does nothing.
ghost use Rattle.std.specs.Prelude.{◌≡◌, ◌≤◌, ℕ, List, [], ◌∷◌, true};
ghost use Rattle.std.specs.List.{All};
ghost use Rattle.std.specs.FinMap.Entries.{find, is_sorted};
ghost use Rattle.kt_history.specs.Rows.{Rows, key_cmp};
ghost use Rattle.kt_scan.specs.Encoded.{keys_are_read};
ghost use Rattle.kt_scan.specs.Live.{row_in, live_rows, AreRowsOf};

use kt_history::View;

/// The key cells that a scan shows are those that the encoded key spells.
pub fn key_cells_law()
    ensures { keys_are_read }
{}

/// The rows that live in some views rise by key, and are those that the views tell: for each key that of the first
/// view that has one. No other rows are so.
pub fn live_law<V: View>(_views: &[V], _t: u64)
    requires { All (λ v. V.mark v ≤ _t) _views.now }
    ensures rising { is_sorted key_cmp (live_rows V.keys V.row_of _views.now _t) ≡ true }
    ensures rows { (key : List ℕ) → find key_cmp key (live_rows V.keys V.row_of _views.now _t) ≡ row_in V.row_of _views.now key _t }
    ensures only { (rows : Rows) → AreRowsOf (λ key. row_in V.row_of _views.now key _t) rows → live_rows V.keys V.row_of _views.now _t ≡ rows }
{}

/// The rows that live in one view alone are the table that it tells.
pub fn table_law<V: View>(_view: &V, _t: u64)
    requires { V.mark _view.now ≤ _t }
    ensures { (rows : Rows) → AreRowsOf (λ key. V.row_of _view.now key _t) rows → live_rows V.keys V.row_of (_view.now ∷ []) _t ≡ rows }
{}
