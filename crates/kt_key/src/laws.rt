//! Laws of encoded keys.
ghost use Rattle.kt_key.specs.Order.{order_is_kept, spellings_differ};

/// Encoded keys compare by their bytes as the keys compare column by column.
pub fn order_law()
    ensures { order_is_kept }
{}

/// No two keys have one spelling.
pub fn spelling_law()
    ensures { spellings_differ }
{}
