//! Laws of the filter's definition.

ghost use Rattle.kt_lookup.specs.Filter.{filter_has_its_bits, filter_is_the_only_one};

/// The filter of some keys has exactly the bits that they set.
pub fn bits_law()
    ensures { filter_has_its_bits }
{}

/// No other bytes have exactly these bits.
pub fn bytes_law()
    ensures { filter_is_the_only_one }
{}
