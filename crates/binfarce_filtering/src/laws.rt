//! Laws of filtered texts, proved from their definitions.

ghost use Rattle.binfarce_filtering.specs.Filter.{IsFiltered};
ghost use Rattle.binfarce_filtering.specs.Laws.{HasAnOutput, HasOneOutput, HasPrefixWritten};

/// A text has a filtered text, and no more than one. What `filter_stream` writes before a write or an allocation fails
/// is a prefix of it.
pub fn has_one_output(full: bool, text: &[u8])
    ensures some { HasAnOutput (IsFiltered full) text.now }
    ensures one { HasOneOutput (IsFiltered full) text.now }
    ensures prefix { HasPrefixWritten (IsFiltered full) text.now }
{
    let _ = full;
    let _ = text;
}
