//! Quoted fields in a table.

/// Where in a row of a table a byte stands, as the crate `csv` reads it.
#[derive(Clone, Copy)]
pub(crate) enum Field {
    /// At the beginning of the text, where the three bytes of a mark may stand.
    First,
    AfterOneOfMark,
    AfterTwoOfMark,
    /// At the beginning of a field, where a quote opens it.
    Start,
    /// In a field that no quote opened.
    Bare,
    /// In a quoted field.
    Quoted,
    /// Behind a quote in a quoted field: it has ended, or another quote follows.
    AfterQuote,
}

impl Field {
    /// Where the byte behind this one stands.
    pub(crate) fn after(self, byte: u8) -> Self {
        match (self, byte) {
            (Field::First, 0xEF) => Field::AfterOneOfMark,
            (Field::AfterOneOfMark, 0xBB) => Field::AfterTwoOfMark,
            (Field::AfterTwoOfMark, 0xBF) => Field::Start,
            (Field::First | Field::Start | Field::AfterQuote, b'"') => Field::Quoted,
            (Field::Quoted, b'"') => Field::AfterQuote,
            (Field::Quoted, _) => Field::Quoted,
            (_, b',' | b'\n' | b'\r') => Field::Start,
            _ => Field::Bare,
        }
    }

    /// Whether a field is open that a quote opened.
    pub(crate) fn is_quoted(self) -> bool {
        matches!(self, Field::Quoted)
    }

    /// Whether a quote that comes next opens a field.
    pub(crate) fn may_open(self) -> bool {
        matches!(self, Field::First | Field::Start)
    }

    /// Whether bytes without a quote leave only a field that no quote opened.
    pub(crate) fn is_bare_without_quotes(self) -> bool {
        matches!(self, Field::Start | Field::Bare | Field::AfterQuote)
    }
}
