//! What words can ask for.

/// A book to be formatted. The names are the words themselves.
#[derive(Debug, Drop)]
pub struct Format<'a> {
    /// How many passes may be made, from 1 to 64.
    pub passes: u8,
    /// How many columns a page has, from 1 to 8.
    pub columns: u8,
    /// The gap between columns, in whole px, at most 1,000.
    pub gap: u16,
    /// The name of the patterns text, where one is given.
    pub patterns: Option<&'a str>,
    /// The name of the metrics text.
    pub metrics: &'a str,
    /// The name of the HTML.
    pub html: &'a str,
    /// The names of the sheets, in the order of the words.
    pub sheets: Vec<&'a str>,
}

/// What the words ask for.
#[derive(Debug, Drop)]
pub enum Request<'a> {
    /// A book is formatted.
    Format(Format<'a>),
    /// A sample of so many chapters is formatted, from 1 to 2,000.
    Sample { chapters: u32 },
}
