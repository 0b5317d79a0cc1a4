//! Laws of tokens, for the crates above. Each function is empty and carries its laws.

ghost use Rattle.css_tok.specs.Readings.{NoneIsLonger, TokenIsReading, OnlyDelimTies};

/// The token at the start of a text is its longest reading, and no other kind has one of that length, but for a single
/// character.
pub fn longest_reading_counts()
    ensures longest { NoneIsLonger }
    ensures reading { TokenIsReading }
    ensures ties { OnlyDelimTies }
{}
