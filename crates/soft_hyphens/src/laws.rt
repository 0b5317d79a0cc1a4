//! Laws of texts with soft hyphens. Each function is empty and carries one law.

ghost use Rattle.soft_hyphens.specs.Laws.{NothingIsPut, TextsJoin, WordsAreLongest};

/// The whole text is the text without, with a soft hyphen at each place at which one is put, and at no other.
pub fn texts_join()
    ensures { TextsJoin }
{}

/// Where no word has a point, all texts stay.
pub fn nothing_is_put()
    ensures { NothingIsPut }
{}

/// The word round a place is the longest run of characters of words there.
pub fn words_are_longest()
    ensures { WordsAreLongest }
{}
