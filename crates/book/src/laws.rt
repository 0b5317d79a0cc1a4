//! Laws of what is expected of words over a shelf: that it is one, and that it decides the answer. Each function
//! carries laws, and changes nothing.

ghost use Rattle.book.specs.Laws.{AnswersFollowEnds, AnswersFollowWords, ExpectedIsTree, HasOneBook, HasOneEnd, OneBookIsExpected, OneColumnHasNoGap, OneColumnIsExpected, OneColumnIsThePage, OneEndIsExpected, OnlyMemoryAnswersAll};
ghost use Rattle.book.specs.Run.{OneIsExpected};

use computed::laws::styles_are_one;
use css_rules::sheet::one_reading;
use gen_text::laws::targets_are_one;
use html_tree::laws::texts_are_trees;
use page_list::laws::pages_are_numbered;
use page_seq::laws::one_is_a_page;
use passes::laws::one_end;
use sheets::laws::page_rules_are_one;

/// One thing is expected of words over a shelf.
pub fn one_is_expected()
    ensures { OneIsExpected }
{
    one_reading();
}

/// The passes over a document whose nodes are a tree end in one way, and it has one book.
pub fn one_book()
    ensures end { HasOneEnd }
    ensures book { HasOneBook }
{
    one_reading();
    styles_are_one();
    targets_are_one();
    page_rules_are_one();
    one_end();
}

/// The nodes of a document that is expected of words over a shelf are a tree. So one end of the passes is expected, and
/// one book.
pub fn one_book_is_expected()
    ensures tree { ExpectedIsTree }
    ensures end { OneEndIsExpected }
    ensures book { OneBookIsExpected }
{
    one_is_expected();
    one_book();
    texts_are_trees();
}

/// In one column the frames of a book are its pages, in the frames that its page rules give, and the gap between
/// columns changes nothing of it. So words that ask for one column lead to one book with each gap.
pub fn one_column()
    ensures page { OneColumnIsThePage }
    ensures gap { OneColumnHasNoGap }
    ensures words { OneColumnIsExpected }
{
    pages_are_numbered();
    one_is_a_page();
    one_book();
    one_is_expected();
    one_book_is_expected();
}

/// How the passes over the document that is expected end decides the answer of a run, want of memory and the faults of
/// shelf and sink aside. So NotSettled and the limits of text and of pages come exactly where the passes end so.
pub fn answers_follow_ends()
    ensures { AnswersFollowEnds }
{
    one_is_expected();
    one_book_is_expected();
}

/// Words that ask for nothing are answered with their fault, want of memory aside. So no other answer is that of all
/// words: a run that always answers the same isn't one.
pub fn answers_follow_words()
    ensures refused { AnswersFollowWords }
    ensures all { OnlyMemoryAnswersAll }
{}
