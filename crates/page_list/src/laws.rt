//! What holds of all page lists. Each function is empty and carries one law.

ghost use Rattle.page_list.specs.Laws.{BreaksHold, LinesStandAtPlaces, MainStandsOnce, NotesBeginInTime, NotesStandOnce, PagesAreFew, PagesAreNumbered, PagesEndInside};
ghost use Rattle.page_list.specs.Looked.{HaveOneLooked};
ghost use Rattle.page_list.specs.Pages.{HasOnePageList, HasSomePageList, LeavesNothing};

/// Two page lists of one flow are equal.
pub fn one_page_list()
    ensures { HasOnePageList }
{}

/// A flow has a page list, however long it is, over frames that meet each demand. By `one_page_list` it has no other.
pub fn page_list_is_there()
    ensures { HasSomePageList }
{}

/// A flow with a page list has nothing unplaced after as many pages, or after more.
pub fn a_page_list_leaves_nothing()
    ensures { LeavesNothing }
{}

/// Each edge of the main tree stands on the pages once and in order, and lines part the text of each leaf.
pub fn main_stands_once()
    ensures { MainStandsOnce }
{}

/// Each note stands on the pages once, whole and in the order of calls.
pub fn notes_stand_once()
    ensures { NotesStandOnce }
{}

/// What stands of a leaf on the pages begins and ends at places at which its lines may.
pub fn lines_stand_at_places()
    ensures { LinesStandAtPlaces }
{}

/// No note begins on a page before its call's; on pages of the levels 0 to 2 each called note begins.
pub fn notes_begin_in_time()
    ensures { NotesBeginInTime }
{}

/// Each forced break stands between two pages, and the page after it meets the demand.
pub fn breaks_hold()
    ensures { BreaksHold }
{}

/// The pages of a list have the indexes from 1 on.
pub fn pages_are_numbered()
    ensures { PagesAreNumbered }
{}

/// On pages of the levels 0 to 2 the solids end inside the frame and above the notes.
pub fn pages_end_inside()
    ensures { PagesEndInside }
{}

/// At most a page for each edge and each character, and blank pages before the sides that are asked.
pub fn pages_are_few()
    ensures { PagesAreFew }
{}

/// A page may look at one number of lines.
pub fn looked_lines_are_one()
    ensures { HaveOneLooked }
{}
