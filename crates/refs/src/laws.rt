//! What holds of all tables. Each function is empty and carries one law.

ghost use Rattle.refs.specs.Differences.{AreDifferences};
ghost use Rattle.refs.specs.Tables.{ElementsHavePages, ReferencesFindNumbers, TablesHaveNodes, TargetsAscend};

/// Two tables have one first difference at most, and equal ones have none.
pub fn one_difference()
    ensures { AreDifferences }
{}

/// The table of a page list and the one before there are pages have the nodes that they are made for, in order.
pub fn tables_have_nodes()
    ensures { TablesHaveNodes }
{}

/// A reference to one of the nodes finds the number of the page on which its element begins.
pub fn references_find_numbers()
    ensures { ReferencesFindNumbers }
{}

/// Where there is a page, an element that the flow has begins on one of the list, and has its number.
pub fn elements_have_pages()
    ensures { ElementsHavePages }
{}

/// The targets of a document's references, which rise strictly, meet the condition of tables.
pub fn targets_ascend()
    ensures { TargetsAscend }
{}
