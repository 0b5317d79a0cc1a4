//! Laws of winning declarations, of specificity and of cells. Each function is empty and carries its law.

ghost use Rattle.page_ctx.specs.Laws.{GreatestIsGreatest, WinnersAreGreatest};
ghost use Rattle.page_ctx.specs.Tables.{CellsSuffice};

/// A winning declaration is a greatest one of its property, and the last of equal ones; it is missing only where
/// nothing declares the property, and there is one.
pub fn winners_are_greatest()
    ensures { WinnersAreGreatest }
{}

/// A rule has the greatest specificity of its selectors that take the page; none only where none of them does.
pub fn greatest_is_greatest()
    ensures { GreatestIsGreatest }
{}

/// Pages of one cell are taken by the same selectors.
pub fn cells_suffice()
    ensures { CellsSuffice }
{}
