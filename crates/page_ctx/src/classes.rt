//! Which pages a page selector takes (css-page-3, 3).

ghost use Rattle.std.specs.Prelude.{◌≡◌};
ghost use Rattle.page_ctx.specs.Selectors as spec;

use css_page::selectors::PageSelector;

/// The pseudo-classes that a page has. A page that isn't a left page is a right page.
#[derive(Clone, Copy, Debug, PartialEq, Eq)]
pub struct PageClasses {
    pub first: bool,
    pub left: bool,
    pub blank: bool,
}

/// Whether a pseudo-class holds, if it stands in a selector.
fn holds_if(count: u32, holds: bool) -> bool
    ensures { result ≡ spec.holds_if count holds }
{
    count == 0 || holds
}

/// Whether a page has each pseudo-class of a selector.
pub(crate) fn takes_classes(selector: &PageSelector, classes: PageClasses) -> bool
    ensures { result ≡ spec.takes_classes selector.now classes }
{
    let first = holds_if(selector.firsts, classes.first);
    let blank = holds_if(selector.blanks, classes.blank);
    let left = holds_if(selector.lefts, classes.left);
    let right = holds_if(selector.rights, !classes.left);
    (first && blank) && (left && right)
}
