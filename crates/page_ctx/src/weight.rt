//! What decides between two declarations for a page.

ghost use Rattle.std.specs.Prelude.{◌≡◌};
ghost use Rattle.page_ctx.specs.Weights as spec;

use css_page::selectors::PageSelector;
use style::ranking::outranks;

/// What decides between two declarations for a page (css-page-3, 3 and 4; CSS 2.1, 6.4), the part that decides first at
/// the top.
#[derive(Clone, Copy, Debug)]
pub struct PageWeight {
    pub important: bool,
    /// The selector has a name.
    pub named: bool,
    /// How many of `:first` and `:blank` it has.
    pub pages: u64,
    /// How many of `:left` and `:right` it has.
    pub sides: u64,
}

impl PageWeight {
    /// Its parts as numbers.
    fn ranks(&self) -> [u64; 4]
        ensures { result ≡ spec.ranks_of self.now }
    {
        [
            self.important as u64,
            self.named as u64,
            self.pages,
            self.sides,
        ]
    }

    /// Whether it wins over another.
    pub fn is_above(&self, other: &PageWeight) -> bool
        ensures { result ≡ spec.is_above self.now other.now }
    {
        outranks(&self.ranks(), &other.ranks())
    }

    /// The weight of a declaration of the rule.
    pub fn of_decl(&self, important: bool) -> PageWeight
        ensures { result ≡ spec.of_decl self.now important }
    {
        PageWeight { important, ..*self }
    }
}

/// The specificity of a selector.
pub(crate) fn specificity(selector: &PageSelector) -> PageWeight
    ensures { result ≡ spec.specificity selector.now }
{
    PageWeight {
        important: false,
        named: selector.name.is_some(),
        pages: selector.firsts as u64 + selector.blanks as u64,
        sides: selector.lefts as u64 + selector.rights as u64,
    }
}

/// The greater of two weights.
pub(crate) fn greater(best: Option<PageWeight>, weight: PageWeight) -> Option<PageWeight>
    ensures { result ≡ spec.greater best weight }
{
    match best {
        None => Some(weight),
        Some(old) => {
            if weight.is_above(&old) {
                Some(weight)
            } else {
                Some(old)
            }
        }
    }
}
