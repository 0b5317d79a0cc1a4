//! What decides between two declarations.

ghost use Rattle.std.specs.Prelude.{◌≡◌};
ghost use Rattle.cascade.specs.Weights as spec;

use style::ranking::outranks;

/// What decides between two declarations of a longhand (CSS 2.1, 6.4.1 and 6.4.3), the part that decides first at the
/// top.
#[derive(Clone, Copy, Debug)]
pub struct DeclWeight {
    pub important: bool,
    /// The author's, and not the default sheet's.
    pub author: bool,
    /// Of a style attribute.
    pub styled: bool,
    pub ids: u32,
    pub classes: u32,
    pub types: u32,
    /// The place of the rule among those of all sheets.
    pub rule: u64,
    /// The place of the declaration in the rule.
    pub decl: u64,
    /// The place of the longhand in the declaration.
    pub place: u64,
}

impl DeclWeight {
    /// Its parts as numbers.
    fn ranks(&self) -> [u64; 9]
        ensures { result ≡ spec.ranks_of self.now }
    {
        [
            self.important as u64,
            self.author as u64,
            self.styled as u64,
            self.ids as u64,
            self.classes as u64,
            self.types as u64,
            self.rule,
            self.decl,
            self.place,
        ]
    }

    /// Whether it wins over another.
    pub fn is_above(&self, other: &DeclWeight) -> bool
        ensures { result ≡ spec.is_above self.now other.now }
    {
        outranks(&self.ranks(), &other.ranks())
    }

    /// The weight of a declaration of the rule. What isn't the author's is never important.
    pub fn of_decl(&self, important: bool, decl: u64) -> DeclWeight
        ensures { result ≡ spec.of_decl self.now important decl }
    {
        DeclWeight {
            important: self.author && important,
            decl,
            place: 0,
            ..*self
        }
    }

    /// The weight of a longhand of the declaration.
    pub fn at(&self, place: u64) -> DeclWeight
        ensures { result ≡ spec.at_place self.now place }
    {
        DeclWeight { place, ..*self }
    }

    /// The weight of the declarations of a style attribute (CSS 2.1, 6.4.3).
    pub fn of_style() -> DeclWeight
        ensures { result ≡ spec.of_style }
    {
        DeclWeight {
            important: false,
            author: true,
            styled: true,
            ids: 0,
            classes: 0,
            types: 0,
            rule: 0,
            decl: 0,
            place: 0,
        }
    }
}
