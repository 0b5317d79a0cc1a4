//! Names that are kept once.

ghost use Rattle.std.specs.Prelude.{◌≡◌, map};
ghost use Rattle.std.specs.String.{string_bytes};
ghost use Rattle.bk_num.specs.Names.{has_name};

use indexmap::IndexSet;

/// Whether a name is among the names.
pub fn has_name(names: &IndexSet<String>, name: &str) -> bool
    ensures { result ≡ has_name (map (λ k. string_bytes k) names.now.keys) name.now }
{
    names.contains(name)
}
