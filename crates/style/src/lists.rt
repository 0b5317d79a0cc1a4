//! Lists that longhands hold: families, counters, named strings.

ghost use Rattle.std.specs.Prelude.{◌≡◌, ◌<◌, ◌≤◌, [], ◌∷◌, ◌++◌, IfOk, OnOk, OnErr, codes, length, unsigned_abs};
ghost use Rattle.bk_num.specs.Written.{most_whole};
ghost use Rattle.style.specs.Counters as spec;
ghost use Rattle.style.specs.Counters.{AreCounters, LimitAgrees, most_counters};

use crate::content::Content;
use bk_num::name::{Name, NoMem};
use std::alloc::Global;
use std::marker::Model;

/// The most counters of a list.
pub const MOST_COUNTERS: u32 = 64;

/// The limit is the one that specs name.
pub fn limit_agrees()
    ensures { LimitAgrees }
{}

/// Whether a counter is `page`, which counts pages and no elements (css-page-3, 7.1).
pub fn is_page_counter(name: &str) -> bool
    ensures { result ≡ spec.is_page_counter name.now }
{
    name == "page"
}

/// The families of a font, the wanted one first. Contracts see the list of their names.
#[derive(Drop)]
pub struct Families {
    names: Vec<Name>,
}

impl Model for Families {
    ghost use Rattle.std.specs.Prelude.{List, ℕ};

    ghost Value = { List (List ℕ) };

    ghost view = { λ f. f.names.items };
}

impl Families {
    /// The list of these names. It takes no memory.
    pub fn of(names: Vec<Name>) -> Families
        ensures { result ≡ names.items }
    {
        Families { names }
    }

    /// The family `serif` alone.
    pub fn serif(alloc: Global) -> Result<Families, NoMem>
        ensures { IfOk result (λ families. families ≡ codes "serif" ∷ []) }
    {
        let mut names = Vec::new(alloc);
        names.push(Name::new(alloc, "serif")?)?;
        Ok(Families { names })
    }

    /// The names in order.
    pub fn as_slice(&self) -> &[Name]
        ensures { result.now ≡ self.now }
    {
        self.names.as_slice()
    }

    /// An equal list.
    pub fn copy(&self, alloc: Global) -> Result<Families, NoMem>
        ensures { IfOk result (λ families. families ≡ self.now) }
    {
        let mut names = Vec::new(alloc);
        for name in &self.names {
            names.push(name.copy()?)?;
        }
        Ok(Families { names })
    }
}

/// Counters with numbers, as `counter-reset` and `counter-increment` have them: at most `MOST_COUNTERS`, each number
/// within `MOST_WHOLE` either way. Contracts see the list.
#[derive(Drop)]
pub struct CounterList {
    entries: Vec<(Name, i64)>,
}

impl Model for CounterList {
    ghost use Rattle.std.specs.Prelude.{List, ℕ, ℤ};
    ghost use Rattle.style.specs.Counters.{AreCounters};

    ghost Value = { List (List ℕ × ℤ) };

    ghost view = { λ c. c.entries.items };

    ghost invariant = { λ c. AreCounters c.entries.items };
}

impl CounterList {
    /// The list without counters.
    pub fn new(alloc: Global) -> CounterList
        ensures { result ≡ [] }
    {
        CounterList {
            entries: Vec::new(alloc),
        }
    }

    /// The counters in order.
    pub fn as_slice(&self) -> &[(Name, i64)]
        ensures list { result.now ≡ self.now }
        ensures counters { AreCounters result.now }
    {
        self.entries.as_slice()
    }

    /// Adds a counter at the end.
    pub fn push(&mut self, name: Name, number: i64) -> Result<(), NoMem>
        requires room { length self.old < most_counters }
        requires number { unsigned_abs number ≤ most_whole }
        ensures ok { OnOk result (self.new ≡ self.old ++ (name, number) ∷ []) }
        ensures err { OnErr result (self.new ≡ self.old) }
    {
        match self.entries.push((name, number)) {
            Ok(_) => Ok(()),
            Err(_) => Err(NoMem),
        }
    }

    /// An equal list.
    pub fn copy(&self, alloc: Global) -> Result<CounterList, NoMem>
        ensures { IfOk result (λ counters. counters ≡ self.now) }
    {
        let mut entries = Vec::new(alloc);
        for entry in &self.entries {
            entries.push((entry.0.copy()?, entry.1))?;
        }
        Ok(CounterList { entries })
    }
}

/// Named strings with their contents, as `string-set` has them. Contracts see the list.
#[derive(Drop)]
pub struct StringSets {
    entries: Vec<(Name, Content)>,
}

impl Model for StringSets {
    ghost use Rattle.std.specs.Prelude.{List, ℕ};
    ghost use Rattle.style.specs.declared.content.Part.{Part};

    ghost Value = { List (List ℕ × List Part) };

    ghost view = { λ s. s.entries.items };
}

impl StringSets {
    /// The list without strings.
    pub fn new(alloc: Global) -> StringSets
        ensures { result ≡ [] }
    {
        StringSets {
            entries: Vec::new(alloc),
        }
    }

    /// The list of these strings. It takes no memory.
    pub fn of(entries: Vec<(Name, Content)>) -> StringSets
        ensures { result ≡ entries.items }
    {
        StringSets { entries }
    }

    /// The strings in order.
    pub fn as_slice(&self) -> &[(Name, Content)]
        ensures { result.now ≡ self.now }
    {
        self.entries.as_slice()
    }

    /// An equal list.
    pub fn copy(&self, alloc: Global) -> Result<StringSets, NoMem>
        ensures { IfOk result (λ strings. strings ≡ self.now) }
    {
        let mut entries = Vec::new(alloc);
        for entry in &self.entries {
            entries.push((entry.0.copy()?, entry.1.copy(alloc)?))?;
        }
        Ok(StringSets { entries })
    }
}
