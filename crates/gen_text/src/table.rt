//! The numbers that page references print.

ghost use Rattle.std.specs.Prelude.{◌≡◌, ◌<◌, ◌≤◌, ◌++◌, ℕ, Some, OnOk, OnErr, option_map, slice_get, string_bytes};
ghost use Rattle.counters.specs.Numerals.{numeral_of};
ghost use Rattle.gen_text.specs.Table.{Ascend, number_in, number_for, page_text};
ghost use Rattle.gen_text.specs.declared.table.Entry.{Entry};

use bk_num::ids::NodeId;
use bk_num::items::Items;
use bk_num::name::NoMem;
use bk_num::values::NumStyle;
use counters::numeral::numeral_text;
use std::alloc::Global;
use std::marker::Model;

/// The number of a target's page.
#[derive(Clone, Copy, Debug, PartialEq, Eq)]
pub struct Entry {
    pub node: NodeId,
    pub number: i64,
}

/// Numbers of pages by targets, nodes ascending. Contracts see the list of entries.
#[derive(Drop)]
pub struct Table {
    entries: Items<Entry>,
}

impl Model for Table {
    ghost use Rattle.std.specs.Prelude.{List};
    ghost use Rattle.gen_text.specs.declared.table.Entry.{Entry};

    ghost Value = { List Entry };

    ghost use Rattle.gen_text.specs.Table.{entries_of, IsSoundTable};

    ghost view = { entries_of };

    ghost invariant = { IsSoundTable };
}

impl Table {
    /// The table of these entries. It takes no memory.
    pub fn of(entries: Items<Entry>) -> Table
        requires { Ascend entries }
        ensures { result ≡ entries }
    {
        Table { entries }
    }

    /// The entries in order.
    pub fn as_slice(&self) -> &[Entry]
        ensures entries { result.now ≡ self.now }
        ensures ascend { Ascend self.now }
    {
        self.entries.as_slice()
    }

    /// The number of a node; None exactly where the table has none. It costs a binary search.
    pub fn number(&self, node: NodeId) -> Option<i64>
        ensures { result ≡ number_in self.now node.0 }
    {
        number(self.as_slice(), node.0)
    }
}

fn number(entries: &[Entry], node: u32) -> Option<i64>
    requires { Ascend entries.now }
    ensures { result ≡ number_in entries.now node }
{
    let Some(entry) = entry_at(entries, count_before(entries, node)) else {
        return None;
    };
    if entry.node.0 == node {
        Some(entry.number)
    } else {
        None
    }
}

fn entry_at(entries: &[Entry], index: usize) -> Option<Entry>
    ensures { result ≡ slice_get entries.now index }
{
    entries.get(index).copied()
}

/// How many entries are of earlier nodes.
fn count_before(entries: &[Entry], node: u32) -> usize
    requires { Ascend entries.now }
    ensures before { (k : ℕ) (x : Entry) → k < result → slice_get entries.now k ≡ Some x → x.node.0 < node }
    ensures after { (k : ℕ) (x : Entry) → result ≤ k → slice_get entries.now k ≡ Some x → node ≤ x.node.0 }
{
    entries.partition_point(|entry| entry.node.0 < node)
}

/// Appends a text.
///
/// # Errors
///
/// `NoMem`, and then `into` is as before.
pub fn print_text(text: &str, into: &mut String) -> Result<(), NoMem>
    ensures ok { OnOk result (string_bytes into.new ≡ string_bytes into.old ++ text.now) }
    ensures err { OnErr result (string_bytes into.new ≡ string_bytes into.old) }
{
    match into.push_str(text) {
        Ok(_) => Ok(()),
        Err(_) => Err(NoMem),
    }
}

/// Appends a number in a style.
///
/// # Errors
///
/// `NoMem`, and then `into` is as before.
pub fn print_number(
    alloc: Global,
    number: i64,
    style: NumStyle,
    into: &mut String,
) -> Result<(), NoMem>
    ensures ok { OnOk result (string_bytes into.new ≡ string_bytes into.old ++ numeral_of style number) }
    ensures err { OnErr result (string_bytes into.new ≡ string_bytes into.old) }
{
    let text = numeral_text(alloc, number, style)?;
    print_text(text.as_str(), into)
}

/// Appends what a page reference prints: the number of its target in a style, or nothing where there is no target or
/// the table has none for it.
///
/// # Errors
///
/// `NoMem`, and then `into` is as before.
pub fn print_page(
    alloc: Global,
    table: &Table,
    target: Option<NodeId>,
    style: NumStyle,
    into: &mut String,
) -> Result<(), NoMem>
    ensures ok { OnOk result (string_bytes into.new ≡ string_bytes into.old ++
        page_text table.now (option_map (λ n. n.0) target) style) }
    ensures err { OnErr result (string_bytes into.new ≡ string_bytes into.old) }
{
    match numbered(table, target) {
        Some(number) => print_number(alloc, number, style, into),
        None => Ok(()),
    }
}

fn numbered(table: &Table, target: Option<NodeId>) -> Option<i64>
    ensures { result ≡ number_for table.now (option_map (λ n. n.0) target) }
{
    match target {
        Some(node) => table.number(node),
        None => None,
    }
}
