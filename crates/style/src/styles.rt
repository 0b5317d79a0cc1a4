//! The styles of a document's nodes and of their pseudo-elements.

ghost use Rattle.std.specs.Prelude.{◌≡◌, ◌<◌, ◌+◌, [], ◌∷◌, ◌++◌, OnOk, OnErr, IfOk, IfSome, None, Some, option_map, length, slice_get};
ghost use Rattle.style.specs.NodeFields.{numbers_of, with_number};
ghost use Rattle.style.specs.Nodes.{no_styles, own_style, style_at, with_style, change_last, is_shown_in, is_note_in, is_in_note_in, number_in, number_at, AddsLike, AreNumberedBy};

use crate::style::Style;
use bk_num::ids::NodeId;
use bk_num::name::NoMem;
use bk_num::values::Pseudo;
use std::alloc::Global;
use std::marker::Model;

/// A node's styles, by their numbers.
#[derive(Clone, Copy)]
pub(crate) struct NodeRow {
    own: Option<u32>,
    before: Option<u32>,
    after: Option<u32>,
    call: Option<u32>,
    marker: Option<u32>,
    shown: bool,
    note: bool,
    in_note: bool,
}

/// The styles of nodes, by the numbers of the nodes. Contracts see the list of what each node has.
#[derive(Drop)]
pub struct Styles {
    styles: Vec<Style>,
    rows: Vec<NodeRow>,
}

impl Model for Styles {
    ghost use Rattle.std.specs.Prelude.{List};
    ghost use Rattle.style.specs.Nodes.{NodeStyles};

    ghost Value = { List NodeStyles };

    ghost use Rattle.style.specs.NodeFields.{nodes_of, RowsHaveStyles};

    ghost view = { nodes_of };

    ghost invariant = { RowsHaveStyles };
}

/// The styles that are kept of nodes, by numbers, and which node has which. What follows from a style alone need be
/// found only once for each. Contracts see the styles, and their numbers at nodes and pseudo-elements.
#[derive(Drop)]
pub struct StyleTable<'a> {
    styles: &'a [Style],
    rows: &'a [NodeRow],
}

impl<'a> Model for StyleTable<'a> {
    ghost use Rattle.style.specs.Nodes.{NumberedStyles};

    ghost Value = { NumberedStyles };

    ghost use Rattle.style.specs.NodeFields.{table_of, TableHasStyles};

    ghost view = { table_of };

    ghost invariant = { TableHasStyles };
}

impl<'a> StyleTable<'a> {
    /// The styles, by their numbers.
    pub fn styles(&self) -> &'a [Style]
        ensures { result.now ≡ self.now.styles }
    {
        self.styles
    }

    /// The number of the style of a node, or of a pseudo-element of it; None exactly where it has none.
    pub fn number(&self, node: NodeId, pseudo: Pseudo) -> Option<u32>
        ensures number { result ≡ number_at self.now.nodes node.0 pseudo }
        ensures below { IfSome result (λ i. i < length self.now.styles) }
    {
        self.rows.get(node.0 as usize)?.number(pseudo)
    }
}

impl Styles {
    /// The styles of no nodes.
    pub fn new(alloc: Global) -> Styles
        ensures { result ≡ [] }
    {
        Styles {
            styles: Vec::new(alloc),
            rows: Vec::new(alloc),
        }
    }

    /// The style of a node, or of a pseudo-element of it; None exactly where the list has none.
    pub fn of(&self, node: NodeId, pseudo: Pseudo) -> Option<&Style>
        ensures { option_map (λ s. s.now) result ≡ style_at self.now node.0 pseudo }
    {
        let number = self.rows.get(node.0 as usize)?.number(pseudo)?;
        self.styles.get(number as usize)
    }

    /// The styles that are kept, by their numbers. It takes no memory.
    pub fn table(&self) -> StyleTable<'_>
        ensures { AreNumberedBy result self.now }
    {
        StyleTable {
            styles: &self.styles,
            rows: &self.rows,
        }
    }

    /// Whether a node is an element that is shown.
    pub fn is_shown(&self, node: NodeId) -> bool
        ensures { result ≡ is_shown_in (slice_get self.now node.0) }
    {
        match self.rows.get(node.0 as usize) {
            Some(row) => row.shown,
            None => false,
        }
    }

    /// Whether a node is a note element.
    pub fn is_note(&self, node: NodeId) -> bool
        ensures { result ≡ is_note_in (slice_get self.now node.0) }
    {
        match self.rows.get(node.0 as usize) {
            Some(row) => row.note,
            None => false,
        }
    }

    /// Whether a node is a note element or stands in one.
    pub fn is_in_note(&self, node: NodeId) -> bool
        ensures { result ≡ is_in_note_in (slice_get self.now node.0) }
    {
        match self.rows.get(node.0 as usize) {
            Some(row) => row.in_note,
            None => false,
        }
    }

    /// Adds a text, which has no style.
    pub fn add_text(&mut self) -> Result<(), NoMem>
        ensures ok { OnOk result (self.new ≡ self.old ++ no_styles ∷ []) }
        ensures err { OnErr result (self.new ≡ self.old) }
    {
        let row = NodeRow {
            own: None,
            before: None,
            after: None,
            call: None,
            marker: None,
            shown: false,
            note: false,
            in_note: false,
        };
        push_row(&mut self.rows, row)
    }

    /// Adds a node that has all that an earlier one has. It takes the memory of a row of numbers.
    pub fn add_like(&mut self, node: NodeId) -> Result<(), NoMem>
        requires { node.0 < length self.old }
        ensures ok { OnOk result (AddsLike self.old node.0 self.new) }
        ensures err { OnErr result (self.new ≡ self.old) }
    {
        let row = self.rows[node.0 as usize];
        push_row(&mut self.rows, row)
    }

    /// Adds an element without pseudo-elements.
    pub fn add_element(
        &mut self,
        style: Style,
        shown: bool,
        note: bool,
        in_note: bool,
    ) -> Result<(), NoMem>
        ensures ok { OnOk result (self.new ≡ self.old ++ own_style style shown note in_note ∷ []) }
        ensures err { OnErr result (self.new ≡ self.old) }
    {
        let number = push_style(&mut self.styles, style)?;
        let row = NodeRow {
            own: Some(number),
            before: None,
            after: None,
            call: None,
            marker: None,
            shown,
            note,
            in_note,
        };
        push_row(&mut self.rows, row)
    }

    /// Gives the node that was added last a style, of a pseudo-element or its own.
    pub fn put(&mut self, pseudo: Pseudo, style: Style) -> Result<(), NoMem>
        requires { 0 < length self.old }
        ensures ok { OnOk result (self.new ≡ change_last (with_style pseudo style) self.old) }
        ensures err { OnErr result (self.new ≡ self.old) }
    {
        let number = push_style(&mut self.styles, style)?;
        put_last(&mut self.rows, pseudo, number);
        Ok(())
    }
}

/// Adds a style at the end, and answers its number.
fn push_style(styles: &mut Vec<Style>, style: Style) -> Result<u32, NoMem>
    ensures number { IfOk result (λ n. n ≡ length styles.old.items) }
    ensures ok { OnOk result (styles.new.items ≡ styles.old.items ++ style ∷ []) }
    ensures err { OnErr result (styles.new.items ≡ styles.old.items) }
{
    let Ok(number) = u32::try_from(styles.len()) else {
        return Err(NoMem);
    };
    match styles.push(style) {
        Ok(_) => Ok(number),
        Err(_) => Err(NoMem),
    }
}

fn push_row(rows: &mut Vec<NodeRow>, row: NodeRow) -> Result<(), NoMem>
    ensures ok { OnOk result (rows.new.items ≡ rows.old.items ++ row ∷ []) }
    ensures err { OnErr result (rows.new.items ≡ rows.old.items) }
{
    match rows.push(row) {
        Ok(_) => Ok(()),
        Err(_) => Err(NoMem),
    }
}

fn put_last(rows: &mut Vec<NodeRow>, pseudo: Pseudo, number: u32)
    requires { 0 < length rows.old.items }
    ensures { rows.new.items ≡ change_last (with_number pseudo number) rows.old.items }
{
    let last = rows.len() - 1;
    let row = &mut rows[last];
    row.put(pseudo, number);
}

impl NodeRow {
    fn number(&self, pseudo: Pseudo) -> Option<u32>
        ensures { result ≡ number_in (numbers_of self.now) pseudo }
    {
        match pseudo {
            Pseudo::Element => self.own,
            Pseudo::Before => self.before,
            Pseudo::After => self.after,
            Pseudo::Call => self.call,
            Pseudo::Marker => self.marker,
        }
    }

    fn put(&mut self, pseudo: Pseudo, number: u32)
        ensures { self.new ≡ with_number pseudo number self.old }
    {
        match pseudo {
            Pseudo::Element => self.own = Some(number),
            Pseudo::Before => self.before = Some(number),
            Pseudo::After => self.after = Some(number),
            Pseudo::Call => self.call = Some(number),
            Pseudo::Marker => self.marker = Some(number),
        }
    }
}
