//! The parts of a sheet in the order of its text.

ghost use Rattle.std.specs.Prelude.{◌≡◌, ◌++◌, map, option_to_list, option_map, IfOk, OnOk};
ghost use Rattle.unread_list.specs.Steps.{placed_in};
ghost use Rattle.unread_list.specs.Parts.{parts_of};

use crate::part::{Mode, Placed, State};
use crate::reader::Lines;
use crate::steps::pass;
use bk_num::name::NoMem;
use std::alloc::Global;

/// Appends a part, if there is one.
fn push_some<'a>(parts: &mut Vec<Placed<'a>>, part: Option<Placed<'a>>) -> Result<(), NoMem>
    ensures { OnOk result (map placed_in parts.new.items ≡
        map placed_in parts.old.items ++ option_to_list (option_map placed_in part.entry)) }
{
    if let Some(part) = part {
        parts.push(part)?;
    }
    Ok(())
}

/// The parts of a sheet in the order of its text, each with its line: the selectors of its rulesets and page rules, the
/// pieces of their blocks, and what gives nothing. It takes time in proportion to the text.
pub fn sheet_parts<'a>(alloc: Global, text: &'a str) -> Result<Vec<Placed<'a>>, NoMem>
    ensures { IfOk result (λ v. map placed_in v.items ≡ parts_of text.now) }
{
    let mut lines = Lines::new(text);
    let mut tokens = Vec::new(alloc);
    let mut parts = Vec::new(alloc);
    let mut state = State {
        inside: false,
        mode: Mode::Rules,
    };
    while !lines.tokens.rest.is_empty() {
        let step = pass(alloc, state, &mut lines, &mut tokens)?;
        push_some(&mut parts, step.part)?;
        state = step.state;
    }
    Ok(parts)
}
