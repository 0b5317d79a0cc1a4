//! The pieces of runs: texts, generated texts, and the texts that elements represent.

ghost use Rattle.std.specs.Prelude.{◌≡◌, ◌<◌, ◌++◌, ◌∷◌, [], length, OnOk};
ghost use Rattle.bk_num.specs.declared.values.Pseudo.TheVariants as pseudo;
ghost use Rattle.box_gen.specs.Flow as spec;
ghost use Rattle.box_gen.specs.declared.inline.InlineText.TheVariants as inline;
ghost use Rattle.box_gen.specs.Flow.{generated_items, styled_in, text_item};
ghost use Rattle.box_gen.specs.Items as item;
ghost use Rattle.box_gen.specs.Items.{text_in};
ghost use Rattle.box_gen.specs.Represented as represented;
ghost use Rattle.box_gen.specs.Sources.{IsNodeOf, source_in};

use crate::faced::FacedStyle;
use crate::inline::{GeneratedText, InlineText, StyledText};
use crate::input::{FlowInput, faced_at};
use crate::represented::represented_text;
use crate::run::InlineRun;
use crate::text_style::text_style;
use bk_num::ids::NodeId;
use bk_num::name::NoMem;
use bk_num::values::Pseudo;
use inline_text::part::BorrowedPart;

/// Adds a text that a style sets.
fn push_styled<'a>(
    faced: &FacedStyle<'_>,
    part: BorrowedPart<'a>,
    run: &mut InlineRun<'a>,
) -> Result<(), NoMem>
    ensures { OnOk result (run.new ≡ run.old ++ styled_in faced.now part.entry ∷ []) }
{
    let style = text_style(faced, part.space());
    run.push_text(InlineText::Own(StyledText { part, style }))
}

/// Adds a text of an element of a style.
pub(crate) fn push_text<'a>(
    faced: &FacedStyle<'_>,
    text: &'a str,
    run: &mut InlineRun<'a>,
) -> Result<(), NoMem>
    ensures { OnOk result (run.new ≡ run.old ++
        styled_in faced.now (record { text = text.entry.now; space = faced.now.style.white_space }) ∷ []) }
{
    let part = BorrowedPart::new(text, faced.style().white_space);
    push_styled(faced, part, run)?;
    Ok(())
}

/// What a pseudo-element of a style will print.
fn generated<'a>(
    input: &FlowInput<'a>,
    node: NodeId,
    pseudo: Pseudo,
    faced: &FacedStyle<'_>,
) -> GeneratedText<'a>
    requires node { node.0 < length input.now.texts.now.dom.now }
    requires faces { faced.now.faces ≡ input.now.faces.now }
    ensures { item.Text (text_in (inline.Generated result)) ≡
        text_item (source_in input.now) faced.now.style ((source_in input.now).generated node.0 pseudo) }
{
    let space = faced.style().white_space;
    GeneratedText {
        texts: input.texts,
        node,
        pseudo,
        space,
        style: text_style(faced, space),
    }
}

/// Adds the text of a pseudo-element that is there.
fn push_generated<'a>(
    input: &FlowInput<'a>,
    node: NodeId,
    pseudo: Pseudo,
    run: &mut InlineRun<'a>,
) -> Result<(), NoMem>
    requires { IsNodeOf input.now node.0 }
    ensures { OnOk result (run.new ≡
        run.old ++ generated_items (source_in input.now) node.0 pseudo) }
{
    match faced_at(input, node, pseudo) {
        None => Ok(()),
        Some(faced) => run.push_text(InlineText::Generated(generated(input, node, pseudo, faced))),
    }
}

/// Adds the text that an element represents.
fn push_represented<'a>(
    input: &FlowInput<'a>,
    node: NodeId,
    faced: &FacedStyle<'_>,
    run: &mut InlineRun<'a>,
) -> Result<(), NoMem>
    requires node { node.0 < length input.now.texts.now.dom.now }
    requires faces { faced.now.faces ≡ input.now.faces.now }
    ensures { OnOk result (run.new ≡
        run.old ++ spec.represented_items (source_in input.now) faced.now.style
        (represented.represented_text input.now.texts.now.dom.now node.0 faced.now.style.white_space)) }
{
    match represented_text(input.texts.dom, node, faced.style().white_space) {
        None => Ok(()),
        Some(part) => {
            push_styled(faced, part, run)?;
            Ok(())
        }
    }
}

/// Adds what stands in an element before its children.
pub(crate) fn push_first<'a>(
    input: &FlowInput<'a>,
    node: NodeId,
    faced: &FacedStyle<'_>,
    run: &mut InlineRun<'a>,
) -> Result<(), NoMem>
    requires node { IsNodeOf input.now node.0 }
    requires faces { faced.now.faces ≡ input.now.faces.now }
    ensures { OnOk result (run.new ≡
        run.old ++ spec.first_items (source_in input.now) faced.now.style node.0) }
{
    push_generated(input, node, Pseudo::Before, run)?;
    push_represented(input, node, faced, run)?;
    Ok(())
}

/// Adds the text of the call of a note.
pub(crate) fn push_call<'a>(
    input: &FlowInput<'a>,
    node: NodeId,
    run: &mut InlineRun<'a>,
) -> Result<(), NoMem>
    requires { IsNodeOf input.now node.0 }
    ensures { OnOk result (run.new ≡
        run.old ++ generated_items (source_in input.now) node.0 pseudo.Call) }
{
    push_generated(input, node, Pseudo::Call, run)?;
    Ok(())
}

/// Adds what stands in a note before its children: its marker first.
pub(crate) fn push_note_first<'a>(
    input: &FlowInput<'a>,
    node: NodeId,
    faced: &FacedStyle<'_>,
    run: &mut InlineRun<'a>,
) -> Result<(), NoMem>
    requires node { IsNodeOf input.now node.0 }
    requires faces { faced.now.faces ≡ input.now.faces.now }
    ensures { OnOk result (run.new ≡
        run.old ++ spec.note_first_items (source_in input.now) faced.now.style node.0) }
{
    push_generated(input, node, Pseudo::Marker, run)?;
    push_first(input, node, faced, run)?;
    Ok(())
}

/// Adds what stands in an element after its children.
pub(crate) fn push_last<'a>(
    input: &FlowInput<'a>,
    node: NodeId,
    run: &mut InlineRun<'a>,
) -> Result<(), NoMem>
    requires { IsNodeOf input.now node.0 }
    ensures { OnOk result (run.new ≡
        run.old ++ spec.last_items (source_in input.now) node.0) }
{
    push_generated(input, node, Pseudo::After, run)?;
    Ok(())
}
