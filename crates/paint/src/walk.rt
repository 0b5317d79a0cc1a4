//! Goes along a tree from event to event, with the boxes that are open there.

ghost use Rattle.std.specs.Prelude.{◌≡◌, ℕ, ℤ, List, suc, ◌+◌, ◌<◌, ◌≤◌, ◌∷◌, [], length, OnOk, All};
ghost use Rattle.std.specs.Option.{ForSome};
ghost use Rattle.bk_num.specs.Limits.{most_open};
ghost use Rattle.boxes.specs.Tree.{Tree, depth_of, rest_of};
ghost use Rattle.paint.specs.Bounds.{IsGoodOrigin};
ghost use Rattle.paint.specs.Opens.{AreBoxesWithin, AreOpen, opens_of};

use crate::item::SolidOrigin;
use crate::opens::{PlacedBox, innermost};
use bk_num::limits::MOST_OPEN;
use bk_num::name::NoMem;
use boxes::place::Event;
use boxes::span::{content_in, write_chain};
use boxes::tree::BoxTree;

/// Opens a box inside the innermost open one.
fn open_box(
    opens: &mut Vec<PlacedBox>,
    tree: &BoxTree,
    index: u32,
    origin: &SolidOrigin,
) -> Result<(), NoMem>
    requires number { index < length tree.now.boxes }
    requires origin { IsGoodOrigin origin.now }
    requires bounded { AreBoxesWithin opens.old.items }
    requires few { length opens.old.items < most_open }
    ensures are { OnOk result ((boxes : List ℕ) → opens.old.items ≡ opens_of tree.now origin.now.width boxes →
        opens.new.items ≡ opens_of tree.now origin.now.width (index ∷ boxes)) }
    ensures bounded { OnOk result (AreBoxesWithin opens.new.items) }
    ensures count { OnOk result (length opens.new.items ≡ suc (length opens.old.items)) }
{
    // a tree is known to be one by its count
    let _count = tree.count();
    let around = innermost(opens, origin);
    opens.push(PlacedBox {
        number: index,
        content: content_in(tree.props(index), around),
    })?;
    Ok(())
}

/// Closes the innermost open box.
fn close_box(opens: &mut Vec<PlacedBox>)
    requires { AreBoxesWithin opens.old.items }
    ensures are { (t : Tree) (measure : ℤ) (boxes : List ℕ) → opens.old.items ≡ opens_of t measure boxes →
        opens.new.items ≡ opens_of t measure (rest_of boxes) }
    ensures bounded { AreBoxesWithin opens.new.items }
{
    opens.pop();
}

/// Goes past an event.
fn pass(
    opens: &mut Vec<PlacedBox>,
    tree: &BoxTree,
    at: u32,
    origin: &SolidOrigin,
) -> Result<(), NoMem>
    requires within { at < length tree.now.events }
    requires depth { depth_of tree.now.events ≤ most_open }
    requires origin { IsGoodOrigin origin.now }
    requires opens { AreOpen tree.now origin.now at opens.old.items }
    ensures { OnOk result (AreOpen tree.now origin.now (at + 1) opens.new.items) }
{
    // a tree is known to be one by its count
    let _count = tree.count();
    match tree.event(at) {
        Event::Opens(index) => {
            open_box(opens, tree, index, origin)?;
            Ok(())
        }
        Event::Closes(_) => {
            close_box(opens);
            Ok(())
        }
        Event::Leaf(_) => Ok(()),
    }
}

/// Goes from an event to a later one.
fn pass_to(
    opens: &mut Vec<PlacedBox>,
    tree: &BoxTree,
    at: u32,
    to: u32,
    origin: &SolidOrigin,
) -> Result<(), NoMem>
    requires order { at ≤ to }
    requires within { to ≤ length tree.now.events }
    requires depth { depth_of tree.now.events ≤ most_open }
    requires origin { IsGoodOrigin origin.now }
    requires opens { AreOpen tree.now origin.now at opens.old.items }
    ensures { OnOk result (AreOpen tree.now origin.now to opens.new.items) }
{
    for event in at..to {
        pass(opens, tree, event, origin)?;
    }
    Ok(())
}

/// Opens boxes, each inside the next one.
fn open_all(
    opens: &mut Vec<PlacedBox>,
    tree: &BoxTree,
    chain: &[u32],
    origin: &SolidOrigin,
) -> Result<(), NoMem>
    requires none { opens.old.items ≡ [] }
    requires boxes { All (λ b. b < length tree.now.boxes) chain.now }
    requires few { length chain.now ≤ most_open }
    requires origin { IsGoodOrigin origin.now }
    ensures are { OnOk result (opens.new.items ≡ opens_of tree.now origin.now.width chain.now) }
    ensures bounded { OnOk result (AreBoxesWithin opens.new.items) }
{
    let mut at = chain.len();
    while at > 0 {
        at -= 1;
        open_box(opens, tree, chain[at], origin)?;
    }
    Ok(())
}

/// Begins at an event: opens the boxes around it, one after another.
fn begin(
    opens: &mut Vec<PlacedBox>,
    tree: &BoxTree,
    event: u32,
    origin: &SolidOrigin,
) -> Result<(), NoMem>
    requires within { event ≤ length tree.now.events }
    requires depth { depth_of tree.now.events ≤ most_open }
    requires origin { IsGoodOrigin origin.now }
    ensures { OnOk result (AreOpen tree.now origin.now event opens.new.items) }
{
    // a tree is known to be one by its count
    let _count = tree.count();
    opens.clear();
    match tree.around(event) {
        None => Ok(()),
        Some(index) => {
            let mut chain = [0; MOST_OPEN as usize];
            let count = write_chain(tree, index, &mut chain);
            open_all(opens, tree, &chain[..count], origin)?;
            Ok(())
        }
    }
}

/// Goes to an event from the one that was reached, if it isn't earlier, and else begins there.
pub(crate) fn go_to(
    opens: &mut Vec<PlacedBox>,
    tree: &BoxTree,
    reached: Option<u32>,
    to: u32,
    origin: &SolidOrigin,
) -> Result<(), NoMem>
    requires within { to ≤ length tree.now.events }
    requires depth { depth_of tree.now.events ≤ most_open }
    requires origin { IsGoodOrigin origin.now }
    requires opens { ForSome reached (λ at. AreOpen tree.now origin.now at opens.old.items) }
    ensures { OnOk result (AreOpen tree.now origin.now to opens.new.items) }
{
    match reached {
        Some(at) if at <= to => pass_to(opens, tree, at, to, origin),
        _ => begin(opens, tree, to, origin),
    }
}
