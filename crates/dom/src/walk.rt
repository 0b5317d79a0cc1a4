//! The walk through a document in tree order.
ghost use Rattle.std.specs.Prelude.{◌≡◌, ◌<◌, [], ◌∷◌, Some, length, IfSome, IfNone};
ghost use Rattle.dom.specs.Nodes.{IsTree, parents_of};
ghost use Rattle.dom.specs.Walk.{steps_of, node_of};
ghost use Rattle.dom.specs.WalkFields.{steps_from};
ghost use Rattle.dom.specs.declared.walk.Step.TheVariants.{Enter, Leave};

use crate::dom::Dom;
use bk_num::ids::NodeId;
use std::marker::Model;

/// A step of a walk. Each node is entered once, and left once after all nodes below it.
#[derive(Clone, Copy, Debug, PartialEq, Eq)]
pub enum Step {
    Enter(NodeId),
    Leave(NodeId),
}

/// A walk through a document in tree order. It takes no memory, and a step takes the same time wherever it is.
/// Contracts see the tree and the steps that are left.
#[derive(Drop)]
pub struct Walk<'a> {
    dom: &'a Dom,
    next: Option<Step>,
}

impl<'a> Model for Walk<'a> {
    ghost use Rattle.dom.specs.Walk.{WalkView};

    ghost Value = { WalkView };

    ghost use Rattle.dom.specs.WalkFields.{walk_of, IsSoundWalk};

    ghost view = { walk_of };

    ghost invariant = { IsSoundWalk };
}

impl<'a> Walk<'a> {
    /// The walk through the whole document. It begins by entering node 0 and ends by leaving it.
    pub fn new(dom: &'a Dom) -> Walk<'a>
        ensures nodes { result.nodes ≡ dom.entry.now }
        ensures steps { result.steps ≡ steps_of dom.entry.now }
    {
        Walk {
            dom,
            next: Some(Step::Enter(dom.root())),
        }
    }

    /// The next step, and None exactly at the end.
    pub fn next(&mut self) -> Option<Step>
        ensures some { IfSome result (λ s. self.old.steps ≡ s ∷ self.new.steps) }
        ensures none { IfNone result ((self.old.steps ≡ []) × (self.new.steps ≡ [])) }
        ensures within { IfSome result (λ s. node_of s < length self.old.nodes) }
        ensures nodes { self.new.nodes ≡ self.old.nodes }
    {
        let step = self.next?;
        self.next = match step {
            Step::Enter(node) => Some(step_inside(self.dom, node)),
            Step::Leave(node) => step_beyond(self.dom, node),
        };
        Some(step)
    }
}

/// The step after a node was entered.
fn step_inside(dom: &Dom, node: NodeId) -> Step
    requires tree { IsTree dom.now }
    requires within { node.0 < length dom.now }
    ensures steps { steps_from (parents_of dom.now) (Some (Enter node))
        ≡ Enter node ∷ steps_from (parents_of dom.now) (Some result) }
    ensures within { node_of result < length dom.now }
{
    match dom.first_child(node) {
        Some(child) => Step::Enter(child),
        None => Step::Leave(node),
    }
}

/// The step after a node was left.
fn step_beyond(dom: &Dom, node: NodeId) -> Option<Step>
    requires tree { IsTree dom.now }
    requires within { node.0 < length dom.now }
    ensures steps { steps_from (parents_of dom.now) (Some (Leave node))
        ≡ Leave node ∷ steps_from (parents_of dom.now) result }
    ensures within { IfSome result (λ s. node_of s < length dom.now) }
{
    match dom.next_sibling(node) {
        Some(sibling) => Some(Step::Enter(sibling)),
        None => match dom.parent(node) {
            Some(parent) => Some(Step::Leave(parent)),
            None => None,
        },
    }
}
