//! Lines that are kept from one pass to the next.

ghost use Rattle.std.specs.Prelude.{◌≡◌, ◌+◌, ◌<◌, ◌≤◌, ◌^◌, [], None, List, ℕ, length, map, unsigned_abs, nat_eq, IfOk, IfSome, OnOk, OnErr};
ghost use Rattle.std.specs.List.{All, filter};
ghost use Rattle.std.specs.Str.{IsCharBoundary};
ghost use Rattle.std.specs.HashMap.{get};
ghost use Rattle.metrics.specs.Face.{FontFace};
ghost use Rattle.boxes.specs.Contents.{IsGoodLeaf};
ghost use Rattle.line_fill.specs.Conditions.{CanAsk};
ghost use Rattle.line_fill.specs.LineEnd.{IsLine};
ghost use Rattle.line_fill.specs.Keys.{key_of, print_of};
ghost use Rattle.line_fill.specs.Kept.{AreKept, Asked, Grows, HasAsked, HasTurned, Holds, HoldsSame, IsLeafAt, KeepsPlaces, asked_of};
ghost use Rattle.line_fill.specs.KeptLines.{AreRising, IsFound, IsPlace, before_of, is_now};
ghost use Rattle.line_fill.specs.KeptSteps.{AreTurned, AsksLine, IsAdded, IsSameLeaf, IsTurned, line_now, step_of};

use crate::key::{copy_of, print_of};
use crate::lines::{KeptLine, Pass, line_at, place_of, put_all_ahead};
use crate::plan::line_from;
use crate::search::find;
use bk_num::name::NoMem;
use bk_num::steps::Steps;
use boxes::leaf::Leaf;
use boxes::line::Line;
use metrics::Faces;
use std::alloc::Global;
use std::collections::HashMap;
use std::marker::Model;
use std::rc::Rc;
use std::sync::ledger::Ledger;

/// The lines of a leaf at a measure in units. `before` is the last leaf before it that has the same print.
#[derive(Drop)]
pub struct KeptLeaf {
    pub leaf: Rc<Leaf>,
    pub measure: i64,
    pub print: u64,
    pub before: Option<u32>,
    pub lines: Vec<KeptLine>,
}

/// Adds a leaf at a measure, without lines.
fn add(
    alloc: Global,
    leaves: &mut Vec<KeptLeaf>,
    lasts: &mut HashMap<u64, u32>,
    leaf: Rc<Leaf>,
    print: u64,
    measure: i64,
) -> Result<u32, NoMem>
    ensures at { IfOk result (λ at. at ≡ length leaves.old.items) }
    ensures added { OnOk result (IsAdded leaves.old.items leaves.new.items (λ q. get nat_eq lasts.old q)
        (λ q. get nat_eq lasts.new q) (key_of leaf.value) print measure) }
    ensures leaves { OnErr result (leaves.new.items ≡ leaves.old.items) }
    ensures lasts { OnErr result ((q : ℕ) → get nat_eq lasts.new q ≡ get nat_eq lasts.old q) }
{
    if leaves.len() >= 4294967295 {
        return Err(NoMem);
    }
    let at = leaves.len() as u32;
    let made = KeptLeaf {
        leaf,
        measure,
        print,
        before: lasts.get(&print).copied(),
        lines: Vec::new(alloc),
    };
    if leaves.push(made).is_err() {
        return Err(NoMem);
    }
    if lasts.insert(print, at).is_err() {
        leaves.pop();
        return Err(NoMem);
    }
    Ok(at)
}

/// A line that this pass asks for.
fn line_now(line: Line) -> KeptLine
    ensures { result ≡ line_now line }
{
    KeptLine {
        line,
        pass: Pass::Now,
    }
}

/// Counts the step that a line takes which stands.
fn count_step<L: Ledger>(line: &KeptLine, steps: &mut Steps<L>)
    ensures { steps.new ≡ steps.old + step_of line.now }
{
    if !line.is_asked() {
        steps.tick();
    }
}

/// The line of a leaf that begins at an offset, at the measure of these lines, where none of them begins there: it is
/// filled, and the later lines of its plan are put ahead.
fn ask_anew<L: Ledger>(
    kept: &mut KeptLeaf,
    faces: &Faces,
    leaf: &Leaf,
    from: u32,
    measure: i64,
    place: usize,
    steps: &mut Steps<L>,
) -> Result<Line, NoMem>
    requires can { CanAsk faces.now leaf.now from measure }
    requires rising { AreRising kept.old.lines.items }
    requires place { IsPlace kept.old.lines.items from place }
    requires none { IsFound kept.old.lines.items place from None }
    ensures same { IsSameLeaf kept.old kept.new }
    ensures line { IfOk result (λ line. AsksLine faces.now leaf.now from measure kept.old.lines.items line
        kept.new.lines.items steps.old steps.new) }
    ensures lines { OnErr result (kept.new.lines.items ≡ kept.old.lines.items) }
    ensures steps { OnErr result (steps.new ≤ steps.old + 1) }
{
    let alloc = *kept.lines.allocator();
    let filled = line_from(alloc, faces, leaf, from, measure, steps)?;
    if kept.lines.insert(place, line_now(filled.line)).is_err() {
        return Err(NoMem);
    }
    put_all_ahead(&mut kept.lines, filled.ahead.as_slice());
    Ok(filled.line)
}

/// The line of a leaf that begins at an offset, at the measure of these lines.
fn ask<L: Ledger>(
    kept: &mut KeptLeaf,
    faces: &Faces,
    leaf: &Leaf,
    from: u32,
    measure: i64,
    steps: &mut Steps<L>,
) -> Result<Line, NoMem>
    requires can { CanAsk faces.now leaf.now from measure }
    requires rising { AreRising kept.old.lines.items }
    ensures same { IsSameLeaf kept.old kept.new }
    ensures line { IfOk result (λ line. AsksLine faces.now leaf.now from measure kept.old.lines.items line
        kept.new.lines.items steps.old steps.new) }
    ensures lines { OnErr result (kept.new.lines.items ≡ kept.old.lines.items) }
    ensures steps { OnErr result (steps.new ≤ steps.old + 1) }
{
    let place = place_of(kept.lines.as_slice(), from);
    let Some(found) = line_at(kept.lines.as_slice(), place, from) else {
        return ask_anew(kept, faces, leaf, from, measure, place, steps);
    };
    kept.lines[place] = line_now(found.line);
    count_step(&found, steps);
    Ok(found.line)
}

/// Drops the lines that this pass didn't ask for.
fn drop_before(lines: &mut Vec<KeptLine>)
    ensures { lines.new.items ≡ filter is_now lines.old.items }
{
    lines.retain(|kept| kept.is_now());
}

/// Lines become those of the pass before.
fn age(lines: &mut [KeptLine])
    ensures { lines.new ≡ map before_of lines.old }
{
    for kept in lines.iter_mut() {
        kept.pass = Pass::Before;
    }
}

/// The lines of this pass become those of the pass before.
fn turn_leaf(kept: &mut KeptLeaf)
    ensures { IsTurned kept.old kept.new }
{
    drop_before(&mut kept.lines);
    age(&mut kept.lines);
}

/// The lines of all leaves become those of the pass before.
fn turn_leaves(leaves: &mut Vec<KeptLeaf>)
    ensures { AreTurned leaves.old.items leaves.new.items }
{
    for at in 0..leaves.len() {
        let kept = &mut leaves[at];
        turn_leaf(kept);
    }
}

/// A copy of a leaf as far as its lines go, which can be shared.
fn share_copy(alloc: Global, leaf: &Leaf) -> Result<Rc<Leaf>, NoMem>
    ensures { IfOk result (λ shared. key_of shared.value ≡ key_of leaf.now) }
{
    let copy = copy_of(alloc, leaf)?;
    match Rc::new(alloc, copy) {
        Ok(shared) => Ok(shared),
        Err(_) => Err(NoMem),
    }
}

/// The lines kept from the pass before and of this pass, by their leaves. A leaf is shared with its tree, and not
/// copied. Contracts see the leaves, each at a measure, with their lines.
#[derive(Drop)]
pub struct Kept {
    leaves: Vec<KeptLeaf>,
    lasts: HashMap<u64, u32>,
}

impl Model for Kept {
    ghost use Rattle.std.specs.Prelude.{List};
    ghost use Rattle.line_fill.specs.declared.kept.KeptLeaf.{KeptLeaf};

    ghost Value = { List KeptLeaf };

    ghost use Rattle.line_fill.specs.KeptSound.{IsSound};

    ghost view = { λ k. k.leaves.items };

    ghost invariant = { IsSound };
}

impl Kept {
    /// No lines. It takes no memory.
    pub fn new(alloc: Global) -> Kept
        ensures value { result ≡ [] }
        ensures kept { (faces : List FontFace) → AreKept faces result }
        ensures none { (a : Asked) → Holds result a → ⊥ }
    {
        Kept {
            leaves: Vec::new(alloc),
            lasts: HashMap::new(alloc),
        }
    }

    /// The place of a leaf at a measure, if it is there.
    fn find(&self, leaf: &Leaf, print: u64, measure: i64) -> Option<u32>
        requires print { print ≡ print_of (key_of leaf.now) measure }
        ensures some { IfSome result (λ at. IsLeafAt self.now at (key_of leaf.now) measure) }
        ensures none { result ≡ None → (j : ℕ) → IsLeafAt self.now j (key_of leaf.now) measure → ⊥ }
    {
        let last = self.lasts.get(&print).copied();
        find(self.leaves.as_slice(), last, leaf, print, measure)
    }

    /// Adds a leaf at a measure that isn't there, and answers its place.
    fn add(&mut self, alloc: Global, leaf: Rc<Leaf>, print: u64, measure: i64) -> Result<u32, NoMem>
        requires print { print ≡ print_of (key_of leaf.value) measure }
        requires none { (j : ℕ) → IsLeafAt self.old j (key_of leaf.value) measure → ⊥ }
        ensures at { IfOk result (λ at. IsLeafAt self.new at (key_of leaf.value) measure) }
        ensures grows { Grows self.old self.new }
    {
        add(
            alloc,
            &mut self.leaves,
            &mut self.lasts,
            leaf,
            print,
            measure,
        )
    }

    /// Shares an equal leaf in place of the one that is kept, which may be the last of a tree that is gone.
    fn share(&mut self, at: u32, leaf: Rc<Leaf>, measure: i64)
        requires at { IsLeafAt self.old at (key_of leaf.value) measure }
        ensures at { IsLeafAt self.new at (key_of leaf.value) measure }
        ensures grows { Grows self.old self.new }
    {
        self.leaves[at as usize].leaf = leaf;
    }

    /// The place of a leaf at a measure, which is added where it isn't there.
    pub fn place(&mut self, alloc: Global, leaf: &Rc<Leaf>, measure: i64) -> Result<u32, NoMem>
        ensures at { IfOk result (λ at. IsLeafAt self.new at (key_of leaf.now.value) measure) }
        ensures grows { Grows self.old self.new }
    {
        let print = print_of(leaf.as_ref(), measure);
        let Ok(shared) = leaf.clone() else {
            return Err(NoMem);
        };
        if let Some(at) = self.find(leaf.as_ref(), print, measure) {
            self.share(at, shared, measure);
            return Ok(at);
        }
        self.add(alloc, shared, print, measure)
    }

    /// The same of a leaf that no one shares: where it isn't there, a copy of it is added.
    fn place_copy(&mut self, alloc: Global, leaf: &Leaf, measure: i64) -> Result<u32, NoMem>
        ensures at { IfOk result (λ at. IsLeafAt self.new at (key_of leaf.now) measure) }
        ensures grows { Grows self.old self.new }
    {
        let print = print_of(leaf, measure);
        if let Some(at) = self.find(leaf, print, measure) {
            return Ok(at);
        }
        let shared = share_copy(alloc, leaf)?;
        self.add(alloc, shared, print, measure)
    }

    /// The line of the leaf at a place that begins at an offset. It takes one step where neither this pass nor the one
    /// before asked for it, and else none.
    pub fn line_in<L: Ledger>(
        &mut self,
        faces: &Faces,
        at: u32,
        leaf: &Leaf,
        from: u32,
        measure: i64,
        steps: &mut Steps<L>,
    ) -> Result<Line, NoMem>
        requires good { IsGoodLeaf leaf.now }
        requires faced { All (λ s. s.face.0 < length faces.now) leaf.now.spans }
        requires from { from < length leaf.now.text }
        requires measure { unsigned_abs measure ≤ 2 ^ 40 }
        requires at { IsLeafAt self.old at (key_of leaf.now) measure }
        requires kept { AreKept faces.now self.old }
        ensures line { IfOk result (λ line. IsLine faces.now leaf.now from measure line) }
        ensures end { IfOk result (λ line. IsCharBoundary leaf.now.text line.to) }
        ensures kept { AreKept faces.now self.new }
        ensures asked { OnOk result (HasAsked (asked_of leaf.now from measure) self.old self.new) }
        ensures held { OnOk result (Holds self.old (asked_of leaf.now from measure) → steps.new ≡ steps.old) }
        ensures fresh { OnOk result ((Holds self.old (asked_of leaf.now from measure) → ⊥) →
            steps.new ≡ steps.old + 1) }
        ensures same { OnErr result (HoldsSame self.old self.new) }
        ensures most { steps.new ≤ steps.old + 1 }
        ensures places { KeepsPlaces self.old self.new }
    {
        // A text that is read is known to be UTF-8, so that a line of it ends at a character.
        let _text = leaf.text.as_str();
        let kept = &mut self.leaves[at as usize];
        ask(kept, faces, leaf, from, measure, steps)
    }

    /// The line of a leaf that begins at an offset, at a measure. It takes one step where neither this pass nor the one
    /// before asked for it, and else none. A leaf that isn't there yet is copied: whoever shares it asks for its place,
    /// and then for its lines there.
    pub fn line<L: Ledger>(
        &mut self,
        alloc: Global,
        faces: &Faces,
        leaf: &Leaf,
        from: u32,
        measure: i64,
        steps: &mut Steps<L>,
    ) -> Result<Line, NoMem>
        requires good { IsGoodLeaf leaf.now }
        requires faced { All (λ s. s.face.0 < length faces.now) leaf.now.spans }
        requires from { from < length leaf.now.text }
        requires measure { unsigned_abs measure ≤ 2 ^ 40 }
        requires kept { AreKept faces.now self.old }
        ensures line { IfOk result (λ line. IsLine faces.now leaf.now from measure line) }
        ensures end { IfOk result (λ line. IsCharBoundary leaf.now.text line.to) }
        ensures kept { AreKept faces.now self.new }
        ensures asked { OnOk result (HasAsked (asked_of leaf.now from measure) self.old self.new) }
        ensures held { OnOk result (Holds self.old (asked_of leaf.now from measure) → steps.new ≡ steps.old) }
        ensures fresh { OnOk result ((Holds self.old (asked_of leaf.now from measure) → ⊥) →
            steps.new ≡ steps.old + 1) }
        ensures same { OnErr result (HoldsSame self.old self.new) }
        ensures most { steps.new ≤ steps.old + 1 }
    {
        let at = self.place_copy(alloc, leaf, measure)?;
        self.line_in(faces, at, leaf, from, measure, steps)
    }

    /// This pass becomes the pass before. It takes no memory.
    pub fn turn(&mut self)
        ensures turned { HasTurned self.old self.new }
        ensures kept { (faces : List FontFace) → AreKept faces self.old → AreKept faces self.new }
        ensures places { KeepsPlaces self.old self.new }
    {
        turn_leaves(&mut self.leaves);
    }
}
