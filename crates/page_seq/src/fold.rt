//! The pages of a list of frames.

ghost use Rattle.std.specs.Prelude.{◌≡◌, ℕ, ◌+◌, ◌*◌, ◌^◌, ◌<◌, ◌≤◌, ◌∷◌, [], length, IfOk};
ghost use Rattle.std.specs.List.{flat_map};
ghost use Rattle.bk_num.specs.Limits.{most_entries};
ghost use Rattle.boxes.specs.Frames.{IsPerPage, page_at};
ghost use Rattle.page_seq.specs.Folds.{fold_of, frames_on, greatest_level, joined_at, page_of_frames};

use bk_num::items::Items;
use bk_num::name::NoMem;
use boxes::page::{Page, PageList, Placed, PlacedNote};
use std::alloc::Global;

/// The greatest level of some frames.
fn greatest_level(frames: &[Page]) -> u8
    ensures { result ≡ greatest_level frames.now }
{
    let mut level = 0;
    for frame in frames {
        level = frame.level.max(level);
    }
    level
}

/// The solids of some frames, in order.
fn solids_of(alloc: Global, frames: &[Page]) -> Result<Vec<Placed>, NoMem>
    ensures { IfOk result (λ v. v.items ≡ flat_map (λ f. f.solids) frames.now) }
{
    let mut solids = Vec::new(alloc);
    for frame in frames {
        solids.extend_from_slice(frame.solids.as_slice())?;
    }
    Ok(solids)
}

/// The note solids of some frames, in order.
fn notes_of(alloc: Global, frames: &[Page]) -> Result<Vec<PlacedNote>, NoMem>
    ensures { IfOk result (λ v. v.items ≡ flat_map (λ f. f.notes) frames.now) }
{
    let mut notes = Vec::new(alloc);
    for frame in frames {
        notes.extend_from_slice(frame.notes.as_slice())?;
    }
    Ok(notes)
}

/// The page of an index that holds some frames, the first of which gives it its name, kind and frame.
fn joined_at(alloc: Global, index: u32, first: &Page, frames: &[Page]) -> Result<Page, NoMem>
    ensures { IfOk result (λ page. page ≡ joined_at index first.now frames.now) }
{
    Ok(Page {
        index,
        kind: first.kind,
        name: first.name,
        frame: first.frame,
        solids: Items::of(solids_of(alloc, frames)?),
        notes: Items::of(notes_of(alloc, frames)?),
        level: greatest_level(frames),
    })
}

/// How many pages hold so many frames.
fn page_count(frames: usize, per: usize) -> usize
    requires per { IsPerPage per }
    requires few { frames ≤ most_entries }
    ensures count { result ≡ page_at per frames }
    ensures some { (place : ℕ) → place < result → per * place < frames }
    ensures few { result ≤ most_entries }
{
    (frames + (per - 1)) / per
}

/// The frames on the page at a place, where `per` stand on each: as many, or what is left of them.
pub fn frames_on(frames: &[Page], per: usize, place: usize) -> &[Page]
    requires per { IsPerPage per }
    requires place { place < 2 ^ 31 }
    requires some { per * place < length frames.now }
    ensures frames { result.now ≡ frames_on per frames.now place }
    ensures some { 0 < length result.now }
{
    let from = per * place;
    let to = frames.len().min(from + per);
    &frames[from..to]
}

/// The page at a place that holds some frames, the first of which gives it its name, kind and frame.
fn page_of_frames(alloc: Global, place: usize, frames: &[Page]) -> Result<Page, NoMem>
    requires few { place < most_entries }
    requires some { 0 < length frames.now }
    ensures { IfOk result (λ page. page ∷ [] ≡ page_of_frames (place + 1) frames.now) }
{
    joined_at(alloc, place as u32 + 1, &frames[0], frames)
}

/// The pages of a list of frames, `per` of which stand on each: their solids and notes in order, with the name, kind
/// and frame of the first frame of each page, and the greatest of its frames' levels. It takes time in proportion to
/// the list.
pub fn fold(alloc: Global, list: &PageList, per: u32) -> Result<PageList, NoMem>
    requires per { IsPerPage per }
    requires few { length list.now.pages ≤ most_entries }
    ensures { IfOk result (λ folded. folded.pages ≡ fold_of per list.now.pages) }
{
    let frames = list.pages.as_slice();
    let per = per as usize;
    let mut pages = Vec::new(alloc);
    for place in 0..page_count(frames.len(), per) {
        pages.push(page_of_frames(alloc, place, frames_on(frames, per, place))?)?;
    }
    Ok(PageList {
        pages: Items::of(pages),
    })
}
