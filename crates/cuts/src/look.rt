//! How far a page's cut reads.

ghost use Rattle.std.specs.Prelude.{◌≡◌, ℕ, ℤ, Bool, List, Some, is_some, true, false, ◌+◌, ◌<◌, ◌≤◌, length, ◌∷◌, ◌++◌, [], ◌≤ℤ◌, ◌<ℤ◌, ◌+ℤ◌};
ghost use Rattle.bk_num.specs.Limits.{most_entries};
ghost use Rattle.cuts.specs.Areas.{AreTold, IsArea};
ghost use Rattle.cuts.specs.Cuts.{NoteLists};
ghost use Rattle.cuts.specs.Prefixes.{AreJoined, HasMissed, HasPlaced, HasRead, IsLook, IsStacked, is_break};
ghost use Rattle.cuts.specs.Rows.{IsSmallRow, is_joined, rows_extent};
ghost use Rattle.cuts.specs.Seen.{HasSeen};
ghost use Rattle.cuts.specs.Short.{IsShort};
ghost use Rattle.cuts.specs.declared.row.SolidRow.{SolidRow};

use crate::reach::{fits_above, has_room};
use crate::row::{PageRoom, SolidRow, gap_above};
use notes::reach::Reach;

/// What is kept of the solids of a page while they are read: whether there are any, how far they reach, whether some
/// point has fitted, the most widows that the lines at their end ask for, and, once those before a point have no room,
/// how many lines more tell whether too few follow a break.
#[derive(Clone, Copy, Debug)]
pub struct Look {
    pub(crate) some: bool,
    pub(crate) reach: Reach,
    pub(crate) fitted: bool,
    pub(crate) least: u32,
    pub(crate) left: Option<u32>,
}

/// The most widows that the lines at the end ask for, with one more solid.
fn least_with(least: u32, row: &SolidRow) -> u32
    ensures own { row.now.widows ≤ result }
    ensures most { (widest : ℕ) → least ≤ widest → row.now.widows ≤ widest → result ≤ widest }
    ensures kept { is_joined row.now ≡ true → least ≤ result }
{
    if row.joins() {
        least.max(row.widows)
    } else {
        row.widows
    }
}

/// How many lines more are to be read behind a point without room, once a solid more is.
fn left_after(left: u32, row: &SolidRow) -> u32
    ensures least { is_joined row.now ≡ true → left ≤ result + 1 }
    ensures less { 0 < left → result + 1 ≤ left }
{
    if row.joins() {
        left.saturating_sub(1)
    } else {
        0
    }
}

impl Look {
    /// Before any solid.
    pub fn start() -> Look
        ensures look { (kept : Bool) (height : ℤ) (list : NoteLists) (c : ℕ) → IsLook kept height list c [] result }
        ensures read { HasRead 0 result }
        ensures short { (kept : Bool) (height : ℤ) (widest : ℕ) → IsShort kept height widest [] result }
        ensures placed { (kept : Bool) → HasPlaced kept [] result }
        ensures more { ¬ (result.left ≡ Some 0) }
    {
        Look {
            some: false,
            reach: Reach::START,
            fitted: false,
            least: 0,
            left: None,
        }
    }

    /// Whether the solids read so far tell the cut.
    pub fn is_enough(&self) -> bool
        ensures enough { result ≡ true → (kept : Bool) (height : ℤ) (list : NoteLists) (c : ℕ) (rows : List SolidRow) →
            IsLook kept height list c rows self.now → HasMissed kept height list c rows 0 }
        ensures more { result ≡ false → ¬ (self.now.left ≡ Some 0) }
    {
        self.left == Some(0)
    }

    /// Whether the reach that is kept ends within a height.
    fn ends_within(&self, height: i64) -> bool
        ensures within { result ≡ true → self.now.reach.extent ≤ℤ height }
        ensures past { result ≡ false → height <ℤ self.now.reach.extent }
    {
        self.reach.extent <= height
    }

    /// Whether the solids read so far end inside a frame of a height.
    pub fn is_inside(&self, height: i64) -> bool
        ensures inside { result ≡ true → (kept : Bool) (rows : List SolidRow) → IsStacked kept height rows self.now →
            rows_extent kept rows (length rows) ≤ℤ height }
        ensures below { result ≡ false → (kept : Bool) (rows : List SolidRow) → IsStacked kept height rows self.now →
            height <ℤ rows_extent kept rows (length rows) }
    {
        self.ends_within(height)
    }

    /// Whether the seam before the next solid may be a break point that fits.
    fn fits(&self, row: &SolidRow, area: i64, room: &PageRoom) -> bool
        requires read { HasRead most_entries self.now }
        requires small { IsSmallRow row.now }
        requires area { IsArea area }
        ensures point { result ≡ true → (self.now.some ≡ true) × (is_break row.now ≡ true) }
        ensures fits { result ≡ true →
            ((self.now.reach.extent +ℤ row.now.seam.tail) +ℤ area) ≤ℤ room.now.height }
    {
        self.some && row.breaks() && fits_above(&self.reach, row.seam.tail, area, room.height)
    }

    /// Whether the seam before the next solid may be a break point, and the solids before it have no room, whatever
    /// stands again behind them: with the notes that have to stand on the page once some point has fitted, before with
    /// the carried notes alone.
    fn misses(&self, row: &SolidRow, area: i64, room: &PageRoom) -> bool
        requires read { HasRead most_entries self.now }
        requires area { IsArea area }
        requires carried { IsArea room.now.carried }
        ensures point { result ≡ true → (self.now.some ≡ true) × (is_break row.now ≡ true) }
        ensures fitted { result ≡ true → self.now.fitted ≡ true →
            ¬ ((self.now.reach.extent +ℤ area) ≤ℤ room.now.height) }
        ensures none { result ≡ true → self.now.fitted ≡ false →
            ¬ ((self.now.reach.extent +ℤ room.now.carried) ≤ℤ room.now.height) }
        ensures fits { result ≡ false → self.now.some ≡ true → is_break row.now ≡ true →
            self.now.reach.extent ≤ℤ room.now.height }
    {
        let needed = if self.fitted { area } else { room.carried };
        self.some && row.breaks() && !has_room(&self.reach, needed, room.height)
    }

    /// Sees the seam before the next solid of a page.
    fn see(&mut self, row: &SolidRow, area: i64, room: &PageRoom)
        requires read { HasRead most_entries self.old }
        requires small { IsSmallRow row.now }
        requires area { IsArea area }
        requires carried { IsArea room.now.carried }
        ensures some { self.new.some ≡ self.old.some }
        ensures reach { self.new.reach ≡ self.old.reach }
        ensures missed { is_some self.old.left ≡ true → is_some self.new.left ≡ true }
        ensures seen { (rows : List SolidRow) (list : NoteLists) (c : ℕ) →
            (0 < length rows → rows_extent room.now.kept rows (length rows) ≤ℤ room.now.height →
            AreTold room.now.height list c (length rows) area room.now.carried) →
            IsLook room.now.kept room.now.height list c rows self.old →
            HasSeen room.now.kept room.now.height list c rows row.now self.old self.new }
        ensures short { (rows : List SolidRow) (widest : ℕ) → IsStacked room.now.kept room.now.height rows self.old →
            row.now.widows ≤ widest → ¬ (self.old.left ≡ Some 0) →
            IsShort room.now.kept room.now.height widest rows self.old →
            IsShort room.now.kept room.now.height widest (rows ++ row.now ∷ []) self.new }
    {
        if let Some(left) = self.left {
            self.left = Some(left_after(left, row));
            return;
        }
        self.least = least_with(self.least, row);
        if self.misses(row, area, room) {
            self.left = Some(self.least.saturating_sub(1));
            return;
        }
        self.fitted = self.fits(row, area, room) | self.fitted;
    }

    /// Takes the next solid of a page. `area` is that of the notes that have to stand on the page where it ends before
    /// that solid, in units of 1/64 px, or any number above the frame's height where that area is; before the first
    /// solid, and after one that ends below the frame, it is any number.
    pub fn take(&mut self, row: &SolidRow, area: i64, room: &PageRoom)
        requires read { HasRead most_entries self.old }
        requires small { IsSmallRow row.now }
        requires area { IsArea area }
        requires carried { IsArea room.now.carried }
        ensures look { (rows : List SolidRow) (list : NoteLists) (c : ℕ) →
            (0 < length rows → rows_extent room.now.kept rows (length rows) ≤ℤ room.now.height →
            AreTold room.now.height list c (length rows) area room.now.carried) →
            IsLook room.now.kept room.now.height list c rows self.old →
            IsLook room.now.kept room.now.height list c (rows ++ row.now ∷ []) self.new }
        ensures read { (n : ℕ) → HasRead n self.old → HasRead (n + 1) self.new }
        ensures short { (rows : List SolidRow) (widest : ℕ) → IsStacked room.now.kept room.now.height rows self.old →
            row.now.widows ≤ widest → ¬ (self.old.left ≡ Some 0) →
            IsShort room.now.kept room.now.height widest rows self.old →
            IsShort room.now.kept room.now.height widest (rows ++ row.now ∷ []) self.new }
        ensures placed { (rows : List SolidRow) → HasPlaced room.now.kept rows self.old →
            HasPlaced room.now.kept (rows ++ row.now ∷ []) self.new }
        ensures stacked { (rows : List SolidRow) → IsStacked room.now.kept room.now.height rows self.old →
            IsStacked room.now.kept room.now.height (rows ++ row.now ∷ []) self.new }
    {
        self.see(row, area, room);
        let gap = gap_above(&row.seam, !self.some, room.kept);
        self.reach.place(gap, row.height);
        self.some = true;
    }

    /// How many of some lines that go on with their leaf are passed at once: as many as are still to be read behind a
    /// point without room, where the solids end below a frame of a height.
    pub fn pass(&mut self, lines: usize, height: i64) -> usize
        ensures few { result ≤ lines }
        ensures below { 0 < result → (kept : Bool) (rows : List SolidRow) → IsStacked kept height rows self.old →
            height <ℤ rows_extent kept rows (length rows) }
        ensures look { (kept : Bool) (frame : ℤ) (list : NoteLists) (c : ℕ) (rows more : List SolidRow) →
            length more ≡ result → AreJoined more → IsLook kept frame list c rows self.old →
            IsLook kept frame list c (rows ++ more) self.new }
        ensures short { (kept : Bool) (frame : ℤ) (widest : ℕ) (rows more : List SolidRow) → length more ≡ result →
            IsShort kept frame widest rows self.old → IsShort kept frame widest (rows ++ more) self.new }
        ensures stacked { (kept : Bool) (rows more : List SolidRow) → length more ≡ result →
            IsStacked kept height rows self.old → IsStacked kept height (rows ++ more) self.new }
        ensures read { (n : ℕ) → HasRead n self.old → HasRead n self.new }
    {
        let Some(left) = self.left else {
            return 0;
        };
        if self.ends_within(height) {
            return 0;
        }
        let passed = lines.min(left as usize);
        self.left = Some(left - passed as u32);
        passed
    }
}
