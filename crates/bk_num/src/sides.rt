//! The four sides of a box, and values for them (CSS 2.1, 8).

ghost use Rattle.std.specs.Prelude.{◌≡◌, ◌<◌, Some};
ghost use Rattle.bk_num.specs.Sides as spec;

/// A side of a box.
#[derive(Clone, Copy, Debug, PartialEq, Eq)]
pub enum BoxSide {
    Top,
    Right,
    Bottom,
    Left,
}

impl BoxSide {
    /// Its place in the order top, right, bottom, left, from 0.
    pub fn place(self) -> usize
        ensures place { result ≡ spec.place_of self }
        ensures below { result < 4 }
    {
        match self {
            BoxSide::Top => 0,
            BoxSide::Right => 1,
            BoxSide::Bottom => 2,
            BoxSide::Left => 3,
        }
    }
}

/// The value of a side, where values stand in that order.
pub fn at_side<T: Copy>(values: &[T; 4], side: BoxSide) -> T
    ensures { spec.at_side values.now side ≡ Some result }
{
    values[side.place()]
}

/// A value for each side of a box.
#[derive(Clone, Copy, Debug)]
pub struct Sides<T> {
    pub top: T,
    pub right: T,
    pub bottom: T,
    pub left: T,
}

impl<T: Copy> Sides<T> {
    /// The same value for all four.
    pub fn same(value: T) -> Sides<T>
        ensures { result ≡ spec.same value }
    {
        Sides {
            top: value,
            right: value,
            bottom: value,
            left: value,
        }
    }

    /// The value of a side.
    pub fn at(&self, side: BoxSide) -> T
        ensures { result ≡ spec.at self.now side }
    {
        match side {
            BoxSide::Top => self.top,
            BoxSide::Right => self.right,
            BoxSide::Bottom => self.bottom,
            BoxSide::Left => self.left,
        }
    }

    /// Gives a side another value.
    pub fn put(&mut self, side: BoxSide, value: T)
        ensures { self.new ≡ spec.with_side side value self.old }
    {
        match side {
            BoxSide::Top => self.top = value,
            BoxSide::Right => self.right = value,
            BoxSide::Bottom => self.bottom = value,
            BoxSide::Left => self.left = value,
        }
    }

    /// The values in the order top, right, bottom, left.
    pub fn array(&self) -> [T; 4]
        ensures { result ≡ spec.list_of self.now }
    {
        [self.top, self.right, self.bottom, self.left]
    }
}
