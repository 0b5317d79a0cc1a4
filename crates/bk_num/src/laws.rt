//! Laws of rounding and clamping, for the layers above. Each function is empty and carries one law.

ghost use Rattle.bk_num.specs.Laws.{ClampingKeepsOrder, ClampingKeepsSmall, ClampingBounds, RoundingKeepsOrder};

/// Clamping keeps the order, keeps small numbers and gives small numbers.
pub fn clamping()
    ensures order { ClampingKeepsOrder }
    ensures small { ClampingKeepsSmall }
    ensures bounds { ClampingBounds }
{}

/// Rounding keeps the order.
pub fn rounding()
    ensures { RoundingKeepsOrder }
{}
