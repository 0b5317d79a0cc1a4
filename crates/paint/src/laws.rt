//! What holds of all pages. The function is empty and carries the law.

ghost use Rattle.paint.specs.Printed.{PagesPrintTheirText};

/// The texts of a page's items, joined, hyphens aside, are the texts of its lines, each leaf's markers before its first
/// line: no character is lost, printed twice or out of order.
pub fn pages_print_their_text()
    ensures { PagesPrintTheirText }
{}
