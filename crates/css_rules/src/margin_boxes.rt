//! The margin boxes of a page (css-page-3, 5.1).

ghost use Rattle.std.specs.Prelude.{◌≡◌, length};
ghost use Rattle.css_rules.specs.MarginBoxes as spec;

use css_words::table::find_word;

/// How many margin boxes a page has.
pub const MARGIN_BOXES: usize = 16;

/// The number is the one that specs name, and that of the table.
#[tactic(auto, unfolding(crate::specs::MarginBoxes::margin_boxes))]
pub fn margin_boxes_agree()
    ensures number { MARGIN_BOXES ≡ spec.margin_box_count }
    ensures table { length spec.margin_boxes ≡ spec.margin_box_count }
{}

/// The number of the margin box of a name, from 0 in the order in which css-page-3 lists them, clockwise from the top
/// left corner. ASCII case is set aside; None where no margin box has the name. It takes no memory.
#[tactic(auto, unfolding(crate::specs::MarginBoxes::margin_boxes))]
pub fn margin_box_number(name: &str) -> Option<u8>
    ensures { result ≡ spec.margin_box_number name.now }
{
    find_word(
        &[
            ("top-left-corner", 0u8),
            ("top-left", 1),
            ("top-center", 2),
            ("top-right", 3),
            ("top-right-corner", 4),
            ("right-top", 5),
            ("right-middle", 6),
            ("right-bottom", 7),
            ("bottom-right-corner", 8),
            ("bottom-right", 9),
            ("bottom-center", 10),
            ("bottom-left", 11),
            ("bottom-left-corner", 12),
            ("left-bottom", 13),
            ("left-middle", 14),
            ("left-top", 15),
        ],
        name,
    )
}
