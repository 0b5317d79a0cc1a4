//! The limits of the program, and the sizes that a page has where no sheet says another. Specs name the same numbers.

ghost use Rattle.bk_num.specs.Limits.{LimitsAgree, PageAgrees};

/// The most nodes of a document, elements and texts.
pub const MOST_NODES: u32 = 400000;

/// The greatest depth of an element; the root `html` has depth 1.
pub const MOST_DEPTH: u32 = 200;

/// The most bytes of a file.
pub const MOST_FILE_BYTES: u64 = 16777216;

/// The most bytes of the texts of all leaves of a flow, those of its notes among them.
pub const MOST_TEXT_BYTES: u64 = 33554432;

/// The most pages of a book.
pub const MOST_PAGES: u32 = 100000;

/// The most style sheets of a run: those of the command line and those of `style` elements together.
pub const MOST_SHEETS: u32 = 16;

/// The most rules of one sheet: rulesets, page rules and margin boxes.
pub const MOST_RULES: u32 = 20000;

/// The most events of a tree of boxes.
pub const MOST_EVENTS: u32 = 8000000;

/// The most boxes of a tree that are open at once.
pub const MOST_OPEN: u32 = 2048;

/// The most entries of a list of solids, nodes, pages or spans, 2^26.
pub const MOST_ENTRIES: u64 = 67108864;

/// The greatest length either way, in units: 2^27.
pub const MOST_LENGTH: i32 = 134217728;

/// The width of the default page, in units: 148 mm.
pub const PAGE_WIDTH: i32 = 35800;

/// The height of the default page, in units: 210 mm.
pub const PAGE_HEIGHT: i32 = 50797;

/// Each margin of the default page, in units: 0.75 in.
pub const PAGE_MARGIN: i32 = 4608;

/// The font size that the root begins with, in units: 16 px (CSS 2.1, `medium`).
pub const ROOT_SIZE: i32 = 1024;

/// The height of the separator above the notes of a page, in units: 8 px.
pub const SEPARATOR: i64 = 512;

/// The limits are those that specs name.
pub fn limits_agree()
    ensures { LimitsAgree }
{}

/// The default page is the one that specs name.
pub fn page_agrees()
    ensures { PageAgrees }
{}
