//! What a start tag closes, and which elements have no content.
ghost use Rattle.std.specs.Prelude.{◌<◌, Some, length, map, slice_get, ◌≡◌};
ghost use Rattle.std.specs.List.{list_any};
ghost use Rattle.std.specs.Str.{bytes_eq};
ghost use Rattle.bk_num.specs.Names.{has_name};
ghost use Rattle.html_tree.specs.Rules.{texts, rules, rule_of, void_names};

/// A row has true where it counts for all start tags but those that it names; then the start tags, the elements of
/// which the innermost closes, and those that keep it open from inside.
const RULES: [(bool, &[&str], &[&str], &[&str]); 8] = [
    (
        true,
        &[
            "title", "base", "link", "meta", "style", "script", "noscript", "template",
        ],
        &["head"],
        &[],
    ),
    (
        false,
        &["li"],
        &["li"],
        &["ul", "ol", "menu", "table", "td", "th"],
    ),
    (
        false,
        &["dt", "dd"],
        &["dt", "dd"],
        &["dl", "table", "td", "th"],
    ),
    (false, &["td", "th"], &["td", "th"], &["tr", "table"]),
    (false, &["tr"], &["tr"], &["table"]),
    (
        false,
        &["tbody", "thead", "tfoot"],
        &["tbody", "thead", "tfoot"],
        &["table"],
    ),
    (false, &["option"], &["option"], &["select"]),
    (
        false,
        &[
            "address",
            "article",
            "aside",
            "blockquote",
            "dd",
            "details",
            "div",
            "dl",
            "dt",
            "fieldset",
            "figcaption",
            "figure",
            "footer",
            "form",
            "h1",
            "h2",
            "h3",
            "h4",
            "h5",
            "h6",
            "header",
            "hr",
            "li",
            "main",
            "nav",
            "ol",
            "p",
            "pre",
            "section",
            "table",
            "ul",
        ],
        &["p"],
        &["table", "td", "th", "caption", "button", "object"],
    ),
];

/// Void elements (HTML, 13.1.2).
const VOID: [&str; 13] = [
    "area", "base", "br", "col", "embed", "hr", "img", "input", "link", "meta", "source", "track",
    "wbr",
];

/// A row of the table.
#[tactic(auto, unfolding(crate::specs::Rules::rules))]
pub(crate) fn row_at(
    row: usize,
) -> &'static (
    bool,
    &'static [&'static str],
    &'static [&'static str],
    &'static [&'static str],
)
    requires { row < 8 }
    ensures { slice_get rules row ≡ Some (rule_of result.now) }
{
    row_of(&RULES, row)
}

fn row_of(
    rows: &'static [(
        bool,
        &'static [&'static str],
        &'static [&'static str],
        &'static [&'static str],
    )],
    row: usize,
) -> &'static (
    bool,
    &'static [&'static str],
    &'static [&'static str],
    &'static [&'static str],
)
    requires row { row < length rows.now }
    ensures { slice_get (map rule_of rows.now) row ≡ Some (rule_of result.now) }
{
    &rows[row]
}

/// Whether an element has no content.
#[tactic(auto, unfolding(crate::specs::Rules::void_names))]
pub(crate) fn is_void(name: &str) -> bool
    ensures { result ≡ has_name void_names name.now }
{
    has(&VOID, name)
}

/// Whether a list of names has one.
pub(crate) fn has(names: &[&str], name: &str) -> bool
    ensures { result ≡ has_name (texts names.now) name.now }
{
    is_among(names, name)
}

fn is_among(names: &[&str], name: &str) -> bool
    ensures { result ≡ list_any (λ n. bytes_eq name.now n.now) names.now }
{
    names.iter().any(|other| name == *other)
}
