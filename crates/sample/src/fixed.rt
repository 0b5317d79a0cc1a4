//! The texts that are the same for each sample book.

ghost use Rattle.std.specs.Prelude.{◌≡◌};
ghost use Rattle.sample.specs.Texts.{css_text, metrics_text};

/// The metrics text: one face, whose advance is 8 of 16 units for each character.
#[tactic(auto, unfolding(crate::specs::Texts::metrics_text))]
pub(crate) fn metrics() -> &'static str
    ensures { result.now ≡ metrics_text }
{
    "bookmetrics 1\nface text normal 400 16 12 4 8\n"
}

/// The style sheet: small pages with running heads and page numbers, chapters on pages of their own, notes, and page
/// references.
#[tactic(auto, unfolding(crate::specs::Texts::css_text))]
pub(crate) fn css() -> &'static str
    ensures { result.now ≡ css_text }
{
    "@page{size:320px 480px;margin:40px;@top-center{content:string(c)}@bottom-center{content:counter(page)}}\
     h1{break-before:page;font-size:16px;string-set:c content()}.n{float:footnote}\
     a::after{content:target-counter(attr(href),page)}"
}
