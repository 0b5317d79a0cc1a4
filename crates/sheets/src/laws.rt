//! That texts have readings, and that sheets have one list of page rules.

ghost use Rattle.sheets.specs.Laws.{PageRulesAreOne, TextsAreRead};

use css_rules::sheet::one_reading;

/// Law: a function gives what each text is read as.
pub fn texts_are_read()
    ensures { TextsAreRead }
{
    one_reading();
}

/// Law: sheets have one list of page rules.
pub fn page_rules_are_one()
    ensures { PageRulesAreOne }
{
    one_reading();
}
