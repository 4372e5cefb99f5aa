//! Laws of the definitions, each a function that does nothing.

ghost use Rattle.report_text.specs.Form.{OneReport};

/// A text of the report's form tells the report.
pub fn one_report()
    ensures { OneReport }
{}
