//! Laws of the definitions, each a function that does nothing.

ghost use Rattle.report_check.specs.Supports.{UpheldIsSupported};

/// A report that meets all conditions shows what it claims.
pub fn upheld_is_supported()
    ensures { UpheldIsSupported }
{}
