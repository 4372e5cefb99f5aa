//! Laws of the definitions, each a function that does nothing.

ghost use Rattle.report_reading.specs.Spelled.{OneFirstFault};

/// A text has at most one first fault.
pub fn one_first_fault()
    ensures { OneFirstFault }
{}
