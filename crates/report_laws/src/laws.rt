//! Laws of the definitions, each a function that does nothing.

ghost use Rattle.report_laws.specs.Laws.{PrintedReportIsAccepted, TrueReportIsUpheld};

/// A report that tells the truth of a run meets each condition that a report is checked for.
pub fn true_report_is_upheld()
    ensures { TrueReportIsUpheld }
{}

/// What a run prints is read as one report, which meets each condition.
pub fn printed_report_is_accepted()
    ensures { PrintedReportIsAccepted }
{}
