//! What the definition of a true report gives.

ghost use Rattle.run_report.specs.Laws.{TrueReportsSettle};

/// A report that tells the truth settles each goal that was asked for, as far as its bounds reach.
pub fn true_reports_settle()
    ensures { TrueReportsSettle }
{}
