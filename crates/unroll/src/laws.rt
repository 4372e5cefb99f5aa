//! What the formulas mean, each law the clause of a function that does nothing.

ghost use Rattle.unroll.specs.Laws.{ExcludedIsRefuted, ExcludesModels, FewToExclude, FewToKeep, FewToSearch, FramesAreRuns, KeptIsRefuted, KeptModels, NoneIsNew, SearchedAreNew};

/// Values satisfy the frames exactly where they are a run from a state that the start allows.
pub fn frames_are_runs()
    ensures { FramesAreRuns }
{}

/// The models of a search are the runs that end in a goal that is not blocked; without one all goals are blocked.
pub fn searched_are_new()
    ensures models { SearchedAreNew }
    ensures none { NoneIsNew }
{}

/// The models of a kept formula are the steps after which its clause is false; without one the clause is kept.
pub fn kept_is_refuted()
    ensures models { KeptModels }
    ensures refuted { KeptIsRefuted }
{}

/// The models of an excludes formula show the goal; without one the clauses exclude it.
pub fn excluded_is_refuted()
    ensures models { ExcludesModels }
    ensures refuted { ExcludedIsRefuted }
{}

/// The formulas have few enough clauses for the solver.
pub fn few_clauses()
    ensures search { FewToSearch }
    ensures kept { FewToKeep }
    ensures excludes { FewToExclude }
{}
