//! Learning from a conflict.

ghost use Rattle.std.specs.Prelude.{◌≡◌, ◌<◌, ℤ, List, IfOk};
ghost use Rattle.cnf_base.specs.Meaning.{CnfFormula};
ghost use Rattle.cnf_base.specs.Status.{IsFalsifiedIn};
ghost use Rattle.sat_trail.specs.Trail.{lits};
ghost use Rattle.sat_watch.specs.Book.{IsClauseOf};
ghost use Rattle.sat_watch.specs.Ready.{IsReady};
ghost use Rattle.sat_solver.specs.Ledger.{earlier};
ghost use Rattle.sat_solver.specs.SearchInvariant.{IsSearch};
ghost use Rattle.sat_solver.specs.LearnedLemma.{HasProofId, IsProofIdOf, IsLearnedFrom};

use crate::search::Search;
use ketch_base::OutOfMemory;
use sat_learn::LearnedClause;
use sat_trail::ClauseId;

/// The id in the proof of a clause of the book.
pub fn proof_id_of(proof_ids: &[u64], id: ClauseId) -> u64
    requires { HasProofId proof_ids.now id }
    ensures { IsProofIdOf proof_ids.now id result }
{
    match id {
        ClauseId::Book(index) => proof_ids[index as usize],
        ClauseId::Unit(_) => unreachable!(),
    }
}

/// The clause that is learned from one that is false, and wasn't below the present level.
pub fn analyze(search: &mut Search, conflict: ClauseId) -> Result<LearnedClause, OutOfMemory>
    requires search { (formula : CnfFormula) × IsSearch formula (earlier formula search.old.steps) search.old }
    requires ready { IsReady search.old.premises.book search.old.premises.trail }
    requires above { 0 < search.old.premises.trail.level }
    requires conflict { (clause : List ℤ) × IsClauseOf search.old.premises.book.clauses conflict clause × IsFalsifiedIn (lits search.old.premises.trail.assignments) clause }
    ensures stays { search.new ≡ search.old }
    ensures learned_from { IfOk result (λ learned. (formula : CnfFormula) → IsSearch formula (earlier formula search.old.steps) search.old
        → IsLearnedFrom formula search.old.steps search.old.premises.trail learned) }
{
    let premises = &search.premises;
    premises.trail.is_well_formed();
    let id = proof_id_of(premises.proof_ids.as_slice(), conflict);
    let clause = premises.book.clause(conflict);
    let learned = search.analyzer.analyze(premises, clause, id)?;
    Ok(learned)
}
