//! What settles a goal.

ghost use Rattle.std.specs.Prelude.{◌≡◌, ◌<◌, ◌^◌, ◌⊎◌, ◌↔◌, ℕ, Ok, length, IfOk, IsErrOf, MatchOption};
ghost use Rattle.ketch_base.specs.Exactly.{OkExactly, ErrExactly};
ghost use Rattle.ketch_base.specs.First.{IsFirst};
ghost use Rattle.aig_model.specs.Meaning.{IsReset};
ghost use Rattle.aig_model.specs.Replays.{Shows};
ghost use Rattle.aig_model.specs.declared.parts.Kind.TheVariants.{Reached, Unreachable};
ghost use Rattle.aig_eval.specs.Replay.{FailsAt, HasShape, StartsWrong};
ghost use Rattle.lrat_text.specs.Accepted.{Accepted};
ghost use Rattle.unroll.specs.Queries.{excludes_formula};
ghost use Rattle.inv_cert.specs.Evidences.{IsEvidence, kind_of};
ghost use Rattle.inv_cert.specs.declared.evidence.Basis.TheVariants.{Run, Clauses};

use crate::acceptance::is_accepted;
use crate::certificate::Certificate;
use crate::fault::CertFault;
use aig_eval::{ReplayFault, replay};
use aig_model::{Circuit, Kind, Signals, Trace};
use std::alloc::Global;
use std::marker::Model;
use std::snapshot::Snapshot;
use unroll::excludes_formula;

/// A run that shows the goal, or clauses that exclude it.
#[derive(Drop)]
pub enum Basis {
    Run(Trace),
    Clauses(Certificate),
}

/// Why a goal is reached or unreachable.
#[derive(Drop)]
pub struct Evidence {
    goal: u32,
    basis: Basis,
    signals: Snapshot<Signals>,
}

impl Model for Evidence {
    ghost use Rattle.inv_cert.specs.Evidences.{Evidence, IsEvidence};

    ghost Value = { Evidence };

    ghost view = { λ e. record { signals = e.signals.value; goal = e.goal; basis = e.basis } };

    ghost invariant = { λ e. IsEvidence (record { signals = e.signals.value; goal = e.goal; basis = e.basis }) };
}

impl Evidence {
    /// Refuses as `replay` does.
    pub fn from_trace(
        alloc: Global,
        circuit: &Circuit,
        signals: &Signals,
        trace: Trace,
    ) -> Result<Evidence, ReplayFault>
        requires circuit { signals.now.circuit ≡ circuit.now }
        requires few { length trace.rows.rows < 2 ^ 32 }

        ensures value { IfOk result (λ e. (e.signals ≡ signals.now) × (e.basis ≡ Run trace)) }
        ensures shows { IfOk result (λ e. Shows circuit.now signals.now.lits trace e.goal) }
        ensures shown { (goal : ℕ) → Shows circuit.now signals.now.lits trace goal
            → (result ≡ Ok (record { signals = signals.now; goal = goal; basis = Run trace })) ⊎ IsErrOf result ReplayFault.OutOfMemory }

        ensures shape { IsErrOf result ReplayFault.Shape ↔ ¬ HasShape circuit.now trace }
        ensures reset { (k : ℕ) → IsErrOf result (ReplayFault.NotReset k)
            ↔ (HasShape circuit.now trace × IsFirst (StartsWrong circuit.now trace.start) k) }
        ensures constraint { (t : ℕ) → IsErrOf result (ReplayFault.Constraint t)
            → HasShape circuit.now trace × IsReset circuit.now trace.start × IsFirst (FailsAt circuit.now trace) t }
        ensures fails { (t : ℕ) → HasShape circuit.now trace → IsReset circuit.now trace.start
            → IsFirst (FailsAt circuit.now trace) t
            → IsErrOf result (ReplayFault.Constraint t) ⊎ IsErrOf result ReplayFault.OutOfMemory }
    {
        let goal = replay(alloc, circuit, signals, &trace)?;
        let signals = Snapshot::of(signals);
        Ok(Evidence {
            goal,
            basis: Basis::Run(trace),
            signals,
        })
    }

    /// Of a trace that is known to show the goal. It isn't replayed again, and this takes no memory.
    pub fn of_shown(signals: &Signals, goal: u32, trace: Trace) -> Evidence
        requires { Shows signals.now.circuit signals.now.lits trace goal }
        ensures { result ≡ record { signals = signals.now; goal = goal; basis = Run trace } }
    {
        Evidence {
            goal,
            basis: Basis::Run(trace),
            signals: Snapshot::of(signals),
        }
    }

    pub fn from_cert(
        alloc: Global,
        circuit: &Circuit,
        signals: &Signals,
        goal: u32,
        cert: Certificate,
    ) -> Result<Evidence, CertFault>
        requires circuit { signals.now.circuit ≡ circuit.now }
        requires goal { goal < 2 ^ length signals.now.lits }
        requires base { cert.base.circuit ≡ circuit.now }
        ensures value { IfOk result (λ e. e ≡ record { signals = signals.now; goal = goal; basis = Clauses cert }) }
        ensures ok { OkExactly CertFault.OutOfMemory result (Accepted (excludes_formula circuit.now signals.now.lits cert.base.clauses goal) cert.excludes) }
        ensures excludes { ErrExactly CertFault.OutOfMemory result CertFault.Excludes (¬ Accepted (excludes_formula circuit.now signals.now.lits cert.base.clauses goal) cert.excludes) }
    {
        circuit.is_well_formed();
        signals.is_well_formed();
        cert.is_checked();
        let formula = excludes_formula(alloc, circuit, signals, cert.base().clauses(), goal)?;
        if !is_accepted(alloc, &formula, cert.excludes())? {
            return Err(CertFault::Excludes);
        }
        let signals = Snapshot::of(signals);
        Ok(Evidence {
            goal,
            basis: Basis::Clauses(cert),
            signals,
        })
    }

    /// Of a certificate whose proof for the goal is known to be accepted. It isn't checked again, and this takes no
    /// memory.
    pub fn of_accepted(
        circuit: &Circuit,
        signals: &Signals,
        goal: u32,
        cert: Certificate,
    ) -> Evidence
        requires circuit { signals.now.circuit ≡ circuit.now }
        requires goal { goal < 2 ^ length signals.now.lits }
        requires base { cert.base.circuit ≡ circuit.now }
        requires accepted { Accepted (excludes_formula circuit.now signals.now.lits cert.base.clauses goal) cert.excludes }
        ensures { result ≡ record { signals = signals.now; goal = goal; basis = Clauses cert } }
    {
        circuit.is_well_formed();
        signals.is_well_formed();
        cert.is_checked();
        Evidence {
            goal,
            basis: Basis::Clauses(cert),
            signals: Snapshot::of(signals),
        }
    }

    /// Says that the goal is below the number of goals, and that the basis was checked.
    pub fn is_checked(&self)
        ensures { IsEvidence self.now }
    {
        let _ = &self.goal;
    }

    pub fn goal(&self) -> u32
        ensures { result ≡ self.now.goal }
    {
        self.goal
    }

    pub fn kind(&self) -> Kind
        ensures { result ≡ kind_of self.now.basis }
    {
        match self.basis {
            Basis::Run(_) => Kind::Reached,
            Basis::Clauses(_) => Kind::Unreachable,
        }
    }

    /// What shows that the goal is settled.
    pub fn into_basis(self) -> Basis
        ensures { result ≡ self.basis }
    {
        let Evidence {
            goal: _,
            basis,
            signals: _,
        } = self;
        basis
    }

    pub fn trace(&self) -> Option<&Trace>
        ensures { MatchOption result (kind_of self.now.basis ≡ Unreachable) (λ trace. self.now.basis ≡ Run trace.now) }
    {
        match &self.basis {
            Basis::Run(trace) => Some(trace),
            Basis::Clauses(_) => None,
        }
    }

    pub fn cert(&self) -> Option<&Certificate>
        ensures { MatchOption result (kind_of self.now.basis ≡ Reached) (λ cert. self.now.basis ≡ Clauses cert.now) }
    {
        match &self.basis {
            Basis::Run(_) => None,
            Basis::Clauses(cert) => Some(cert),
        }
    }
}
