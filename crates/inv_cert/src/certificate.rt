//! What makes a goal unreachable.

ghost use Rattle.std.specs.Prelude.{◌≡◌};
ghost use Rattle.lrat_text.specs.Text.{IsWritable};
ghost use Rattle.inv_cert.specs.KeptSets.{IsKeptSet};

use crate::kept_set::KeptSet;
use lrat_text::Proof;
use std::alloc::Global;
use std::marker::Model;
use std::sync::Arc;

/// A kept set, which the certificates of many goals share, and a proof that it excludes a goal.
#[derive(Drop)]
pub struct Certificate {
    base: Arc<KeptSet, Global>,
    excludes: Proof,
}

impl Model for Certificate {
    ghost use Rattle.inv_cert.specs.Certificates.{CertificateParts};
    ghost use Rattle.lrat_text.specs.Text.{IsWritable};
    ghost use Rattle.inv_cert.specs.KeptSets.{IsKeptSet};

    ghost Value = { CertificateParts };

    ghost view = { λ c. record { base = c.base.value; excludes = c.excludes } };

    ghost invariant = { λ c. IsKeptSet c.base.value × IsWritable c.excludes };
}

impl Certificate {
    pub fn new(base: Arc<KeptSet, Global>, excludes: Proof) -> Certificate
        requires { IsWritable excludes }
        ensures { result ≡ record { base = base.value; excludes = excludes } }
    {
        base.is_checked();
        Certificate { base, excludes }
    }

    /// Says that the kept set was checked, and that the proof can be written and read back.
    pub fn is_checked(&self)
        ensures base { IsKeptSet self.now.base }
        ensures written { IsWritable self.now.excludes }
    {
        let _ = &self.excludes;
    }

    pub fn base(&self) -> &KeptSet
        ensures { result.now ≡ self.now.base }
    {
        &self.base
    }

    pub fn excludes(&self) -> &Proof
        ensures { result.now ≡ self.now.excludes }
    {
        &self.excludes
    }

    /// The proof alone.
    pub fn into_excludes(self) -> Proof
        ensures { result ≡ self.excludes }
    {
        let Certificate { base: _, excludes } = self;
        excludes
    }
}
