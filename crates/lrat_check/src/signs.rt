//! The sign in which each variable is assumed.

ghost use Rattle.std.specs.Prelude.{◌≡◌, ℕ, nat_eq, if◌then◌else◌, Some, None, IfOk, OnOk, OnErr};
ghost use Rattle.lrat_check.specs.Assumptions.{sign_at};

use ketch_base::OutOfMemory;
use std::alloc::Global;
use std::collections::BTreeMap;

/// A proof may name variables far above those of its formula: the formula's are found by their place, and others in a
/// map, which stays small where few of them are assumed at a time. No proof can make either slow.
#[derive(Debug, Drop)]
pub struct Signs {
    pub low: Vec<Option<bool>>,
    pub high: BTreeMap<u32, bool>,
}

impl Signs {
    pub fn new(alloc: Global, vars: u32) -> Result<Signs, OutOfMemory>
        ensures { IfOk result (λ signs. (var : ℕ) → sign_at signs var ≡ None) }
    {
        Ok(Signs {
            low: vec![in alloc; None; vars as usize + 1]?,
            high: BTreeMap::new(alloc),
        })
    }

    pub fn at(&self, var: u32) -> Option<bool>
        ensures { result ≡ sign_at self.now var }
    {
        let place = var as usize;
        if place < self.low.len() {
            self.low[place]
        } else {
            self.high.get(&var).copied()
        }
    }

    pub fn set(&mut self, var: u32, sign: bool) -> Result<(), OutOfMemory>
        ensures ok { OnOk result ((x : ℕ) → sign_at self.new x ≡ (if nat_eq x var then Some sign else sign_at self.old x)) }
        ensures err { OnErr result ((x : ℕ) → sign_at self.new x ≡ sign_at self.old x) }
    {
        let place = var as usize;
        if place < self.low.len() {
            self.low[place] = Some(sign);
        } else {
            self.high.insert(var, sign)?;
        }
        Ok(())
    }

    pub fn unset(&mut self, var: u32)
        ensures { (x : ℕ) → sign_at self.new x ≡ (if nat_eq x var then None else sign_at self.old x) }
    {
        let place = var as usize;
        if place < self.low.len() {
            self.low[place] = None;
        } else {
            self.high.remove(&var);
        }
    }
}
