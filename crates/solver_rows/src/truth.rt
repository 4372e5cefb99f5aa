//! What values make of a formula, clause by clause. Bit v - 1 of the values is that of variable v, at most 64.

use cnf_base::{CnfLit, Formula};

fn is_true(lit: CnfLit, values: u64) -> bool {
    let value = (values >> ((lit.var() - 1) % 64)) & 1 == 1;
    value == lit.is_positive()
}

fn has_true(lits: &[CnfLit], values: u64) -> bool {
    lits.iter().any(|lit| is_true(*lit, values))
}

pub fn satisfies(formula: &Formula, values: u64) -> bool {
    for clause in formula.clauses().as_slice() {
        if !has_true(clause.as_slice(), values) {
            return false;
        }
    }
    true
}

/// Whether some values satisfy a formula of at most 20 variables: all of them are tried.
pub fn has_model(formula: &Formula) -> bool {
    for values in 0..1u64 << formula.vars().min(20) {
        if satisfies(formula, values) {
            return true;
        }
    }
    false
}
