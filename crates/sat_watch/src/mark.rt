//! Literals with their levels.

use cnf_base::CnfLit;

#[derive(Clone, Copy, Debug)]
pub struct Mark {
    pub lit: CnfLit,
    pub level: u32,
}
