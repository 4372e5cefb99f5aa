//! One trail through all its calls.

ghost use Rattle.std.specs.Prelude.{◌≡◌, ◌≤◌, nat_abs};
ghost use Rattle.sat_trail.specs.Trail.{lits, value_in};

use cnf_base::CnfLit;
use sat_trail::{ClauseId, Trail, Value};
use std::process::Abort;
use std::test::Fail;

fn free_lit(rt: &impl Abort, trail: &Trail, value: i32) -> CnfLit
    ensures in_range { nat_abs result ≤ trail.now.vars }
    ensures unset { value_in (lits trail.now.assignments) result ≡ Value.Unset }
{
    assert!(rt; value != 0);
    let lit = CnfLit::new(value);
    assert!(rt; lit.var() <= trail.vars());
    let unset = trail.value(lit) == Value::Unset;
    assert!(rt; unset);
    lit
}

fn decide(rt: &impl Abort, trail: &mut Trail, value: i32) {
    let lit = free_lit(rt, trail, value);
    trail.decide(lit);
}

fn assume(rt: &impl Abort, trail: &mut Trail, value: i32, reason: ClauseId) {
    let lit = free_lit(rt, trail, value);
    trail.assume(lit, reason);
}

fn set_reason(rt: &impl Abort, trail: &mut Trail, var: u32, reason: ClauseId) {
    assert!(rt; var != 0);
    assert!(rt; var <= trail.vars());
    let forced = trail.reason_of(var).is_some();
    assert!(rt; forced);
    trail.set_reason(var, reason);
}

fn back_to(rt: &impl Abort, trail: &mut Trail, level: u32) {
    assert!(rt; level <= trail.level());
    trail.back_to(level);
}

/// A literal's value, and the level and the reason of its variable.
fn is_seen(
    rt: &impl Abort,
    trail: &Trail,
    value: i32,
    wanted: (Value, Option<u32>, Option<ClauseId>),
) -> bool {
    assert!(rt; value != 0);
    let lit = CnfLit::new(value);
    let var = lit.var();
    assert!(rt; var <= trail.vars());
    (trail.value(lit), trail.level_of(var), trail.reason_of(var)) == wanted
}

/// The number of literals, the present level, and the least number since the last mark.
fn has_counts(trail: &Trail, wanted: (u32, u32, u32)) -> bool {
    (trail.len(), trail.level(), trail.low()) == wanted
}

fn stands_at(rt: &impl Abort, trail: &Trail, place: u32, wanted: i32) -> bool {
    assert!(rt; place < trail.len());
    trail.at(place).value() == wanted
}

fn counts_up_to(rt: &impl Abort, trail: &Trail, level: u32, wanted: u32) -> bool {
    assert!(rt; level <= trail.level());
    trail.len_upto(level) == wanted
}

/// 2 at level 0, the decision -1 and from it 3, the decision -4.
fn grow(rt: &impl Abort, trail: &mut Trail) {
    assume(rt, trail, 2, ClauseId::Unit(u64::MAX));
    decide(rt, trail, -1);
    trail.mark();
    assume(rt, trail, 3, ClauseId::Book(7));
    decide(rt, trail, -4);
}

fn has_grown(rt: &impl Abort, trail: &Trail) -> bool {
    has_counts(trail, (4, 2, 2))
        && stands_at(rt, trail, 1, -1)
        && counts_up_to(rt, trail, 0, 1)
        && counts_up_to(rt, trail, 1, 3)
        && is_seen(rt, trail, 4, (Value::False, Some(2), None))
        && is_seen(
            rt,
            trail,
            3,
            (Value::True, Some(1), Some(ClauseId::Book(7))),
        )
}

fn rests_on(rt: &impl Abort, trail: &mut Trail) -> bool {
    set_reason(rt, trail, 3, ClauseId::Unit(9));
    is_seen(
        rt,
        trail,
        3,
        (Value::True, Some(1), Some(ClauseId::Unit(9))),
    )
}

fn goes_back(rt: &impl Abort, trail: &mut Trail) -> bool {
    back_to(rt, trail, 1);
    has_counts(trail, (3, 1, 2)) && is_seen(rt, trail, 4, (Value::Unset, None, None))
}

fn goes_to_the_root(rt: &impl Abort, trail: &mut Trail) -> bool {
    back_to(rt, trail, 0);
    let unit = Some(ClauseId::Unit(u64::MAX));
    has_counts(trail, (1, 0, 1))
        && is_seen(rt, trail, 2, (Value::True, Some(0), unit))
        && !trail.is_empty()
}

#[test]
fn a_trail_grows_and_goes_back(rt: HostRuntime) -> Result<(), Fail> {
    let mut trail = Trail::new(rt.alloc(), 4)?;
    grow(&rt, &mut trail);
    assert!(rt; has_grown(&rt, &trail));
    assert!(rt; rests_on(&rt, &mut trail));
    assert!(rt; goes_back(&rt, &mut trail));
    assert!(rt; goes_to_the_root(&rt, &mut trail));
    Ok(())
}
