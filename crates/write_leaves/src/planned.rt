// Values of bools and numbers alone, by a plan that is made once for many of them.
ghost use Rattle.std.specs.Prelude.{true, ◌≡◌, ◌*◌};
ghost use Rattle.rules.specs.Encode.{elements};
ghost use Rattle.plans.specs.Plans.{runnable, Runnable, width_bytes, width_row, parts_size, plan_in, size_in, PlanAsks};
ghost use Rattle.write_leaves.specs.Putting.{Stands, Ask, PutsInLine};
ghost use Rattle.write_leaves.specs.Planning.{width_as, parts_as, PutAsked, PutByPlan};

use crate::cursor::{Cursor, put_zeros};
use crate::scalars::{boolean, number};
use layout::laid::Laid;
use plans::{Part, Width};
use rules::Fault;

// A bool or a number: 26.
fn part(values: &[u64], out: &mut [u8], width: Width, at: usize, c: Cursor) -> Result<Cursor, Fault>
    requires { (runnable width ≡ true) × Stands values.now c }
    ensures { PutsInLine values.now out.old out.new (width_bytes width) at c result (width_as (width_row width)) }
{
    match width {
        Width::Boolean => boolean(values, out, at, c),
        Width::Bytes(count) => number(values, out, count, at, c),
    }
}

// One value, part by part, each with the fill after it.
fn one(
    values: &[u64],
    out: &mut [u8],
    parts: &[Part],
    at: usize,
    c: Cursor,
) -> Result<Cursor, Fault>
    requires { Runnable parts.now × Ask values.now (parts_size parts.now) at 0 c }
    ensures { PutAsked values.now out.old out.new (parts_size parts.now) at c result (parts_as parts.now) }
{
    let mut d = c;
    let mut place = at;
    for p in parts {
        let stop = place + p.width.bytes() as usize;
        let fill = p.fill as usize;
        d = part(values, out, p.width, place, d)?;
        put_zeros(out, stop, fill);
        place = stop + fill;
    }
    Ok(d)
}

// As many values as there are, one after the other, each of so many bytes. A call of its own, as its loops take all registers.
#[inline(never)]
pub fn planned(
    values: &[u64],
    out: &mut [u8],
    parts: &[Part],
    size: usize,
    count: usize,
    at: usize,
    c: Cursor,
) -> Result<Cursor, Fault>
    requires { Runnable parts.now × (parts_size parts.now ≡ size) × Ask values.now (count * size) at 0 c }
    ensures { PutAsked values.now out.old out.new (count * size) at c result (elements (λ i. parts_as parts.now) 0 count) }
{
    let mut d = c;
    let mut place = at;
    for _ in 0..count {
        d = one(values, out, parts, place, d)?;
        place += size;
    }
    Ok(d)
}

// As many values as there are of a row that has a plan, by that plan. A call of its own, so that the plan lies on no stack of the
// walk's levels.
#[inline(never)]
fn made_and_put(
    laid: &Laid<'_>,
    values: &[u64],
    out: &mut [u8],
    row: usize,
    count: usize,
    at: usize,
    c: Cursor,
) -> Option<Result<Cursor, Fault>>
    requires { PlanAsks laid.now row (λ need. Ask values.now need at 0 c) count }
    ensures { PutByPlan (plan_in laid.now row) values.now out.old out.new (size_in laid.now row) count at c result }
{
    let Laid {
        rows,
        members,
        sizes,
        alignments,
        ..
    } = *laid;
    let mut parts = [plans::NO_PART; 16];
    let many = plans::plan_into(rows, members, alignments, row, &mut parts)?;
    let size = words::item_at(sizes, row) as usize;
    Some(planned(values, out, &parts[..many], size, count, at, c))
}

// The same for any row, tried only where there may be a plan.
#[inline(always)]
pub fn by_plan(
    laid: &Laid<'_>,
    values: &[u64],
    out: &mut [u8],
    row: usize,
    count: usize,
    at: usize,
    c: Cursor,
) -> Option<Result<Cursor, Fault>>
    requires { PlanAsks laid.now row (λ need. Ask values.now need at 0 c) count }
    ensures { PutByPlan (plan_in laid.now row) values.now out.old out.new (size_in laid.now row) count at c result }
{
    if !plans::may_have_plan(laid.rows, laid.members, row) {
        return None;
    }
    made_and_put(laid, values, out, row, count, at, c)
}
