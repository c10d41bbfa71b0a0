// Values of bools and numbers alone, by a plan that is made once for many of them.
ghost use Rattle.std.specs.Prelude.{true, ◌≡◌, ◌+◌, ◌*◌, ◌≤◌, ◌<◌, length, replicate, IfSome};
ghost use Rattle.rules.specs.Decode.{elements, fill};
ghost use Rattle.rules.specs.Sizes.{field};
ghost use Rattle.plans.specs.Plans.{runnable, Runnable, width_row, part_fields, parts_size, plan_in, size_in, PlanAsks};
ghost use Rattle.walk_leaves.specs.Doing.{Ask};
ghost use Rattle.walk_leaves.specs.Parts.{DidValues, DidNeither};
ghost use Rattle.walk_leaves.specs.Planning.{width_at, parts_at, DidAsked, DidByPlan};

use crate::claims::fill_at;
use crate::cursor::{Cursor, gave};
use crate::scalars::{boolean, number_among, numbers};
use layout::laid::Laid;
use plans::{Part, Width};
use rules::Fault;

// A bool, or a number, which is not looked at where the lent list has no room left.
fn part(
    bytes: &[u8],
    values: &mut [u64],
    width: Width,
    at: usize,
    c: Cursor,
) -> Result<Cursor, Fault>
    requires { (runnable width ≡ true) × (c.values < 4294967296) × (at ≤ 65536) }
    ensures { DidValues bytes.now values.old values.new 1 at c result (λ m. width_at m (width_row width)) }
{
    match width {
        Width::Boolean => boolean(bytes, values, at, c),
        Width::Bytes(count) => {
            if values.len() <= c.values {
                return Ok(Cursor {
                    values: c.values + 1,
                    ..c
                });
            }
            let x = number_among(bytes, count, at);
            Ok(gave(values, x, c))
        }
    }
}

// The fill after a part, which most parts have none of.
fn filled(bytes: &[u8], at: usize, count: usize, c: Cursor) -> Result<Cursor, Fault>
    requires { at + count ≤ 131072 }
    ensures { DidNeither bytes.now 0 at c result (λ m. fill m count) }
{
    if count == 0 {
        return Ok(c);
    }
    fill_at(bytes, at, count, c)
}

// One value, part by part, each with the fill after it.
fn one(
    bytes: &[u8],
    values: &mut [u64],
    parts: &[Part],
    at: usize,
    c: Cursor,
) -> Result<Cursor, Fault>
    requires { Runnable parts.now × Ask (length bytes.now) 64 (parts_size parts.now) at c }
    ensures { DidAsked bytes.now values.old values.new (parts_size parts.now) at c result (parts_at parts.now) }
{
    let mut d = c;
    let mut place = at;
    for p in parts {
        let stop = place + p.width.bytes() as usize;
        let fill = p.fill as usize;
        let after = part(bytes, values, p.width, place, d)?;
        d = filled(bytes, stop, fill, after)?;
        place = stop + fill;
    }
    Ok(d)
}

// The width of a plan whose parts are all of one width and have no fill: its values are a run.
fn one_width(parts: &[Part]) -> Option<Width>
    requires { Runnable parts.now }
    ensures { IfSome result (λ width. (runnable width ≡ true) × (part_fields parts.now ≡ replicate (length parts.now) (field (width_row width) 0))) }
{
    let first = parts.first()?;
    for p in parts {
        if p.width != first.width || p.fill != 0 {
            return None;
        }
    }
    Some(first.width)
}

// As many values as there are, one after the other, each of so many bytes. Bools none of which is above 1 are given all at
// once, as numbers of one byte; where one is above 1 they go one by one, to the first that is refused.
pub fn planned(
    bytes: &[u8],
    values: &mut [u64],
    parts: &[Part],
    size: usize,
    count: usize,
    at: usize,
    c: Cursor,
) -> Result<Cursor, Fault>
    requires { Runnable parts.now × (parts_size parts.now ≡ size) × Ask (length bytes.now) 64 (count * size) at c }
    ensures { DidAsked bytes.now values.old values.new (count * size) at c result
        (λ m. elements size (λ i. parts_at parts.now m) 0 count) }
{
    if let Some(width) = one_width(parts) {
        let all = count * parts.len();
        match width {
            Width::Bytes(bytes_each) => return Ok(numbers(bytes, values, bytes_each, all, at, c)),
            Width::Boolean => {
                let stop = at + all;
                if words::bits_of(&bytes[at..stop]) <= 1 {
                    return Ok(numbers(bytes, values, 1, all, at, c));
                }
            }
        }
    }
    let mut d = c;
    let mut place = at;
    for _ in 0..count {
        d = one(bytes, values, parts, place, d)?;
        place += size;
    }
    Ok(d)
}

// As many values as there are of a row that has a plan, by that plan. A call of its own, so that the plan lies on no stack of the
// walk's levels.
#[inline(never)]
fn made_and_done(
    laid: &Laid<'_>,
    bytes: &[u8],
    values: &mut [u64],
    row: usize,
    count: usize,
    at: usize,
    c: Cursor,
) -> Option<Result<Cursor, Fault>>
    requires { PlanAsks laid.now row (λ need. Ask (length bytes.now) 64 need at c) count }
    ensures { DidByPlan (plan_in laid.now row) bytes.now values.old values.new (size_in laid.now row) count at c result }
{
    let Laid {
        rows,
        members,
        sizes,
        alignments,
        ..
    } = *laid;
    let mut parts = [plans::NO_PART; 16];
    let many = plans::plan_into(rows, members, alignments, row, &mut parts)?;
    let size = words::item_at(sizes, row) as usize;
    Some(planned(bytes, values, &parts[..many], size, count, at, c))
}

// The same for any row, tried only where there may be a plan.
#[inline(always)]
pub fn by_plan(
    laid: &Laid<'_>,
    bytes: &[u8],
    values: &mut [u64],
    row: usize,
    count: usize,
    at: usize,
    c: Cursor,
) -> Option<Result<Cursor, Fault>>
    requires { PlanAsks laid.now row (λ need. Ask (length bytes.now) 64 need at c) count }
    ensures { DidByPlan (plan_in laid.now row) bytes.now values.old values.new (size_in laid.now row) count at c result }
{
    if !plans::may_have_plan(laid.rows, laid.members, row) {
        return None;
    }
    made_and_done(laid, bytes, values, row, count, at, c)
}
