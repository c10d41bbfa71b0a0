// Flat values, which are bools and numbers alone: the plan that one or many of them are read and written by.
#![tactic(auto)]

ghost use Rattle.std.specs.Prelude.{◌≡◌, ◌-◌, ◌≤◌, ◌<◌, List, ℕ, false, None};
ghost use Rattle.plans.specs.Plans.{number_width, flat_width, width_bytes, flat_from, plan_of, PartsPut};

use nesting::{Level, next_part, next_place};
use std::marker::Model;

// What a part is: a bool, or a number of so many bytes.
#[derive(Clone, Copy, PartialEq, Eq)]
pub enum Width {
    Boolean,
    Bytes(u32),
}

impl Width {
    // The bytes that a value takes.
    pub fn bytes(self) -> u32
        ensures { result ≡ width_bytes self }
    {
        match self {
            Width::Boolean => 1,
            Width::Bytes(bytes) => bytes,
        }
    }
}

// A bool or a number, and the fill after it.
#[derive(Clone, Copy, PartialEq, Eq)]
pub struct Part {
    pub width: Width,
    pub fill: u32,
}

// What stands after a plan's parts, to the end of its array.
pub const NO_PART: Part = Part {
    width: Width::Boolean,
    fill: 0,
};

// The parts of a value of bools and numbers alone, made once for many of them: so many of an array of fixed size, as no
// memory is asked for.
#[derive(Clone, Copy)]
pub struct Plan {
    parts: [Part; 16],
    count: usize,
}

// What follows the parts is fixed, so that a plan can be copied: its fields follow from the list.
impl Model for Plan {
    ghost use Rattle.std.specs.Prelude.{List, length, take, ◌≡◌, ◌≤◌};
    ghost use Rattle.plans.specs.declared.Part.{Part};
    ghost use Rattle.std.proofs.Common.{arith, sym, length-take-le};
    ghost use Rattle.plans.specs.Plans.{padded};

    ghost Value = { List Part };

    ghost view = { λ p. take p.count p.parts };

    ghost invariant = { λ p. (p.count ≤ 16) × (length p.parts ≡ 16) × (p.parts ≡ padded (take p.count p.parts)) };

    ghost inverse = { λ parts. record { parts = padded parts; count = length parts } };

    ghost inverse_ok = { λ p h i. record { parts = sym h.2 i; count = length-take-le p.count p.parts (omega (arith, h.0, h.1)) i } };
}

impl Plan {
    pub fn parts(&self) -> &[Part]
        ensures { result.now ≡ self.now }
    {
        &self.parts[..self.count]
    }
}

// The width of a number of so many bytes. A row of no bytes is taken as a bool, and no sound type table has one.
fn number_width(bytes: u32) -> Option<Width>
    ensures { result ≡ number_width bytes }
{
    match bytes {
        0 => Some(Width::Boolean),
        1..=8 => Some(Width::Bytes(bytes)),
        _ => None,
    }
}

// The width of a row's value, if it is a bool or a number.
fn flat_width(rows: &[u32], row: usize) -> Option<Width>
    ensures { result ≡ flat_width rows.now row }
{
    match table::kind_at(rows, row) {
        1 => Some(Width::Boolean),
        2 => number_width(table::a_at(rows, row)),
        _ => None,
    }
}

// Whether a row may have a plan: a bool, or a struct whose first member is a bool or a number.
pub fn may_have_plan(rows: &[u32], members: &[u32], row: usize) -> bool
    ensures { result ≡ false → (alignments : List ℕ) → plan_of rows.now members.now alignments row ≡ None }
{
    let first = table::a_at(rows, row) as usize;
    let part = table::row_of(members, first) as usize;
    match table::kind_at(rows, row) {
        1 => true,
        7 => table::kind_at(rows, part) <= 2,
        _ => false,
    }
}

// The parts of a struct of so many members, put into a lent array.
fn flat_members(
    rows: &[u32],
    members: &[u32],
    alignments: &[u32; 256],
    row: usize,
    count: usize,
    parts: &mut [Part; 16],
) -> Option<usize>
    requires { (row < 256) × (count ≤ 16) }
    ensures { PartsPut (flat_from rows.now members.now alignments.now row 0 0 count) parts.old result parts.new }
{
    let mut place: usize = 0;
    for i in 0..count {
        let level = Level {
            row,
            done: i,
            at: 0,
        };
        let width = flat_width(rows, next_part(rows, members, level))?;
        let stop = place + width.bytes() as usize;
        let next = next_place(rows, members, alignments, level, stop);
        let fill = next.saturating_sub(stop);
        if 8 < fill {
            return None;
        }
        parts[i] = Part {
            width,
            fill: fill as u32,
        };
        place = next;
    }
    Some(count)
}

// The plan of a row's value: its parts are put into a lent array, and counted. The walks' leaves lend one, so that no plan is moved: that
// would be a call of `memcpy`, which a host would have to bring.
pub fn plan_into(
    rows: &[u32],
    members: &[u32],
    alignments: &[u32; 256],
    row: usize,
    parts: &mut [Part; 16],
) -> Option<usize>
    ensures { PartsPut (plan_of rows.now members.now alignments.now row) parts.old result parts.new }
{
    if 256 <= row {
        return None;
    }
    let kind = table::kind_at(rows, row);
    if kind == 1 {
        parts[0] = Part {
            width: Width::Boolean,
            fill: 0,
        };
        return Some(1);
    }
    let count = table::b_at(rows, row) as usize;
    if (kind == 7) & (0 < count) & (count <= 16) {
        return flat_members(rows, members, alignments, row, count, parts);
    }
    None
}

// The plan of a row's value.
pub fn plan_of(rows: &[u32], members: &[u32], alignments: &[u32; 256], row: usize) -> Option<Plan>
    ensures { result ≡ plan_of rows.now members.now alignments.now row }
{
    let mut parts = [NO_PART; 16];
    let count = plan_into(rows, members, alignments, row, &mut parts)?;
    Some(Plan { parts, count })
}
