// Structs and arrays nested in line, one member or element at a time: what comes next in one of them, and where.
#![tactic(auto)]

ghost use Rattle.std.specs.Prelude.{◌≡◌, ◌≤◌, ◌<◌};
ghost use Rattle.nesting.specs.Nesting.{next_offset, has_parts, next_part, next_place, next_step};

// So many structs and arrays, each within the one before it, are walked or written by one call; a call of its own takes
// what is nested deeper.
pub const NESTED: usize = 8;

// A struct or an array on the way: where it stands, and how many of its members or elements are done.
#[derive(Clone, Copy)]
pub struct Level {
    pub row: usize,
    pub done: usize,
    pub at: usize,
}

// What comes next: fill up to a place; a member or element that has parts itself and is gone into, or one that is left to
// a call; the one around it goes on; or all is done.
#[derive(Clone, Copy)]
pub enum Step {
    Fill(usize),
    Into(usize),
    Call(usize),
    Out,
    Done,
}

// Whether a row's value is made of values that come one by one: a struct that has members, or an array of anything but
// numbers.
pub fn has_parts(rows: &[u32], row: usize) -> bool
    ensures { result ≡ has_parts rows.now row }
{
    if 256 <= row {
        return false;
    }
    let kind = table::kind_at(rows, row);
    let a = table::a_at(rows, row) as usize;
    let count = table::b_at(rows, row);
    (kind == 7) & (0 < count) | (kind == 4) & (table::kind_at(rows, a) != 2)
}

// Where the member after one starts, or where the struct ends, counted from the struct's start.
fn next_offset(
    members: &[u32],
    alignments: &[u32; 256],
    row: usize,
    member: usize,
    end: usize,
    offset: u32,
) -> usize
    requires { member < 281474976710656 }
    ensures { (result ≡ next_offset members.now alignments.now row member end offset) × (result < 8589934592) }
{
    if member + 1 == end {
        return words::round_up(offset, words::item_at(alignments, row)) as usize;
    }
    let next = table::row_of(members, member + 1) as usize;
    words::round_up(offset, words::item_at(alignments, next)) as usize
}

// The row of the member or element that comes next in it.
pub fn next_part(rows: &[u32], members: &[u32], level: Level) -> usize
    requires { (level.row < 256) × (level.done < 65536) }
    ensures { (result ≡ next_part rows.now members.now level) × (result < 4294967296) }
{
    let a = table::a_at(rows, level.row) as usize;
    if table::kind_at(rows, level.row) == 7 {
        return table::row_of(members, a + level.done) as usize;
    }
    a
}

// Where the next member or element starts, or where the whole ends, after one that stops at a place.
pub fn next_place(
    rows: &[u32],
    members: &[u32],
    alignments: &[u32; 256],
    level: Level,
    stop: usize,
) -> usize
    requires { (level.row < 256) × (level.done < 65536) × (level.at ≤ stop) × (stop ≤ 65536) }
    ensures { result ≡ next_place rows.now members.now level alignments.now stop }
{
    if table::kind_at(rows, level.row) == 4 {
        return stop;
    }
    let first = table::a_at(rows, level.row) as usize;
    let end = first + table::b_at(rows, level.row) as usize;
    let offset = next_offset(
        members,
        alignments,
        level.row,
        first + level.done,
        end,
        (stop - level.at) as u32,
    );
    level.at + offset
}

// `due`: a member or element has just ended at the place, and the fill after it comes first. `around`: how many are
// around this one. A level that no message has is done.
pub fn next_step(
    rows: &[u32],
    members: &[u32],
    alignments: &[u32; 256],
    level: Level,
    due: bool,
    place: usize,
    around: usize,
) -> Step
    ensures { result ≡ next_step rows.now members.now level alignments.now due place around }
{
    let possible = (level.row < 256)
        & (level.done < 65536)
        & (level.at <= place)
        & (place <= 65536);
    if !possible {
        return Step::Done;
    }
    if due {
        return Step::Fill(next_place(rows, members, alignments, level, place));
    }
    if level.done == table::b_at(rows, level.row) as usize {
        return if around == 0 { Step::Done } else { Step::Out };
    }
    let part = next_part(rows, members, level);
    if (around < NESTED) & has_parts(rows, part) {
        return Step::Into(part);
    }
    Step::Call(part)
}
