// Value walk, element walk and envelope walk: they call each other until the depth is spent. Rows of smaller numbers stand
// in line; whatever stands out of line is one level down.
ghost use Rattle.std.specs.Prelude.{true, false, ◌≡◌, ◌*◌, ◌<◌, List, ℕ, length};
ghost use Rattle.rules.specs.TypeTable.{kind_at};
ghost use Rattle.rules.specs.Sizes.{size_of};
ghost use Rattle.walk_leaves.specs.Doing.{Ask, cursor_at};
ghost use Rattle.nesting.specs.Nesting.{has_parts};
ghost use Rattle.ordinals.specs.Ordinals.{OrdinalFits};
ghost use Rattle.layout.specs.Ready.{Ready, table_in, Outside};
ghost use Rattle.walk.specs.Walking.{ValueDid, ElementsDid, EnvelopesDid, ContentDid};

use layout::laid::Laid;
use nesting::{Level, NESTED, Step};
use rules::{Fault, Refusal};
use walk_leaves::claims::fill_at;
use walk_leaves::cursor::{Cursor, gave, passed_on, refused};
use walk_leaves::planned::by_plan;
use walk_leaves::scalars::{boolean, handle, number, numbers};
use walk_leaves::strict_rows::strict_values;
use walk_records::envelopes::{Member, known_opened, sealed, union_member, unknown_content};
use walk_records::records::{Opened, box_opened, string, table_opened, vector_opened};
use words::Word;

// The value of a row at a place. The cursor comes as four numbers: as a struct it would go through memory at each level.
#[cycle(composite_content_elements_envelopes_out_of_line_value)]
pub fn value(
    laid: &Laid<'_>,
    bytes: &[u8],
    held: usize,
    values: &mut [u64],
    objects: &mut [u32],
    depth: usize,
    row: usize,
    at: usize,
    next: usize,
    handles: usize,
    given: usize,
    listed: usize,
) -> Result<Cursor, Fault>
    requires { Ready (table_in laid.now) laid.now.sizes.now laid.now.alignments.now depth row
        × Ask (length bytes.now) held (size_of (table_in laid.now) row) at (cursor_at next handles given listed) }
    ensures { ValueDid (table_in laid.now) bytes.now held depth values.old values.new objects.old objects.new at (cursor_at next handles given listed) row result }
{
    let Laid { rows, entries, .. } = *laid;
    let c = Cursor {
        next,
        handles,
        values: given,
        objects: listed,
    };
    let kind = table::kind_at(rows, row);
    let a = table::a_at(rows, row);
    if kind == 1 {
        return boolean(bytes, values, at, c);
    }
    if kind == 2 {
        return number(bytes, values, a, at, c);
    }
    if kind == 3 {
        return handle(bytes, held, values, a, at, c);
    }
    if (kind == 4) | (kind == 7) {
        if nesting::has_parts(rows, row) {
            return composite(laid, bytes, held, values, objects, depth, row, at, c);
        }
        // the one byte of an empty struct is fill
        if kind == 7 {
            return fill_at(bytes, at, 1, c);
        }
        let count = table::b_at(rows, row) as usize;
        return run_of_numbers(laid, bytes, held, values, depth, a as usize, count, at, c);
    }
    if kind == 6 {
        let largest = table::b_at(rows, row);
        let optional = table::c_at(rows, row);
        return string(bytes, values, objects, depth, row, largest, optional, at, c);
    }
    if (kind == 11) | (kind == 12) {
        return strict_values(rows, entries, bytes, values, row, 1, at, c);
    }
    out_of_line(laid, bytes, held, values, objects, depth, row, at, c)
}

// So many numbers, one after the other. A call of its own, so that what it needs lies on no stack of the functions that call each other.
#[inline(never)]
fn run_of_numbers(
    laid: &Laid<'_>,
    bytes: &[u8],
    held: usize,
    values: &mut [u64],
    depth: usize,
    row: usize,
    count: usize,
    at: usize,
    c: Cursor,
) -> Result<Cursor, Fault>
    requires { Ready (table_in laid.now) laid.now.sizes.now laid.now.alignments.now depth row × (kind_at (table_in laid.now) row ≡ 2) × Ask (length bytes.now) held (count * size_of (table_in laid.now) row) at c }
    ensures { (objects : List ℕ) → ElementsDid (table_in laid.now) bytes.now held depth values.old values.new objects objects at c row count result }
{
    let width = table::a_at(laid.rows, row);
    Ok(numbers(bytes, values, width, count, at, c))
}

// As many values of a row as there are, one after the other.
#[cycle(composite_content_elements_envelopes_out_of_line_value)]
fn elements(
    laid: &Laid<'_>,
    bytes: &[u8],
    held: usize,
    values: &mut [u64],
    objects: &mut [u32],
    depth: usize,
    row: usize,
    count: usize,
    at: usize,
    c: Cursor,
) -> Result<Cursor, Fault>
    requires { Ready (table_in laid.now) laid.now.sizes.now laid.now.alignments.now depth row × Ask (length bytes.now) held (count * size_of (table_in laid.now) row) at c }
    ensures { ElementsDid (table_in laid.now) bytes.now held depth values.old values.new objects.old objects.new at c row count result }
{
    let Laid {
        rows,
        entries,
        sizes,
        ..
    } = *laid;
    let kind = table::kind_at(rows, row);
    if kind == 2 {
        return run_of_numbers(laid, bytes, held, values, depth, row, count, at, c);
    }
    if (kind == 11) | (kind == 12) {
        return strict_values(rows, entries, bytes, values, row, count, at, c);
    }
    if let Some(done) = by_plan(laid, bytes, values, row, count, at, c) {
        return done;
    }
    let size = words::item_at(sizes, row) as usize;
    let mut d = c;
    let mut place = at;
    for _ in 0..count {
        d = value(
            laid, bytes, held, values, objects, depth, row, place, d.next, d.handles, d.values,
            d.objects,
        )?;
        place += size;
    }
    Ok(d)
}

// A struct's members or an array's elements in turn, with the fill after each member.
#[cycle(composite_content_elements_envelopes_out_of_line_value)]
fn composite(
    laid: &Laid<'_>,
    bytes: &[u8],
    held: usize,
    values: &mut [u64],
    objects: &mut [u32],
    depth: usize,
    row: usize,
    at: usize,
    c: Cursor,
) -> Result<Cursor, Fault>
    requires { Ready (table_in laid.now) laid.now.sizes.now laid.now.alignments.now depth row × (has_parts laid.now.rows.now row ≡ true)
        × Ask (length bytes.now) held (size_of (table_in laid.now) row) at c }
    ensures { ValueDid (table_in laid.now) bytes.now held depth values.old values.new objects.old objects.new at c row result }
{
    let Laid {
        rows,
        members,
        sizes,
        alignments,
        ..
    } = *laid;
    // one of bools and numbers alone
    if let Some(done) = by_plan(laid, bytes, values, row, 1, at, c) {
        return done;
    }
    let first = table::a_at(rows, row) as usize;
    let part = table::row_of(members, first) as usize;
    // a struct of one member that has no parts itself: the member, and the fill after it
    if (table::kind_at(rows, row) == 7)
        & (table::b_at(rows, row) == 1)
        & !nesting::has_parts(rows, part)
    {
        let d = value(
            laid, bytes, held, values, objects, depth, part, at, c.next, c.handles, c.values,
            c.objects,
        )?;
        let stop = at + words::item_at(sizes, part) as usize;
        let fill = at + words::item_at(sizes, row) as usize - stop;
        return fill_at(bytes, stop, fill, d);
    }
    let mut kept = [Level {
        row: 0,
        done: 0,
        at: 0,
    }; NESTED];
    let mut around: usize = 0;
    let mut level = Level { row, done: 0, at };
    let mut due = false;
    let mut place = at;
    let mut d = c;
    loop {
        match nesting::next_step(rows, members, alignments, level, due, place, around) {
            Step::Fill(next) => {
                d = fill_at(bytes, place, next - place, d)?;
                place = next;
                level.done += 1;
                due = false;
            }
            Step::Into(part) => {
                kept[around] = level;
                around += 1;
                level = Level {
                    row: part,
                    done: 0,
                    at: place,
                };
            }
            Step::Call(part) => {
                d = value(
                    laid, bytes, held, values, objects, depth, part, place, d.next, d.handles,
                    d.values, d.objects,
                )?;
                place += words::item_at(sizes, part) as usize;
                due = true;
            }
            Step::Out => {
                around -= 1;
                level = kept[around];
                due = true;
            }
            Step::Done => {
                return Ok(d);
            }
        }
    }
}

// A value whose record leads out of line: vector, box, table or union.
#[cycle(composite_content_elements_envelopes_out_of_line_value)]
fn out_of_line(
    laid: &Laid<'_>,
    bytes: &[u8],
    held: usize,
    values: &mut [u64],
    objects: &mut [u32],
    depth: usize,
    row: usize,
    at: usize,
    c: Cursor,
) -> Result<Cursor, Fault>
    requires { Ready (table_in laid.now) laid.now.sizes.now laid.now.alignments.now depth row × Outside (kind_at (table_in laid.now) row)
        × Ask (length bytes.now) held (size_of (table_in laid.now) row) at c }
    ensures { ValueDid (table_in laid.now) bytes.now held depth values.old values.new objects.old objects.new at c row result }
{
    let Laid {
        rows,
        members,
        sizes,
        ..
    } = *laid;
    let kind = table::kind_at(rows, row);
    let a = table::a_at(rows, row) as usize;
    let b = table::b_at(rows, row);
    let form = table::c_at(rows, row);
    if kind == 5 {
        let size = words::item_at(sizes, a) as usize;
        return match vector_opened(bytes, values, objects, depth, row, size, b, form, at, c)? {
            Opened::Closed(d) => Ok(d),
            Opened::Open(x) => passed_on(elements(
                laid,
                bytes,
                held,
                values,
                objects,
                depth - 1,
                a,
                x.count,
                x.start,
                x.cursor,
            )),
        };
    }
    if kind == 8 {
        let size = words::item_at(sizes, a) as usize;
        return match box_opened(bytes, values, objects, depth, a, size, at, c)? {
            Opened::Closed(d) => Ok(d),
            Opened::Open(x) => passed_on(value(
                laid,
                bytes,
                held,
                values,
                objects,
                depth - 1,
                a,
                x.start,
                x.cursor.next,
                x.cursor.handles,
                x.cursor.values,
                x.cursor.objects,
            )),
        };
    }
    if kind == 9 {
        return match table_opened(bytes, values, objects, depth, row, at, c)? {
            Opened::Closed(d) => Ok(d),
            Opened::Open(x) => passed_on(envelopes(
                laid,
                bytes,
                held,
                values,
                objects,
                depth - 1,
                row,
                x.count,
                x.start,
                x.cursor,
            )),
        };
    }
    match union_member(members, bytes, values, a, b as usize, form, at, c)? {
        Member::Absent(d) => Ok(d),
        Member::Present(what, d) => passed_on(content(
            laid,
            bytes,
            held,
            values,
            objects,
            depth,
            row,
            what,
            at + 8,
            d,
        )),
    }
}

// A table's envelopes in turn.
#[cycle(composite_content_elements_envelopes_out_of_line_value)]
fn envelopes(
    laid: &Laid<'_>,
    bytes: &[u8],
    held: usize,
    values: &mut [u64],
    objects: &mut [u32],
    depth: usize,
    row: usize,
    count: usize,
    at: usize,
    c: Cursor,
) -> Result<Cursor, Fault>
    requires { Ready (table_in laid.now) laid.now.sizes.now laid.now.alignments.now depth row × (kind_at (table_in laid.now) row ≡ 9) × Ask (length bytes.now) held (count * 8) at c }
    ensures { EnvelopesDid (table_in laid.now) bytes.now held depth values.old values.new objects.old objects.new at c row count result }
{
    let Laid { rows, members, .. } = *laid;
    let first = table::a_at(rows, row) as usize;
    let known = table::b_at(rows, row) as usize;
    let mut d = c;
    for i in 0..count {
        let place = at + i * 8;
        let ordinal = i + 1;
        if u64::load(bytes, place) == 0 {
            if ordinal == count {
                return refused(Refusal::LastEnvelopeZero, place);
            }
            d = gave(values, 0, d);
        } else {
            let what = ordinals::ordinal_of(members, first, known, ordinal as u64);
            let e = gave(values, 1, d);
            d = content(
                laid, bytes, held, values, objects, depth, row, what, place, e,
            )?;
        }
    }
    Ok(d)
}

// An envelope's content: a known payload one level down, or unknown content.
#[cycle(composite_content_elements_envelopes_out_of_line_value)]
fn content(
    laid: &Laid<'_>,
    bytes: &[u8],
    held: usize,
    values: &mut [u64],
    objects: &mut [u32],
    depth: usize,
    row: usize,
    what: Option<usize>,
    at: usize,
    c: Cursor,
) -> Result<Cursor, Fault>
    requires { Ready (table_in laid.now) laid.now.sizes.now laid.now.alignments.now depth row × OrdinalFits (table_in laid.now) what × Ask (length bytes.now) held 7 at c }
    ensures { ContentDid (table_in laid.now) bytes.now held depth values.old values.new objects.old objects.new at c row what result }
{
    let Laid { sizes, .. } = *laid;
    match what {
        None => unknown_content(bytes, held, values, objects, depth, row, at, c),
        Some(payload) => {
            let size = words::item_at(sizes, payload) as usize;
            match known_opened(bytes, objects, depth, payload, size, at, c)? {
                Opened::Closed(d) => Ok(d),
                Opened::Open(x) => {
                    let d = value(
                        laid,
                        bytes,
                        held,
                        values,
                        objects,
                        depth - 1,
                        payload,
                        x.start,
                        x.cursor.next,
                        x.cursor.handles,
                        x.cursor.values,
                        x.cursor.objects,
                    )?;
                    sealed(bytes, size, at, c.next, c.handles, d)
                }
            }
        }
    }
}
