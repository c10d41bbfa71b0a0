// Value, element and envelope writer: they call each other until the depth is spent, as the walk of a message does. Rows of
// smaller numbers stand in line; whatever stands out of line is one level down.
ghost use Rattle.std.specs.Prelude.{true, ◌≡◌, ◌*◌, ◌<◌};
ghost use Rattle.rules.specs.TypeTable.{kind_at};
ghost use Rattle.rules.specs.Sizes.{size_of};
ghost use Rattle.nesting.specs.Nesting.{has_parts};
ghost use Rattle.layout.specs.Ready.{Ready, table_in, Outside};
ghost use Rattle.write_leaves.specs.Putting.{Ask, cursor_at};
ghost use Rattle.write_records.specs.Opening.{Claimed};
ghost use Rattle.write_walk.specs.Walking.{PayloadReady, ValuePut, ElementsPut, ObjectOf, SingleOf, EnvelopesPut, ContentPut};

use layout::laid::Laid;
use nesting::{Level, NESTED, Step};
use rules::{Fault, Refusal};
use words::Word;
use write_leaves::cursor::{Cursor, passed_on, put_zeros, refused, took};
use write_leaves::planned::by_plan;
use write_leaves::scalars::{boolean, handle, number, numbers};
use write_leaves::strict_rows::strict_values;
use write_records::envelopes::{Member, sealed, union_member, unknown_content};
use write_records::records::{
    Opened, Opening, box_opened, deeper, fill_up, rest_from, string, table_opened, vector_opened,
};

// The value of a row at a place of the output, which starts at the byte `base` of the message. The cursor comes as three numbers:
// as a struct it would go through memory at each level.
#[cycle(composite_content_elements_envelopes_object_out_of_line_single_value)]
pub fn value(
    laid: &Laid<'_>,
    values: &[u64],
    out: &mut [u8],
    base: usize,
    depth: usize,
    row: usize,
    at: usize,
    next: usize,
    handles: usize,
    index: usize,
) -> Result<Cursor, Fault>
    requires { Ready (table_in laid.now) laid.now.sizes.now laid.now.alignments.now depth row
        × Ask values.now (size_of (table_in laid.now) row) at base (cursor_at next handles index) }
    ensures { ValuePut (table_in laid.now) values.now out.old out.new base depth at (cursor_at next handles index) row result }
{
    let Laid { rows, entries, .. } = *laid;
    let c = Cursor {
        next,
        handles,
        index,
    };
    let kind = table::kind_at(rows, row);
    let a = table::a_at(rows, row);
    if kind == 1 {
        return boolean(values, out, at, c);
    }
    if kind == 2 {
        return number(values, out, a, at, c);
    }
    if kind == 3 {
        return handle(values, out, a, at, c);
    }
    if (kind == 4) | (kind == 7) {
        if nesting::has_parts(rows, row) {
            return composite(laid, values, out, base, depth, row, at, c);
        }
        // the one byte of an empty struct is fill
        if kind == 7 {
            put_zeros(out, at, 1);
            return Ok(c);
        }
        let width = table::a_at(rows, a as usize);
        let count = table::b_at(rows, row) as usize;
        return numbers(values, out, width, count, at, c);
    }
    if kind == 6 {
        let largest = table::b_at(rows, row);
        let optional = table::c_at(rows, row);
        return string(values, out, base, depth, largest, optional, at, c);
    }
    if (kind == 11) | (kind == 12) {
        return strict_values(rows, entries, values, out, row, 1, at, c);
    }
    out_of_line(laid, values, out, base, depth, row, at, c)
}

// So many values of a row, one after the other.
#[cycle(composite_content_elements_envelopes_object_out_of_line_single_value)]
fn elements(
    laid: &Laid<'_>,
    values: &[u64],
    out: &mut [u8],
    base: usize,
    depth: usize,
    row: usize,
    count: usize,
    at: usize,
    c: Cursor,
) -> Result<Cursor, Fault>
    requires { Ready (table_in laid.now) laid.now.sizes.now laid.now.alignments.now depth row
        × Ask values.now (count * size_of (table_in laid.now) row) at base c }
    ensures { ElementsPut (table_in laid.now) values.now out.old out.new base depth at c row count result }
{
    let Laid {
        rows,
        entries,
        sizes,
        ..
    } = *laid;
    let kind = table::kind_at(rows, row);
    if kind == 2 {
        let width = table::a_at(rows, row);
        return numbers(values, out, width, count, at, c);
    }
    if (kind == 11) | (kind == 12) {
        return strict_values(rows, entries, values, out, row, count, at, c);
    }
    if let Some(done) = by_plan(laid, values, out, row, count, at, c) {
        return done;
    }
    let size = words::item_at(sizes, row) as usize;
    let mut d = c;
    let mut place = at;
    for _ in 0..count {
        d = value(
            laid, values, out, base, depth, row, place, d.next, d.handles, d.index,
        )?;
        place += size;
    }
    Ok(d)
}

// A struct's members or an array's elements in turn, with the fill after each member.
#[cycle(composite_content_elements_envelopes_object_out_of_line_single_value)]
fn composite(
    laid: &Laid<'_>,
    values: &[u64],
    out: &mut [u8],
    base: usize,
    depth: usize,
    row: usize,
    at: usize,
    c: Cursor,
) -> Result<Cursor, Fault>
    requires { Ready (table_in laid.now) laid.now.sizes.now laid.now.alignments.now depth row × (has_parts laid.now.rows.now row ≡ true)
        × Ask values.now (size_of (table_in laid.now) row) at base c }
    ensures { ValuePut (table_in laid.now) values.now out.old out.new base depth at c row result }
{
    let Laid {
        rows,
        members,
        sizes,
        alignments,
        ..
    } = *laid;
    // one of bools and numbers alone
    if let Some(done) = by_plan(laid, values, out, row, 1, at, c) {
        return done;
    }
    let mut kept = [Level {
        row: 0,
        done: 0,
        at: 0,
    }; NESTED];
    let mut around: usize = 0;
    let mut level = Level { row, done: 0, at };
    let mut due = false;
    let mut place = at;
    let mut d = c;
    loop {
        match nesting::next_step(rows, members, alignments, level, due, place, around) {
            Step::Fill(next) => {
                put_zeros(out, place, next - place);
                place = next;
                level.done += 1;
                due = false;
            }
            Step::Into(part) => {
                kept[around] = level;
                around += 1;
                level = Level {
                    row: part,
                    done: 0,
                    at: place,
                };
            }
            Step::Call(part) => {
                d = value(
                    laid, values, out, base, depth, part, place, d.next, d.handles, d.index,
                )?;
                place += words::item_at(sizes, part) as usize;
                due = true;
            }
            Step::Out => {
                around -= 1;
                level = kept[around];
                due = true;
            }
            Step::Done => {
                return Ok(d);
            }
        }
    }
}

// An object that is claimed: so many values of a row and the fill after them, written into the rest of the output from the
// object's own offset on.
#[cycle(composite_content_elements_envelopes_object_out_of_line_single_value)]
fn object(
    laid: &Laid<'_>,
    values: &[u64],
    out: &mut [u8],
    base: usize,
    depth: usize,
    row: usize,
    x: Opening,
) -> Result<Cursor, Fault>
    requires { Ready (table_in laid.now) laid.now.sizes.now laid.now.alignments.now depth row
        × Claimed values.now (x.count * size_of (table_in laid.now) row) base x }
    ensures { ObjectOf (table_in laid.now) values.now out.old out.new base depth x row result }
{
    let Laid { sizes, .. } = *laid;
    let from = rest_from(base, x.start, out.len());
    let rest = &mut out[from..];
    let wrote = elements(
        laid, values, rest, x.start, depth, row, x.count, 0, x.cursor,
    );
    fill_up(rest, x.count * words::item_at(sizes, row) as usize);
    wrote
}

// An object of one value, in the same way.
#[cycle(composite_content_elements_envelopes_object_out_of_line_single_value)]
fn single(
    laid: &Laid<'_>,
    values: &[u64],
    out: &mut [u8],
    base: usize,
    depth: usize,
    row: usize,
    x: Opening,
) -> Result<Cursor, Fault>
    requires { Ready (table_in laid.now) laid.now.sizes.now laid.now.alignments.now depth row
        × Claimed values.now (size_of (table_in laid.now) row) base x }
    ensures { SingleOf (table_in laid.now) values.now out.old out.new base depth x row result }
{
    let Laid { sizes, .. } = *laid;
    let from = rest_from(base, x.start, out.len());
    let rest = &mut out[from..];
    let wrote = value(
        laid,
        values,
        rest,
        x.start,
        depth,
        row,
        0,
        x.cursor.next,
        x.cursor.handles,
        x.cursor.index,
    );
    fill_up(rest, words::item_at(sizes, row) as usize);
    passed_on(wrote)
}

// A value whose record leads out of line: vector, box, table or union.
#[cycle(composite_content_elements_envelopes_object_out_of_line_single_value)]
fn out_of_line(
    laid: &Laid<'_>,
    values: &[u64],
    out: &mut [u8],
    base: usize,
    depth: usize,
    row: usize,
    at: usize,
    c: Cursor,
) -> Result<Cursor, Fault>
    requires { Ready (table_in laid.now) laid.now.sizes.now laid.now.alignments.now depth row × Outside (kind_at (table_in laid.now) row)
        × Ask values.now (size_of (table_in laid.now) row) at base c }
    ensures { ValuePut (table_in laid.now) values.now out.old out.new base depth at c row result }
{
    let Laid {
        rows,
        members,
        sizes,
        ..
    } = *laid;
    let kind = table::kind_at(rows, row);
    let a = table::a_at(rows, row) as usize;
    let b = table::b_at(rows, row);
    let form = table::c_at(rows, row);
    if kind == 5 {
        let size = words::item_at(sizes, a) as usize;
        return match vector_opened(values, out, depth, size, b, form, at, c)? {
            Opened::Closed(d) => Ok(d),
            Opened::Open(x) => passed_on(object(laid, values, out, base, depth - 1, a, x)),
        };
    }
    if kind == 8 {
        let size = words::item_at(sizes, a) as usize;
        return match box_opened(values, out, depth, size, at, c)? {
            Opened::Closed(d) => Ok(d),
            Opened::Open(x) => passed_on(single(laid, values, out, base, depth - 1, a, x)),
        };
    }
    if kind == 9 {
        return match table_opened(values, out, depth, at, c)? {
            Opened::Closed(d) => Ok(d),
            Opened::Open(x) => {
                let from = rest_from(base, x.start, out.len());
                passed_on(envelopes(
                    laid,
                    values,
                    &mut out[from..],
                    x.start,
                    depth - 1,
                    row,
                    x.count,
                    x.cursor,
                ))
            }
        };
    }
    match union_member(members, values, out, a, b as usize, form, at, c)? {
        Member::Absent(d) => Ok(d),
        Member::Present(what, d) => passed_on(content(
            laid,
            values,
            out,
            base,
            depth,
            what,
            at + 8,
            d,
        )),
    }
}

// A table's envelopes in turn, at the start of the output: for each a number, 0 or 1 (26, also for a 0 at the last one).
#[cycle(composite_content_elements_envelopes_object_out_of_line_single_value)]
fn envelopes(
    laid: &Laid<'_>,
    values: &[u64],
    out: &mut [u8],
    base: usize,
    depth: usize,
    row: usize,
    count: usize,
    c: Cursor,
) -> Result<Cursor, Fault>
    requires { Ready (table_in laid.now) laid.now.sizes.now laid.now.alignments.now depth row × (kind_at (table_in laid.now) row ≡ 9)
        × Ask values.now (count * 8) 0 base c }
    ensures { EnvelopesPut (table_in laid.now) values.now out.old out.new base depth c row count result }
{
    let Laid { rows, members, .. } = *laid;
    let first = table::a_at(rows, row) as usize;
    let known = table::b_at(rows, row) as usize;
    let mut d = c;
    for i in 0..count {
        let place = i * 8;
        let ordinal = i + 1;
        if values.len() <= d.index {
            return refused(Refusal::NotAValue, d.index);
        }
        let v = words::item_at(values, d.index);
        if (1 < v) | (v == 0) & (ordinal == count) {
            return refused(Refusal::NotAValue, d.index);
        }
        d = took(d);
        if v == 0 {
            u64::store(out, place, 0);
        } else {
            let what = ordinals::ordinal_of(members, first, known, ordinal as u64);
            d = content(laid, values, out, base, depth, what, place, d)?;
        }
    }
    Ok(d)
}

// An envelope's content, after the number that says there is some: a known payload one level down, or unknown content.
#[cycle(composite_content_elements_envelopes_object_out_of_line_single_value)]
fn content(
    laid: &Laid<'_>,
    values: &[u64],
    out: &mut [u8],
    base: usize,
    depth: usize,
    what: Option<usize>,
    at: usize,
    c: Cursor,
) -> Result<Cursor, Fault>
    requires { PayloadReady (table_in laid.now) laid.now.sizes.now laid.now.alignments.now depth what
        × Ask values.now 8 at base c × (0 < c.index) }
    ensures { ContentPut (table_in laid.now) values.now out.old out.new base depth at c what result }
{
    let Laid { sizes, .. } = *laid;
    let Some(payload) = what else {
        return unknown_content(values, out, base, depth, at, c);
    };
    let size = words::item_at(sizes, payload) as usize;
    if size <= 4 {
        if depth == 0 {
            return refused(Refusal::TooDeep, c.index - 1);
        }
        let d = value(
            laid,
            values,
            out,
            base,
            depth - 1,
            payload,
            at,
            c.next,
            c.handles,
            c.index,
        )?;
        sealed(out, size, at, 0, (d.handles - c.handles) as u16);
        return Ok(d);
    }
    let x = deeper(depth, 1, size, c)?;
    let d = single(laid, values, out, base, depth - 1, payload, x)?;
    let bytes = d.next - c.next;
    sealed(out, size, at, bytes as u32, (d.handles - c.handles) as u16);
    Ok(d)
}
