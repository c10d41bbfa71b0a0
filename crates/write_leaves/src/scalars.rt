// Values that stand in line: 26 for a number that is none of theirs.
ghost use Rattle.std.specs.Prelude.{true, ◌≡◌, ◌+◌, ◌-◌, ◌*◌, ◌^◌, ◌≤◌, ◌<◌, eqb, length};
ghost use Rattle.std.proofs.lemmas.List.Edits.{sets};
ghost use Rattle.rules.specs.Bytes.{bytes_of};
ghost use Rattle.rules.specs.TypeTable.{TypeTable};
ghost use Rattle.rules.specs.Envelope.{encode_word};
ghost use Rattle.rules.specs.Sound.{width_allowed};
ghost use Rattle.write_leaves.specs.Putting.{Stands, PutsInLine};
ghost use Rattle.write_leaves.specs.InLine.{bool_as, handle_as, numbers_as, NoneAbove};

use crate::cursor::{Cursor, number_at, refused, took, with_handles};
use rules::{Fault, Refusal};
use words::Word;

pub fn boolean(values: &[u64], out: &mut [u8], at: usize, c: Cursor) -> Result<Cursor, Fault>
    requires { Stands values.now c }
    ensures { PutsInLine values.now out.old out.new 1 at c result bool_as }
{
    let v = number_at(values, c.index)?;
    if 1 < v {
        return refused(Refusal::NotAValue, c.index);
    }
    u8::store(out, at, v as u8);
    Ok(took(c))
}

// The largest number of a width.
pub(crate) fn largest(width: u32) -> u64
    requires { width_allowed width ≡ true }
    ensures { result + 1 ≡ 256 ^ width }
{
    if width == 1 {
        return 255;
    }
    if width == 2 {
        return 65535;
    }
    if width == 4 {
        return 4294967295;
    }
    18446744073709551615
}

pub(crate) fn put_word(out: &mut [u8], width: u32, at: usize, v: u64)
    requires { (width_allowed width ≡ true) × (v < 256 ^ width) }
    ensures { out.new ≡ sets out.old at (bytes_of width v) }
{
    if width == 1 {
        u8::store(out, at, v as u8);
    } else if width == 2 {
        u16::store(out, at, v as u16);
    } else if width == 4 {
        u32::store(out, at, v as u32);
    } else {
        u64::store(out, at, v);
    }
}

// A number of a width. Past the output's end, where the pass that measures stores all, nothing is looked at.
pub(crate) fn put_number(out: &mut [u8], width: u32, at: usize, v: u64)
    requires { (width_allowed width ≡ true) × (v < 256 ^ width) }
    ensures { out.new ≡ sets out.old at (bytes_of width v) }
{
    if at < out.len() {
        put_word(out, width, at, v);
    }
}

pub fn number(
    values: &[u64],
    out: &mut [u8],
    width: u32,
    at: usize,
    c: Cursor,
) -> Result<Cursor, Fault>
    requires { (width_allowed width ≡ true) × Stands values.now c }
    ensures { PutsInLine values.now out.old out.new width at c result (encode_word width) }
{
    let v = number_at(values, c.index)?;
    if largest(width) < v {
        return refused(Refusal::NotAValue, c.index);
    }
    put_number(out, width, at, v);
    Ok(took(c))
}

// A handle: 1 or 0.
pub fn handle(
    values: &[u64],
    out: &mut [u8],
    optional: u32,
    at: usize,
    c: Cursor,
) -> Result<Cursor, Fault>
    requires { Stands values.now c }
    ensures { (t : TypeTable) → PutsInLine values.now out.old out.new 4 at c result (handle_as t (eqb optional 1)) }
{
    let v = number_at(values, c.index)?;
    if 1 < v {
        return refused(Refusal::NotAValue, c.index);
    }
    if v == 0 {
        if optional != 1 {
            return refused(Refusal::NotAValue, c.index);
        }
        u32::store(out, at, 0);
        return Ok(took(c));
    }
    u32::store(out, at, 4294967295);
    with_handles(1, took(c))
}

// Whether the list has all of so many numbers, none of them above the largest.
fn are_within(values: &[u64], most: u64, from: usize, count: usize) -> bool
    requires { from ≤ length values.now }
    ensures { result ≡ true → (from + count ≤ length values.now) × NoneAbove values.now from count most }
{
    if values.len() - from < count {
        return false;
    }
    if most == 18446744073709551615 {
        return true;
    }
    let end = from + count;
    words::bits_of(&values[from..end]) <= most
}

// The cursor after so many numbers.
fn took_all(c: Cursor, count: usize) -> Cursor
    requires { c.index + count < 18446744073709551616 }
    ensures { result ≡ record { next = c.next; handles = c.handles; index = c.index + count } }
{
    Cursor {
        next: c.next,
        handles: c.handles,
        index: c.index + count,
    }
}

// Numbers of one byte, all of them in the list and within it, where there is room for all.
fn put_bytes(
    values: &[u64],
    out: &mut [u8],
    count: usize,
    at: usize,
    c: Cursor,
) -> Result<Cursor, Fault>
    requires { Stands values.now c × (c.index + count ≤ length values.now) × NoneAbove values.now c.index count 255 × (at + count ≤ length out.old) }
    ensures { PutsInLine values.now out.old out.new (count * 1) at c result (numbers_as 1 count) }
{
    let from = c.index;
    for i in 0..count {
        out[at + i] = values[from + i] as u8;
    }
    Ok(took_all(c, count))
}

// Numbers of a width one by one, each judged before it is put.
fn put_each(
    values: &[u64],
    out: &mut [u8],
    width: u32,
    count: usize,
    at: usize,
    c: Cursor,
) -> Result<Cursor, Fault>
    requires { (width_allowed width ≡ true) × Stands values.now c × (at + count * width ≤ 65536) }
    ensures { PutsInLine values.now out.old out.new (count * width) at c result (numbers_as width count) }
{
    let most = largest(width);
    let mut p = at;
    for i in 0..count {
        let index = c.index + i;
        let v = number_at(values, index)?;
        if most < v {
            return refused(Refusal::NotAValue, index);
        }
        put_word(out, width, p, v);
        p += width as usize;
    }
    Ok(took_all(c, count))
}

// A run of numbers of a width. Where the output has no room they are judged only, and bytes that all have room are put
// together.
pub fn numbers(
    values: &[u64],
    out: &mut [u8],
    width: u32,
    count: usize,
    at: usize,
    c: Cursor,
) -> Result<Cursor, Fault>
    requires { (width_allowed width ≡ true) × Stands values.now c × (at + count * width ≤ 65536) }
    ensures { PutsInLine values.now out.old out.new (count * width) at c result (numbers_as width count) }
{
    if out.len() <= at {
        if are_within(values, largest(width), c.index, count) {
            return Ok(took_all(c, count));
        }
    } else if width == 1 {
        if count <= out.len() - at {
            if are_within(values, 255, c.index, count) {
                return put_bytes(values, out, count, at, c);
            }
        }
    }
    put_each(values, out, width, count, at, c)
}
