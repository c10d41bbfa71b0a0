// Records that lead out of line: the number is judged (26), the record is put, and the object is claimed (5, 3). Objects of
// numbers alone are written here too.
ghost use Rattle.std.specs.Prelude.{true, ◌≡◌, ◌+◌, ◌-◌, ◌*◌, ◌≤◌, ◌<◌, min, length, IfOk, OnOk};
ghost use Rattle.std.proofs.lemmas.List.Edits.{sets};
ghost use Rattle.rules.specs.Bytes.{zeros, padded};
ghost use Rattle.rules.specs.Sound.{width_allowed};
ghost use Rattle.write_leaves.specs.Putting.{Stands, Ask};
ghost use Rattle.write_records.specs.Opening.{Claimed};
ghost use Rattle.write_records.specs.Promises.{Reaches, ClaimOpens, DeeperOpens, NumbersPut, CountedOpens, StringPuts, BoxOpens, TableOpens};

use rules::{Fault, Place, Refusal};
use words::Word;
use write_leaves::cursor::{Cursor, put_zeros, refused, took};
use write_leaves::scalars::numbers;

// An object that is claimed and not written yet: how many elements, where it starts, and the cursor after the claim.
#[derive(Clone, Copy)]
pub struct Opening {
    pub count: usize,
    pub start: usize,
    pub cursor: Cursor,
}

// What a record leads to: no object, or one that is to be written.
#[derive(Clone, Copy)]
pub enum Opened {
    Closed(Cursor),
    Open(Opening),
}

// Goes one level deeper and claims: 5, 3, at the number taken last.
pub fn deeper(depth: usize, count: usize, size: usize, c: Cursor) -> Result<Opening, Fault>
    requires { (c.next ≤ 65536) × (c.handles ≤ 64) × (0 < c.index) × (size < 281474976710656) }
    ensures { DeeperOpens depth size c result × IfOk result (λ x. x.count ≡ count) × OnOk result (0 < depth) }
{
    if depth == 0 {
        return Err(Refusal::TooDeep.at(Place::Index(c.index - 1)));
    }
    claim(count, size, c)
}

pub(crate) fn claim(count: usize, size: usize, c: Cursor) -> Result<Opening, Fault>
    requires { (c.next ≤ 65536) × (c.handles ≤ 64) × (0 < c.index) × (size < 281474976710656) }
    ensures { ClaimOpens size c result × IfOk result (λ x. x.count ≡ count) }
{
    let whole = words::padded(size);
    if 65536 - c.next < whole {
        return Err(Refusal::MessageTooLong.at(Place::Index(c.index - 1)));
    }
    let start = c.next;
    Ok(Opening {
        count,
        start,
        cursor: Cursor {
            next: start + whole,
            handles: c.handles,
            index: c.index,
        },
    })
}

// Where the rest of the output from a byte of the message on starts: at the output's end, where it ends before that byte.
pub fn rest_from(base: usize, start: usize, length: usize) -> usize
    requires { base ≤ start }
    ensures { result ≡ min (start - base) length }
{
    let offset = start - base;
    if offset < length { offset } else { length }
}

// The fill up to eight after an object of so many bytes, which stands at the output's start.
pub fn fill_up(out: &mut [u8], size: usize)
    requires { size ≤ 65536 }
    ensures { out.new ≡ sets out.old size (zeros (padded size - size)) }
{
    put_zeros(out, size, (8 - size % 8) % 8);
}

// An object of numbers that is claimed, a string's bytes or the words of unknown content, and the fill after them: written into
// the rest of the output from the object's own offset on.
pub(crate) fn object_of_numbers(
    values: &[u64],
    out: &mut [u8],
    base: usize,
    width: u32,
    x: Opening,
) -> Result<Cursor, Fault>
    requires { (width_allowed width ≡ true) × Claimed values.now (x.count * width) base x }
    ensures { NumbersPut values.now out.old out.new base width x result }
{
    let from = rest_from(base, x.start, out.len());
    let rest = &mut out[from..];
    let wrote = numbers(values, rest, width, x.count, 0, x.cursor);
    fill_up(rest, x.count * width as usize);
    wrote
}

// A vector's or a string's record.
pub fn vector_opened(
    values: &[u64],
    out: &mut [u8],
    depth: usize,
    size: usize,
    largest: u32,
    optional: u32,
    at: usize,
    c: Cursor,
) -> Result<Opened, Fault>
    requires { Stands values.now c × (at < 4294967296) × (size ≤ 65528) }
    ensures { CountedOpens values.now out.old out.new depth at c size largest optional result × Reaches depth result }
{
    if values.len() <= c.index {
        return Err(Refusal::NotAValue.at(Place::Index(c.index)));
    }
    let v = words::item_at(values, c.index);
    if v == 0 {
        if optional != 1 {
            return Err(Refusal::NotAValue.at(Place::Index(c.index)));
        }
        u64::store(out, at, 0);
        u64::store(out, at + 8, 0);
        return Ok(Opened::Closed(took(c)));
    }
    let count = v - 1;
    if (largest as u64) < count {
        return Err(Refusal::NotAValue.at(Place::Index(c.index)));
    }
    u64::store(out, at, count);
    u64::store(out, at + 8, 18446744073709551615);
    let x = deeper(depth, count as usize, count as usize * size, took(c))?;
    Ok(Opened::Open(x))
}

// A string: its record, its bytes, and after them the test that they are UTF-8, at the count.
pub fn string(
    values: &[u64],
    out: &mut [u8],
    base: usize,
    depth: usize,
    largest: u32,
    optional: u32,
    at: usize,
    c: Cursor,
) -> Result<Cursor, Fault>
    requires { Ask values.now 16 at base c }
    ensures { StringPuts values.now out.old out.new depth at c base largest optional result }
{
    let judged = c.index;
    match vector_opened(values, out, depth, 1, largest, optional, at, c)? {
        Opened::Closed(d) => Ok(d),
        Opened::Open(x) => {
            let first = x.cursor.index;
            let d = object_of_numbers(values, out, base, 1, x)?;
            let end = d.index;
            if !text::are_utf8(&values[first..end]) {
                return refused(Refusal::NotAValue, judged);
            }
            Ok(d)
        }
    }
}

// A box's record.
pub fn box_opened(
    values: &[u64],
    out: &mut [u8],
    depth: usize,
    size: usize,
    at: usize,
    c: Cursor,
) -> Result<Opened, Fault>
    requires { Stands values.now c × (at < 4294967296) × (size ≤ 65528) }
    ensures { BoxOpens values.now out.old out.new depth at c size result × Reaches depth result }
{
    if values.len() <= c.index {
        return Err(Refusal::NotAValue.at(Place::Index(c.index)));
    }
    let v = words::item_at(values, c.index);
    if 1 < v {
        return Err(Refusal::NotAValue.at(Place::Index(c.index)));
    }
    if v == 0 {
        u64::store(out, at, 0);
        return Ok(Opened::Closed(took(c)));
    }
    u64::store(out, at, 18446744073709551615);
    let x = deeper(depth, 1, size, took(c))?;
    Ok(Opened::Open(x))
}

// A table's record: its highest present ordinal.
pub fn table_opened(
    values: &[u64],
    out: &mut [u8],
    depth: usize,
    at: usize,
    c: Cursor,
) -> Result<Opened, Fault>
    requires { Stands values.now c × (at < 4294967296) }
    ensures { TableOpens values.now out.old out.new depth at c result × Reaches depth result }
{
    if values.len() <= c.index {
        return Err(Refusal::NotAValue.at(Place::Index(c.index)));
    }
    let v = words::item_at(values, c.index);
    u64::store(out, at, v);
    u64::store(out, at + 8, 18446744073709551615);
    if depth == 0 {
        return Err(Refusal::TooDeep.at(Place::Index(c.index)));
    }
    if 8192 < v {
        return Err(Refusal::MessageTooLong.at(Place::Index(c.index)));
    }
    let x = claim(v as usize, v as usize * 8, took(c))?;
    Ok(Opened::Open(x))
}
