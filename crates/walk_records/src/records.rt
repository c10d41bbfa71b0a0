// Records that lead out of line: what stands in line is judged, given and claimed here; what it leads to is walked by the
// functions of cycle.rt.
ghost use Rattle.std.specs.Prelude.{◌≡◌, ◌≤◌, ◌<◌, length};
ghost use Rattle.rules.specs.Bytes.{part};
ghost use Rattle.rules.specs.Text.{utf8};
ghost use Rattle.walk_records.specs.Opening.{AskBytes, HasCount, Reaches};
ghost use Rattle.walk_records.specs.Promises.{CountAt, DeeperOpens, CountedOpens, StringDid, text_judged, BoxOpens, EnvelopesOpen, TableOpens};

use rules::{Fault, Place, Refusal};
use walk_leaves::claims::claim;
use walk_leaves::cursor::{Cursor, gave, refused};
use walk_leaves::scalars::numbers;
use words::Word;

// An object that is claimed and not walked yet: how many elements, where it starts, and the cursor after the claim.
#[derive(Clone, Copy)]
pub struct Opening {
    pub count: usize,
    pub start: usize,
    pub cursor: Cursor,
}

// A record that leads to no object, or its object.
#[derive(Clone, Copy)]
pub enum Opened {
    Closed(Cursor),
    Open(Opening),
}

// A count with its presence: 9; absent 10, 11; present 12.
pub(crate) fn count_record(
    bytes: &[u8],
    optional: u32,
    largest: u32,
    at: usize,
) -> Result<Option<usize>, Fault>
    requires { at < 4294967296 }
    ensures { CountAt bytes.now optional largest at result }
{
    let count = u64::load(bytes, at);
    let presence = u64::load(bytes, at + 8);
    if presence == 0 {
        if optional == 1 {
            if count == 0 {
                return Ok(None);
            }
            return Err(Refusal::AbsentNotZero.at(Place::Byte(at)));
        }
        return Err(Refusal::RequiredAbsent.at(Place::Byte(at)));
    }
    if presence == 18446744073709551615 {
        if (largest as u64) < count {
            return Err(Refusal::CountOverLargest.at(Place::Byte(at)));
        }
        return Ok(Some(count as usize));
    }
    Err(Refusal::PresenceWrong.at(Place::Byte(at)))
}

// Goes one level deeper and claims: 5 at the record, 6, 7.
pub(crate) fn deeper(
    bytes: &[u8],
    objects: &mut [u32],
    depth: usize,
    kind: u32,
    row: usize,
    count: usize,
    size: usize,
    at: usize,
    c: Cursor,
) -> Result<Opened, Fault>
    requires { AskBytes (length bytes.now) 4 at c × (row < 4294967296) × (size < 281474976710656) }
    ensures { DeeperOpens bytes.now depth objects.old objects.new at c kind row size result × HasCount count result × Reaches depth result }
{
    if depth == 0 {
        return Err(Refusal::TooDeep.at(Place::Byte(at)));
    }
    let start = c.next;
    let cursor = claim(bytes, objects, kind, row, size, c)?;
    Ok(Opened::Open(Opening {
        count,
        start,
        cursor,
    }))
}

// A vector's or a string's record: 9 to 12, then 5, 6, 7.
pub fn vector_opened(
    bytes: &[u8],
    values: &mut [u64],
    objects: &mut [u32],
    depth: usize,
    row: usize,
    size: usize,
    largest: u32,
    optional: u32,
    at: usize,
    c: Cursor,
) -> Result<Opened, Fault>
    requires { AskBytes (length bytes.now) 16 at c × (row < 4294967296) × (size ≤ 65528) }
    ensures { CountedOpens bytes.now depth values.old values.new objects.old objects.new at c row size largest optional result × Reaches depth result }
{
    match count_record(bytes, optional, largest, at)? {
        None => Ok(Opened::Closed(gave(values, 0, c))),
        Some(count) => {
            let d = gave(values, count as u64 + 1, c);
            deeper(bytes, objects, depth, 2, row, count, count * size, at, d)
        }
    }
}

// A string's record and its text: 9 to 12, then 5, 6, 7, 13.
pub fn string(
    bytes: &[u8],
    values: &mut [u64],
    objects: &mut [u32],
    depth: usize,
    row: usize,
    largest: u32,
    optional: u32,
    at: usize,
    c: Cursor,
) -> Result<Cursor, Fault>
    requires { AskBytes (length bytes.now) 16 at c × (row < 4294967296) }
    ensures { StringDid bytes.now depth values.old values.new objects.old objects.new at c row largest optional result }
{
    let opened = vector_opened(
        bytes, values, objects, depth, row, 1, largest, optional, at, c,
    )?;
    match opened {
        Opened::Closed(e) => Ok(e),
        Opened::Open(x) => {
            let start = x.start;
            let count = x.count;
            let e = numbers(bytes, values, 1, count, start, x.cursor);
            judged_text(bytes, start, count, e)
        }
    }
}

// A text that was given is judged: 13 where its first sequence starts that is not allowed.
fn judged_text(bytes: &[u8], start: usize, count: usize, c: Cursor) -> Result<Cursor, Fault>
    ensures { result ≡ text_judged (utf8 (part bytes.now start count)) start c }
{
    match text::judge_part(bytes, start, count) {
        Ok(()) => Ok(c),
        Err(offset) => refused(Refusal::TextNotUtf8, start + offset),
    }
}

// A box's word: 9, then 5, 6, 7.
pub fn box_opened(
    bytes: &[u8],
    values: &mut [u64],
    objects: &mut [u32],
    depth: usize,
    element: usize,
    size: usize,
    at: usize,
    c: Cursor,
) -> Result<Opened, Fault>
    requires { AskBytes (length bytes.now) 8 at c × (element < 4294967296) × (size ≤ 65528) }
    ensures { BoxOpens bytes.now depth values.old values.new objects.old objects.new at c element size result × Reaches depth result }
{
    let presence = u64::load(bytes, at);
    if presence == 0 {
        return Ok(Opened::Closed(gave(values, 0, c)));
    }
    if presence == 18446744073709551615 {
        let d = gave(values, 1, c);
        return deeper(bytes, objects, depth, 3, element, 1, size, at, d);
    }
    Err(Refusal::PresenceWrong.at(Place::Byte(at)))
}

// A table's envelopes, so many: 5, 6, 7, then 19 at the last one. Over 8,192 fit in no message.
fn envelopes_opened(
    bytes: &[u8],
    objects: &mut [u32],
    depth: usize,
    row: usize,
    count: u64,
    at: usize,
    c: Cursor,
) -> Result<Opened, Fault>
    requires { AskBytes (length bytes.now) 4 at c × (row < 4294967296) }
    ensures { EnvelopesOpen bytes.now depth objects.old objects.new at c row count result × HasCount count result × Reaches depth result }
{
    if depth == 0 {
        return Err(Refusal::TooDeep.at(Place::Byte(at)));
    }
    if 8192 < count {
        return Err(Refusal::ObjectDoesNotFit.at(Place::Byte(c.next)));
    }
    let envelopes = count as usize;
    let opened = deeper(
        bytes,
        objects,
        depth,
        4,
        row,
        envelopes,
        envelopes * 8,
        at,
        c,
    )?;
    match opened {
        Opened::Closed(e) => Ok(Opened::Closed(e)),
        Opened::Open(x) => {
            if 0 < envelopes {
                let last = x.start + (envelopes - 1) * 8;
                if u64::load(bytes, last) == 0 {
                    return Err(Refusal::LastEnvelopeZero.at(Place::Byte(last)));
                }
            }
            Ok(Opened::Open(x))
        }
    }
}

// A table's record: 9, 10, then its envelopes.
pub fn table_opened(
    bytes: &[u8],
    values: &mut [u64],
    objects: &mut [u32],
    depth: usize,
    row: usize,
    at: usize,
    c: Cursor,
) -> Result<Opened, Fault>
    requires { AskBytes (length bytes.now) 16 at c × (row < 4294967296) }
    ensures { TableOpens bytes.now depth values.old values.new objects.old objects.new at c row result × Reaches depth result }
{
    let count = u64::load(bytes, at);
    let presence = u64::load(bytes, at + 8);
    if presence == 0 {
        return Err(Refusal::RequiredAbsent.at(Place::Byte(at)));
    }
    if presence == 18446744073709551615 {
        let d = gave(values, count, c);
        return envelopes_opened(bytes, objects, depth, row, count, at, d);
    }
    Err(Refusal::PresenceWrong.at(Place::Byte(at)))
}
