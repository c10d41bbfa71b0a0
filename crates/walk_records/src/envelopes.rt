// Envelopes, and the ordinals that they stand for.
ghost use Rattle.std.specs.Prelude.{◌≡◌, ◌+◌, ◌≤◌, ◌<◌, length};
ghost use Rattle.walk_leaves.specs.Doing.{Ask};
ghost use Rattle.rules.specs.Records.{is_known};
ghost use Rattle.ordinals.specs.Ordinals.{ordinal_is, Rising};
ghost use Rattle.walk_records.specs.Opening.{AskBytes, Reaches, handles_sealed};
ghost use Rattle.walk_leaves.specs.Parts.{DidNeither};
ghost use Rattle.walk_records.specs.Promises.{UnionOpens, MemberIs, UnknownDid, UnknownInLineDid, UnknownOutOfLineDid, RawWordsDid, TakenDid, KnownOpens, SealDid};

use crate::records::{Opened, Opening, deeper};
use rules::{Fault, Place, Refusal};
use walk_leaves::claims::claim;
use walk_leaves::cursor::{Cursor, gave, refused};
use walk_leaves::scalars::numbers;
use words::Word;

// What a union's ordinal says: no member, or one whose envelope follows, with its row where the type knows it.
#[derive(Clone, Copy)]
pub enum Member {
    Absent(Cursor),
    Present(Option<usize>, Cursor),
}

// A union's ordinal: 10, 17; without a member 11, with one 18 at its envelope.
pub fn union_member(
    members: &[u32],
    bytes: &[u8],
    values: &mut [u64],
    first: usize,
    count: usize,
    form: u32,
    at: usize,
    c: Cursor,
) -> Result<Member, Fault>
    requires { AskBytes (length bytes.now) 16 at c × (form ≤ 3) × (first + count ≤ 1024) × Rising members.now first count }
    ensures { UnionOpens members.now bytes.now values.old values.new at c first count form result × MemberIs bytes.now members.now first count at result }
{
    let ordinal = u64::load(bytes, at);
    let envelope = u64::load(bytes, at + 8);
    if ordinal == 0 {
        if form % 2 == 0 {
            return Err(Refusal::RequiredAbsent.at(Place::Byte(at)));
        }
        let d = gave(values, 0, c);
        if envelope == 0 {
            return Ok(Member::Absent(d));
        }
        return Err(Refusal::AbsentNotZero.at(Place::Byte(at)));
    }
    let what = ordinals::ordinal_of(members, first, count, ordinal);
    let accepted = (2 <= form) | what.is_some();
    if !accepted {
        return Err(Refusal::OrdinalUnknown.at(Place::Byte(at)));
    }
    let d = gave(values, ordinal, c);
    if envelope == 0 {
        return Err(Refusal::PresentEnvelopeZero.at(Place::Byte(at + 8)));
    }
    Ok(Member::Present(what, d))
}

// An envelope with content of an unknown ordinal: 15, 35, 5, out of line 6, 14; its content is taken raw.
pub fn unknown_content(
    bytes: &[u8],
    held: usize,
    values: &mut [u64],
    objects: &mut [u32],
    depth: usize,
    row: usize,
    at: usize,
    c: Cursor,
) -> Result<Cursor, Fault>
    requires { Ask (length bytes.now) held 7 at c × (row < 4294967296) }
    ensures { UnknownDid bytes.now held depth values.old values.new objects.old objects.new at c row result }
{
    let flags = u16::load(bytes, at + 6);
    let handles = u16::load(bytes, at + 4) as u64;
    if flags == 1 {
        if !envelope::can_claim(4, handles) {
            return refused(Refusal::HandlesImpossible, at);
        }
        return unknown_in_line(bytes, held, values, depth, at, c);
    }
    let low = u32::load(bytes, at);
    let whole = (low % 8 == 0) & (0 < low);
    let formed = (flags == 0) & whole;
    if !formed {
        return refused(Refusal::EnvelopeFormWrong, at);
    }
    if !envelope::can_claim(low as u64, handles) {
        return refused(Refusal::HandlesImpossible, at);
    }
    unknown_out_of_line(bytes, held, values, objects, depth, row, at, c)
}

// Its word, which stands in the envelope: 5, 14.
fn unknown_in_line(
    bytes: &[u8],
    held: usize,
    values: &mut [u64],
    depth: usize,
    at: usize,
    c: Cursor,
) -> Result<Cursor, Fault>
    requires { Ask (length bytes.now) held 7 at c }
    ensures { UnknownInLineDid bytes.now held depth values.old values.new at c result }
{
    if depth == 0 {
        return refused(Refusal::TooDeep, at);
    }
    let low = u32::load(bytes, at);
    let handles = u16::load(bytes, at + 4);
    let first = gave(values, 0, c);
    let second = gave(values, handles as u64, first);
    let third = gave(values, low as u64, second);
    taken(held, handles, at, third)
}

// Its words, which are an object of their own: 5, 6, 14.
fn unknown_out_of_line(
    bytes: &[u8],
    held: usize,
    values: &mut [u64],
    objects: &mut [u32],
    depth: usize,
    row: usize,
    at: usize,
    c: Cursor,
) -> Result<Cursor, Fault>
    requires { Ask (length bytes.now) held 7 at c × (row < 4294967296) }
    ensures { UnknownOutOfLineDid bytes.now held depth values.old values.new objects.old objects.new at c row result }
{
    if depth == 0 {
        return refused(Refusal::TooDeep, at);
    }
    let low = u32::load(bytes, at);
    let handles = u16::load(bytes, at + 4);
    let first = gave(values, low as u64, c);
    let second = gave(values, handles as u64, first);
    raw_words(bytes, held, values, objects, row, low, handles, at, second)
}

// Claims the object, takes the handles, and gives the words: 6, 14.
fn raw_words(
    bytes: &[u8],
    held: usize,
    values: &mut [u64],
    objects: &mut [u32],
    row: usize,
    size: u32,
    handles: u16,
    at: usize,
    c: Cursor,
) -> Result<Cursor, Fault>
    requires { Ask (length bytes.now) held 5 at c × (row < 4294967296) }
    ensures { RawWordsDid bytes.now held values.old values.new objects.old objects.new at c row size handles result }
{
    let start = c.next;
    let d = claim(bytes, objects, 6, row, size as usize, c)?;
    let e = taken(held, handles, at, d)?;
    Ok(numbers(bytes, values, 8, (size / 8) as usize, start, e))
}

// Takes so many handles: 14 at the envelope.
fn taken(held: usize, handles: u16, at: usize, c: Cursor) -> Result<Cursor, Fault>
    requires { c.handles ≤ 64 }
    ensures { TakenDid held handles at c result }
{
    let used = c.handles + handles as usize;
    if held < used {
        return refused(Refusal::TooFewHandles, at);
    }
    Ok(Cursor { handles: used, ..c })
}

// An envelope with a known payload, before its value: 15, 5; out of line 6, 7.
pub fn known_opened(
    bytes: &[u8],
    objects: &mut [u32],
    depth: usize,
    payload: usize,
    size: usize,
    at: usize,
    c: Cursor,
) -> Result<Opened, Fault>
    requires { AskBytes (length bytes.now) 7 at c × (payload < 4294967296) × (size ≤ 65528) }
    ensures { KnownOpens bytes.now depth objects.old objects.new at c payload size result × Reaches depth result }
{
    let flags = u16::load(bytes, at + 6);
    if size <= 4 {
        if flags != 1 {
            return Err(Refusal::EnvelopeFormWrong.at(Place::Byte(at)));
        }
        if depth == 0 {
            return Err(Refusal::TooDeep.at(Place::Byte(at)));
        }
        return Ok(Opened::Open(Opening {
            count: 1,
            start: at,
            cursor: c,
        }));
    }
    if flags != 0 {
        return Err(Refusal::EnvelopeFormWrong.at(Place::Byte(at)));
    }
    deeper(bytes, objects, depth, 5, payload, 1, size, at, c)
}

// After a known payload: in line 7, out of line 16 for its byte number; then 28 for its handle number.
pub fn sealed(
    bytes: &[u8],
    size: usize,
    at: usize,
    next: usize,
    used: usize,
    c: Cursor,
) -> Result<Cursor, Fault>
    requires { (at < 4294967296) × (size ≤ 65528) × (next ≤ c.next) × (used ≤ c.handles) }
    ensures { SealDid bytes.now size at next used c result }
{
    if size <= 4 {
        let fill = 4 - size;
        let zeros = words::zeros_from(bytes, at + size, fill);
        if zeros < fill {
            return refused(Refusal::FillNotZero, at + size + zeros);
        }
        return handles_sealed(bytes, at, used, c);
    }
    let covered = c.next - next;
    if u32::load(bytes, at) as usize != covered {
        return refused(Refusal::ByteNumberWrong, at);
    }
    handles_sealed(bytes, at, used, c)
}

// The handle number against the handles taken since: 28.
fn handles_sealed(bytes: &[u8], at: usize, used: usize, c: Cursor) -> Result<Cursor, Fault>
    requires { (at < 4294967296) × (used ≤ c.handles) }
    ensures { DidNeither bytes.now 0 at c result (λ m at. handles_sealed m at used) }
{
    if u16::load(bytes, at + 4) as usize != c.handles - used {
        return refused(Refusal::HandleNumberWrong, at);
    }
    Ok(c)
}
