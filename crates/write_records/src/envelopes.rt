// Envelopes: a union's ordinal, unknown content, and the fields that are filled from what a payload took.
ghost use Rattle.std.specs.Prelude.{◌≡◌, ◌+◌, ◌-◌, ◌≤◌, ◌<◌, ◌%◌};
ghost use Rattle.std.proofs.lemmas.List.Edits.{sets};
ghost use Rattle.rules.specs.Envelope.{envelope_bytes, write_unknown_in_line, write_unknown_out_of_line};
ghost use Rattle.ordinals.specs.Ordinals.{Rising};
ghost use Rattle.write_leaves.specs.Putting.{Stands, Ask, Puts, PutsInLine};
ghost use Rattle.write_records.specs.Promises.{UnionOpens, MemberIs, UnknownPuts, sealed_out};

use crate::records::{Opening, object_of_numbers};
use rules::{Fault, Place, Refusal};
use words::Word;
use write_leaves::cursor::{Cursor, put_zeros, refused, took, with_handles};

// What a union's number says: no member, or one whose envelope follows, with its row where the union knows it.
#[derive(Clone, Copy)]
pub enum Member {
    Absent(Cursor),
    Present(Option<usize>, Cursor),
}

// A union's number: 26 for 0 if it is required, and for an unknown ordinal if it is strict. `form` is 1 for optional, 2 for
// flexible, 3 for both.
pub fn union_member(
    members: &[u32],
    values: &[u64],
    out: &mut [u8],
    first: usize,
    count: usize,
    form: u32,
    at: usize,
    c: Cursor,
) -> Result<Member, Fault>
    requires { Stands values.now c × (at < 4294967296) × (form ≤ 3) × (first + count ≤ 1024) × Rising members.now first count }
    ensures { UnionOpens members.now values.now out.old out.new at c first count form result × MemberIs members.now values.now c first count result }
{
    if values.len() <= c.index {
        return Err(Refusal::NotAValue.at(Place::Index(c.index)));
    }
    let v = words::item_at(values, c.index);
    if v == 0 {
        if form % 2 == 0 {
            return Err(Refusal::NotAValue.at(Place::Index(c.index)));
        }
        u64::store(out, at, 0);
        u64::store(out, at + 8, 0);
        return Ok(Member::Absent(took(c)));
    }
    let what = ordinals::ordinal_of(members, first, count, v);
    let accepted = (2 <= form) | what.is_some();
    if !accepted {
        return Err(Refusal::NotAValue.at(Place::Index(c.index)));
    }
    u64::store(out, at, v);
    Ok(Member::Present(what, took(c)))
}

pub(crate) fn put_envelope(out: &mut [u8], at: usize, low: u32, handles: u16, flags: u16)
    requires { at < 4294967296 }
    ensures { out.new ≡ sets out.old at (envelope_bytes low handles flags) }
{
    u32::store(out, at, low);
    u16::store(out, at + 4, handles);
    u16::store(out, at + 6, flags);
}

// Unknown content: its byte number, its handle number, then its word or its words. No more than 65,536 bytes are claimed, so a
// handle number that the payload has room for is under 65,536 (26).
pub fn unknown_content(
    values: &[u64],
    out: &mut [u8],
    base: usize,
    depth: usize,
    at: usize,
    c: Cursor,
) -> Result<Cursor, Fault>
    requires { Ask values.now 8 at base c × (0 < c.index) }
    ensures { UnknownPuts values.now out.old out.new depth at c base result }
{
    if depth == 0 {
        return refused(Refusal::TooDeep, c.index - 1);
    }
    if values.len() <= c.index {
        return refused(Refusal::NotAValue, c.index);
    }
    let bytes = words::item_at(values, c.index);
    if bytes % 8 != 0 {
        return refused(Refusal::NotAValue, c.index);
    }
    if 4294967295 < bytes {
        return refused(Refusal::NotAValue, c.index);
    }
    if bytes == 0 {
        return unknown_in_line(values, out, at, took(c));
    }
    unknown_out_of_line(values, out, base, bytes as u32, at, took(c))
}

fn unknown_in_line(values: &[u64], out: &mut [u8], at: usize, c: Cursor) -> Result<Cursor, Fault>
    requires { Stands values.now c × (at < 4294967296) }
    ensures { PutsInLine values.now out.old out.new 8 at c result write_unknown_in_line }
{
    if values.len() <= c.index {
        return refused(Refusal::NotAValue, c.index);
    }
    let handles = words::item_at(values, c.index);
    if !envelope::can_claim(4, handles) {
        return refused(Refusal::NotAValue, c.index);
    }
    let d = with_handles(handles as usize, took(c))?;
    if values.len() <= d.index {
        return refused(Refusal::NotAValue, d.index);
    }
    let word = words::item_at(values, d.index);
    if 4294967295 < word {
        return refused(Refusal::NotAValue, d.index);
    }
    put_envelope(out, at, word as u32, handles as u16, 1);
    Ok(took(d))
}

fn unknown_out_of_line(
    values: &[u64],
    out: &mut [u8],
    base: usize,
    bytes: u32,
    at: usize,
    c: Cursor,
) -> Result<Cursor, Fault>
    requires { Ask values.now 8 at base c × (0 < c.index) × (0 < bytes) × (bytes % 8 ≡ 0) }
    ensures { Puts values.now out.old out.new 8 at base c result (write_unknown_out_of_line bytes) }
{
    let start = c.next;
    let whole = bytes as usize;
    if 65536 - start < whole {
        return refused(Refusal::MessageTooLong, c.index - 1);
    }
    if values.len() <= c.index {
        return refused(Refusal::NotAValue, c.index);
    }
    let handles = words::item_at(values, c.index);
    if !envelope::can_claim(bytes as u64, handles) {
        return refused(Refusal::NotAValue, c.index);
    }
    let d = with_handles(handles as usize, took(c))?;
    put_envelope(out, at, bytes, handles as u16, 0);
    let content = Opening {
        count: whole / 8,
        start,
        cursor: Cursor {
            next: start + whole,
            handles: d.handles,
            index: d.index,
        },
    };
    object_of_numbers(values, out, base, 8, content)
}

// After a known payload, its envelope is completed: in line, the fill and the last four bytes; out of line, all of it.
pub fn sealed(out: &mut [u8], size: usize, at: usize, bytes: u32, handles: u16)
    requires { (at ≤ 65536) × (size ≤ 65528) }
    ensures { out.new ≡ sealed_out out.old size at bytes handles }
{
    if size <= 4 {
        put_zeros(out, at + size, 4 - size);
        u16::store(out, at + 4, handles);
        u16::store(out, at + 6, 1);
        return;
    }
    put_envelope(out, at, bytes, handles, 0);
}
