// Values that stand in line: bools, numbers, handles, and runs of numbers.
ghost use Rattle.std.specs.Prelude.{◌≡◌, true, ◌+◌, ◌-◌, ◌*◌, ◌^◌, ◌≤◌, ◌<◌, eqb, length, Ok};
ghost use Rattle.std.proofs.lemmas.List.Edits.{sets};
ghost use Rattle.rules.specs.Bytes.{word};
ghost use Rattle.rules.specs.Envelope.{decode_word};
ghost use Rattle.rules.specs.Sound.{width_allowed};
ghost use Rattle.walk_leaves.specs.Parts.{bool_at, handle_at, numbers_at, words_from, DidValues, DidHandles};

use crate::cursor::{Cursor, gave, refused};
use rules::{Fault, Refusal};
use words::Word;

// A bool: 8.
pub fn boolean(bytes: &[u8], values: &mut [u64], at: usize, c: Cursor) -> Result<Cursor, Fault>
    requires { c.values < 4294967296 }
    ensures { DidValues bytes.now values.old values.new 1 at c result bool_at }
{
    let b = words::item_at(bytes, at);
    if 1 < b {
        return refused(Refusal::BoolNotZeroOrOne, at);
    }
    Ok(gave(values, b as u64, c))
}

// The number of so many bytes at a place. Inlined, so that a run of numbers asks for their width once.
#[inline(always)]
pub(crate) fn number_of(bytes: &[u8], width: u32, at: usize) -> u64
    requires { width_allowed width ≡ true }
    ensures { result ≡ word bytes.now at width }
{
    if width == 8 {
        return u64::load(bytes, at);
    }
    if width == 4 {
        return u32::load(bytes, at) as u64;
    }
    if width == 2 {
        return u16::load(bytes, at) as u64;
    }
    words::item_at(bytes, at) as u64
}

// The same by a call of its own, where a number stands alone or near the end of the bytes.
#[inline(never)]
fn number_apart(bytes: &[u8], width: u32, at: usize) -> u64
    requires { width_allowed width ≡ true }
    ensures { result ≡ word bytes.now at width }
{
    number_of(bytes, width, at)
}

// The bits that a number of so many bytes has.
fn mask_of(width: u32) -> u64
    requires { width_allowed width ≡ true }
    ensures { result ≡ 2 ^ (8 * width) - 1 }
{
    match width {
        1 => 0xff,
        2 => 0xffff,
        4 => 0xffff_ffff,
        _ => u64::MAX,
    }
}

// The number of so many bytes at a place, where others of other widths stand beside it: the low part of eight bytes, so that
// there is no branch for its width.
pub(crate) fn number_among(bytes: &[u8], width: u32, at: usize) -> u64
    requires { (width_allowed width ≡ true) × (at ≤ 65536) }
    ensures { result ≡ word bytes.now at width }
{
    if bytes.len() < at + 8 {
        return number_apart(bytes, width, at);
    }
    u64::load(&bytes[at..at + 8], 0) & mask_of(width)
}

pub fn number(
    bytes: &[u8],
    values: &mut [u64],
    width: u32,
    at: usize,
    c: Cursor,
) -> Result<Cursor, Fault>
    requires { (width_allowed width ≡ true) × (c.values < 4294967296) }
    ensures { DidValues bytes.now values.old values.new 1 at c result (λ m. decode_word m width) }
{
    let x = number_apart(bytes, width, at);
    Ok(gave(values, x, c))
}

// A handle's word: 9, 10, 14.
pub fn handle(
    bytes: &[u8],
    held: usize,
    values: &mut [u64],
    optional: u32,
    at: usize,
    c: Cursor,
) -> Result<Cursor, Fault>
    requires { (c.values < 4294967296) × (c.handles ≤ held) × (held ≤ 64) }
    ensures { DidHandles bytes.now values.old values.new held 1 at c result (handle_at (eqb optional 1)) }
{
    let word = u32::load(bytes, at);
    if word == 0 {
        if optional == 1 {
            return Ok(gave(values, 0, c));
        }
        return refused(Refusal::RequiredAbsent, at);
    }
    if word == 4294967295 {
        let used = c.handles;
        let d = gave(values, 1, c);
        if used < held {
            return Ok(Cursor {
                handles: used + 1,
                ..d
            });
        }
        return refused(Refusal::TooFewHandles, at);
    }
    refused(Refusal::PresenceWrong, at)
}

// A run of numbers, which holds no test: where the lent list has no room left, nothing is looked at.
pub fn numbers(
    bytes: &[u8],
    values: &mut [u64],
    width: u32,
    count: usize,
    at: usize,
    c: Cursor,
) -> Cursor
    requires { (width_allowed width ≡ true) × (at + count * width ≤ 65536) × (c.values < 4294967296) }
    ensures { DidValues bytes.now values.old values.new count at c (Ok result) (numbers_at width count) }
{
    let first = c.values;
    let done = Cursor {
        values: first + count,
        ..c
    };
    if values.len() <= first {
        return done;
    }
    store_numbers(bytes, values, width, count, at, first);
    done
}

// Numbers stored from an index on: bytes all at once where there is room for them and they are there.
fn store_numbers(
    bytes: &[u8],
    values: &mut [u64],
    width: u32,
    count: usize,
    at: usize,
    first: usize,
)
    requires { (width_allowed width ≡ true) × (at + count * width ≤ 65536) × (first < 4294967296) }
    ensures { values.new ≡ sets values.old first (words_from bytes.now width at count) }
{
    if width != 1 {
        store_each(bytes, values, width, count, at, first);
    } else if values.len() < first + count {
        store_each(bytes, values, width, count, at, first);
    } else if bytes.len() < at + count {
        store_each(bytes, values, width, count, at, first);
    } else {
        let end = first + count;
        let stop = at + count;
        store_bytes(&bytes[at..stop], &mut values[first..end]);
    }
}

// Each where there is room.
fn store_each(bytes: &[u8], values: &mut [u64], width: u32, count: usize, at: usize, first: usize)
    requires { (width_allowed width ≡ true) × (at + count * width ≤ 65536) × (first < 4294967296) }
    ensures { values.new ≡ sets values.old first (words_from bytes.now width at count) }
{
    let mut p = at;
    for i in first..first + count {
        let x = number_of(bytes, width, p);
        words::put_item(values, i, x);
        p += width as usize;
    }
}

// A loop with no test in it over two parts of one length, so that it is compiled to vector instructions.
fn store_bytes(bytes: &[u8], values: &mut [u64])
    requires { length values.old ≡ length bytes.now }
    ensures { values.new ≡ bytes.now }
{
    for (i, byte) in bytes.iter().enumerate() {
        values[i] = u64::from(*byte);
    }
}
