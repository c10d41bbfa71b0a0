// Where the writer stands. A part of the writer answers where it went on to, or a refusal.
ghost use Rattle.std.specs.Prelude.{◌≡◌, List, ◌+◌, ◌≤◌, ◌<◌, length, Err};
ghost use Rattle.std.proofs.lemmas.List.Edits.{sets};
ghost use Rattle.rules.specs.Refusals.{fault, number_of};
ghost use Rattle.rules.specs.Bytes.{zeros};
ghost use Rattle.rules.specs.Encode.{take_handles};
ghost use Rattle.write_leaves.specs.Putting.{took_one, Stands, HandlesTaken, NumberAt};

use rules::{Fault, Place, Refusal};
use words::Word;

// The next free byte of the message, the handles used, and how many numbers of the value list were taken.
#[derive(Clone, Copy)]
pub struct Cursor {
    pub next: usize,
    pub handles: usize,
    pub index: usize,
}

pub fn refused(refusal: Refusal, index: usize) -> Result<Cursor, Fault>
    ensures { result ≡ Err (fault (number_of refusal) (Place.Index index)) }
{
    Err(refusal.at(Place::Index(index)))
}

// The number at an index: 26 where the list has ended. Inlined, since the loops of runs are made of it.
#[inline(always)]
pub(crate) fn number_at(values: &[u64], index: usize) -> Result<u64, Fault>
    ensures { NumberAt values.now index result }
{
    if values.len() <= index {
        return Err(Refusal::NotAValue.at(Place::Index(index)));
    }
    Ok(values[index])
}

// The cursor after one more number.
pub fn took(c: Cursor) -> Cursor
    requires { c.index < 1152921504606846976 }
    ensures { result ≡ took_one c }
{
    Cursor {
        next: c.next,
        handles: c.handles,
        index: c.index + 1,
    }
}

// So many handles more: 4 at the number taken last.
pub fn with_handles(count: usize, c: Cursor) -> Result<Cursor, Fault>
    requires { (count < 65536) × (c.handles ≤ 64) × (0 < c.index) }
    ensures { HandlesTaken count c result }
{
    let used = c.handles + count;
    if 64 < used {
        return refused(Refusal::TooManyHandles, c.index - 1);
    }
    Ok(Cursor {
        next: c.next,
        handles: used,
        index: c.index,
    })
}

// Zero fill.
pub fn put_zeros(out: &mut [u8], at: usize, count: usize)
    requires { at + count < 4294967296 }
    ensures { out.new ≡ sets out.old at (zeros count) }
{
    if out.len() <= at {
        return;
    }
    for i in 0..count {
        u8::store(out, at + i, 0);
    }
}

// The same answer, taken apart and made anew. Copied whole it is loaded sixteen bytes at a time, which waits for stores of eight: a callee's
// answer that is its caller's own goes by this, where functions call each other in depth.
#[inline(always)]
pub fn passed_on(answer: Result<Cursor, Fault>) -> Result<Cursor, Fault>
    ensures { result ≡ answer }
{
    match answer {
        Ok(c) => Ok(c),
        Err(f) => Err(f),
    }
}
