// Where a walk stands. A part of the walk answers where it went on to, or a refusal.
ghost use Rattle.std.specs.Prelude.{◌≡◌, ◌+◌, ◌<◌, set, Err};
ghost use Rattle.rules.specs.Refusals.{fault, number_of};
ghost use Rattle.walk_leaves.specs.Doing.{gave_one};

use rules::{Fault, Place, Refusal};

// The next free byte, the handles used, and how many value numbers and object numbers were given so far.
#[derive(Clone, Copy)]
pub struct Cursor {
    pub next: usize,
    pub handles: usize,
    pub values: usize,
    pub objects: usize,
}

pub fn refused(refusal: Refusal, at: usize) -> Result<Cursor, Fault>
    ensures { result ≡ Err (fault (number_of refusal) (Place.Byte at)) }
{
    Err(refusal.at(Place::Byte(at)))
}

// One value number, stored where there is room and counted all the same.
pub fn gave(values: &mut [u64], x: u64, c: Cursor) -> Cursor
    requires { c.values < 4294967296 }
    ensures { (values.new ≡ set values.old c.values x) × (result ≡ gave_one c) }
{
    words::put_item(values, c.values, x);
    Cursor {
        values: c.values + 1,
        ..c
    }
}

// The same answer, taken apart and made anew. Copied whole it is loaded sixteen bytes at a time, which waits for stores of eight: a callee's
// answer that is its caller's own goes by this, where functions call each other in depth.
#[inline(always)]
pub fn passed_on(answer: Result<Cursor, Fault>) -> Result<Cursor, Fault>
    ensures { result ≡ answer }
{
    match answer {
        Ok(c) => Ok(c),
        Err(f) => Err(f),
    }
}
