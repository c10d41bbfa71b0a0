// Fill and objects.
ghost use Rattle.std.specs.Prelude.{◌≡◌, [], ◌∷◌, ◌+◌, ◌≤◌, ◌<◌, length};
ghost use Rattle.std.proofs.lemmas.List.Edits.{sets};
ghost use Rattle.rules.specs.Decode.{fill};
ghost use Rattle.walk_leaves.specs.Parts.{claim_at, DidObjects, DidNeither};

use crate::cursor::{Cursor, refused};
use rules::{Fault, Refusal};

// Fill of so many bytes: 7, at the first that is not zero.
pub fn fill_at(bytes: &[u8], at: usize, count: usize, c: Cursor) -> Result<Cursor, Fault>
    requires { at + count ≤ 131072 }
    ensures { DidNeither bytes.now 0 at c result (λ m. fill m count) }
{
    let zeros = words::zeros_from(bytes, at, count);
    if zeros < count {
        return refused(Refusal::FillNotZero, at + zeros);
    }
    Ok(c)
}

// An object's four numbers, those that there is room for.
fn put_object(objects: &mut [u32], i: usize, kind: u32, row: u32, offset: u32, size: u32)
    requires { i < 4294967296 }
    ensures { objects.new ≡ sets objects.old i (kind ∷ row ∷ offset ∷ size ∷ []) }
{
    words::put_item(objects, i, kind);
    words::put_item(objects, i + 1, row);
    words::put_item(objects, i + 2, offset);
    words::put_item(objects, i + 3, size);
}

// Claims an object: 6, then 7; its four numbers go to the lent list.
pub fn claim(
    bytes: &[u8],
    objects: &mut [u32],
    kind: u32,
    row: usize,
    size: usize,
    c: Cursor,
) -> Result<Cursor, Fault>
    requires { (length bytes.now ≤ 65536) × (c.next ≤ length bytes.now) × (c.objects < 4294967296) × (row < 4294967296) × (size < 281474976710656) }
    ensures { DidObjects bytes.now objects.old objects.new 4 0 c result (claim_at kind row size) }
{
    let next = c.next;
    let whole = words::padded(size);
    if bytes.len() - next < whole {
        return refused(Refusal::ObjectDoesNotFit, next);
    }
    let fill = whole - size;
    let zeros = words::zeros_from(bytes, next + size, fill);
    if zeros < fill {
        return refused(Refusal::FillNotZero, next + size + zeros);
    }
    let i = c.objects;
    put_object(objects, i, kind, row as u32, next as u32, size as u32);
    Ok(Cursor {
        next: next + whole,
        objects: i + 4,
        ..c
    })
}
