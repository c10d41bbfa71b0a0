// A message judged, and its lists given: the tests before the walk, the walk of the root, the tests after it.
ghost use Rattle.std.specs.Prelude.{◌≡◌, length};
ghost use Rattle.rules.specs.TypeTable.{type_table};
ghost use Rattle.rules.specs.Answers.{answer_of};
ghost use Rattle.layout.specs.Answers as Layout;
ghost use Rattle.layout.specs.Answers.{kept_sizes, kept_alignments, given_if_sound};
ghost use Rattle.layout.specs.Kept.{Zeroed};
ghost use Rattle.layout.specs.Ready.{table_in};
ghost use Rattle.walk_leaves.specs.Doing.{message};
ghost use Rattle.reader.specs.Passing.{BeforeWalk, Walkable, PrimaryDid, after_walk, Passed, judged_lengths};

use crate::Lengths;
use layout::climb::climb;
use layout::laid::Laid;
use layout::root_allowed;
use rules::{Fault, Place, Refusal};
use walk::cycle::value;
use walk_leaves::claims::claim;
use walk_leaves::cursor::Cursor;

// Before the walk: 1, 2, 3, 4; with a prepared state, 34 after 1.
pub(crate) fn before(
    verdict: Result<(), Fault>,
    rows: &[u32],
    root: u32,
    length: usize,
    handles: u64,
) -> Result<(), Fault>
    ensures { BeforeWalk (answer_of verdict) rows.now root length handles result }
{
    verdict?;
    if !root_allowed(rows, root) {
        return Err(Refusal::RootNotAllowed.at(Place::Row(root)));
    }
    if 65536 < length {
        return Err(Refusal::MessageTooLong.at(Place::Byte(0)));
    }
    if 64 < handles {
        return Err(Refusal::TooManyHandles.at(Place::Amount(0)));
    }
    Ok(())
}

// The primary object: claimed at 0, and walked.
fn primary(
    laid: &Laid<'_>,
    root: usize,
    bytes: &[u8],
    held: usize,
    values: &mut [u64],
    objects: &mut [u32],
) -> Result<Cursor, Fault>
    requires { Walkable (table_in laid.now) bytes.now root held laid.now.sizes.now laid.now.alignments.now }
    ensures { PrimaryDid (table_in laid.now) bytes.now root held values.old values.new objects.old objects.new result }
{
    let Laid { sizes, .. } = *laid;
    let start = Cursor {
        next: 0,
        handles: 0,
        values: 0,
        objects: 0,
    };
    let size = words::item_at(sizes, root) as usize;
    let c = claim(bytes, objects, 1, root, size, start)?;
    value(
        laid, bytes, held, values, objects, 32, root, 0, c.next, c.handles, c.values, c.objects,
    )
}

// After the walk: 20, 21.
fn after(end: Cursor, length: usize, held: usize) -> Result<Lengths, Fault>
    ensures { answer_of result ≡ after_walk end length held }
{
    if end.next != length {
        return Err(Refusal::BytesLeft.at(Place::Byte(end.next)));
    }
    if end.handles != held {
        return Err(Refusal::HandlesLeft.at(Place::Amount(end.handles)));
    }
    Ok(Lengths {
        values: end.values,
        objects: end.objects,
    })
}

// One walk of a message, with the tests after it. What there is no room for is counted and not stored.
pub(crate) fn pass(
    laid: &Laid<'_>,
    root: u32,
    bytes: &[u8],
    handles: u64,
    values: &mut [u64],
    objects: &mut [u32],
) -> Result<Lengths, Fault>
    requires { Walkable (table_in laid.now) bytes.now root handles laid.now.sizes.now laid.now.alignments.now }
    ensures { Passed (table_in laid.now) bytes.now root handles values.old values.new objects.old objects.new result }
{
    let held = handles as usize;
    let end = primary(laid, root as usize, bytes, held, values, objects)?;
    after(end, bytes.len(), held)
}

// Every test of the checker, by a walk that stores nothing. The arrays lent, zero before, get the sizes and the alignments that
// it goes by.
pub(crate) fn judge(
    rows: &[u32],
    members: &[u32],
    entries: &[u64],
    sizes: &mut [u32; 256],
    alignments: &mut [u32; 256],
    root: u32,
    bytes: &[u8],
    handles: u64,
) -> Result<Lengths, Fault>
    requires { Zeroed sizes.old × Zeroed alignments.old }
    ensures answer { answer_of result ≡ judged_lengths (message (type_table rows.now members.now entries.now) bytes.now handles) root }
    ensures sizes { let t = type_table rows.now members.now entries.now in
        sizes.new ≡ given_if_sound t (kept_sizes t) sizes.old }
    ensures alignments { let t = type_table rows.now members.now entries.now in
        alignments.new ≡ given_if_sound t (kept_alignments t) alignments.old }
{
    let verdict = climb(rows, members, entries, sizes, alignments);
    before(verdict, rows, root, bytes.len(), handles)?;
    let laid = Laid {
        rows,
        members,
        entries,
        sizes,
        alignments,
    };
    let mut no_values = [0u64; 0];
    let mut no_objects = [0u32; 0];
    pass(&laid, root, bytes, handles, &mut no_values, &mut no_objects)
}
