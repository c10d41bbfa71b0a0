// A value list measured, and its message written: the tests before the writer's walk, the root's value, the test after it.
ghost use Rattle.std.specs.Prelude.{◌≡◌};
ghost use Rattle.rules.specs.TypeTable.{type_table};
ghost use Rattle.rules.specs.Answers.{written, answer_of};
ghost use Rattle.layout.specs.Answers.{kept_sizes, kept_alignments, given_if_sound};
ghost use Rattle.layout.specs.Kept.{Zeroed};
ghost use Rattle.layout.specs.Ready.{Ready, table_in};
ghost use Rattle.writer.specs.Answers.{sizes_of};
ghost use Rattle.writer.specs.Passing.{PrimaryPut, after_value, Passed};

use crate::Sizes;
use layout::climb::climb;
use layout::laid::Laid;
use layout::root_allowed;
use rules::{Fault, Place, Refusal};
use write_leaves::cursor::Cursor;
use write_records::records::fill_up;
use write_walk::cycle::value;

// The primary object: the root's value at 0, and its fill.
fn primary(laid: &Laid<'_>, root: usize, values: &[u64], out: &mut [u8]) -> Result<Cursor, Fault>
    requires { Ready (table_in laid.now) laid.now.sizes.now laid.now.alignments.now 32 root }
    ensures { PrimaryPut (table_in laid.now) values.now root out.old out.new result }
{
    let Laid { sizes, .. } = *laid;
    let size = words::item_at(sizes, root) as usize;
    let next = words::padded(size);
    let end = value(laid, values, out, 0, 32, root, 0, next, 0, 0)?;
    fill_up(out, size);
    Ok(end)
}

// Numbers left: 26.
fn after(end: Cursor, total: usize) -> Result<Sizes, Fault>
    ensures { answer_of result ≡ after_value end total }
{
    if end.index != total {
        return Err(Refusal::NotAValue.at(Place::Index(end.index)));
    }
    Ok(Sizes {
        bytes: end.next,
        handles: end.handles,
    })
}

// One walk of a value list, with the test after it. What there is no room for is counted and not stored.
pub(crate) fn pass(
    laid: &Laid<'_>,
    root: u32,
    values: &[u64],
    out: &mut [u8],
) -> Result<Sizes, Fault>
    requires { Ready (table_in laid.now) laid.now.sizes.now laid.now.alignments.now 32 root }
    ensures { Passed (table_in laid.now) values.now root out.old out.new result }
{
    let end = primary(laid, root as usize, values, out)?;
    after(end, values.len())
}

// Every test but that of the room, by a pass that stores nothing. The arrays lent, zero before, get the sizes and the
// alignments that it goes by.
pub(crate) fn measure(
    rows: &[u32],
    members: &[u32],
    entries: &[u64],
    sizes: &mut [u32; 256],
    alignments: &mut [u32; 256],
    root: u32,
    values: &[u64],
) -> Result<Sizes, Fault>
    requires { Zeroed sizes.old × Zeroed alignments.old }
    ensures answer { answer_of result ≡ sizes_of (written (type_table rows.now members.now entries.now) root values.now) }
    ensures sizes { let t = type_table rows.now members.now entries.now in
        sizes.new ≡ given_if_sound t (kept_sizes t) sizes.old }
    ensures alignments { let t = type_table rows.now members.now entries.now in
        alignments.new ≡ given_if_sound t (kept_alignments t) alignments.old }
{
    climb(rows, members, entries, sizes, alignments)?;
    if !root_allowed(rows, root) {
        return Err(Refusal::RootNotAllowed.at(Place::Row(root)));
    }
    let laid = Laid {
        rows,
        members,
        entries,
        sizes,
        alignments,
    };
    let mut none = [0u8; 0];
    pass(&laid, root, values, &mut none)
}
