// Going up the rows of a type table: each is judged from the sizes and alignments that are kept of the rows below it, and then
// kept itself.
ghost use Rattle.std.specs.Prelude.{◌≡◌, ◌≤◌, length};
ghost use Rattle.rules.specs.TypeTable.{type_table};
ghost use Rattle.rules.specs.Sound.{soundness};
ghost use Rattle.rules.specs.Answers.{answer_of};
ghost use Rattle.layout.specs.Answers.{kept_sizes, kept_alignments, given_if_sound};
ghost use Rattle.layout.specs.Kept.{Zeroed, KeptBelow, Climbing, Climbed, judged, refused_at};

use crate::calculator::row_layout;
use crate::kinds::row_fits;
use crate::lists::lists_whole;
use rules::{Fault, Layout, Place, Refusal};

// A row on its own: "every row as above", and "no in-line size exceeds 65,528".
#[tactic(auto, unfolding(rules::specs::Sound::row_sound))]
fn judge(
    rows: &[u32],
    members: &[u32],
    entries: &[u64],
    sizes: &[u32; 256],
    alignments: &[u32; 256],
    row: u32,
) -> Result<Layout, Fault>
    requires kept_below { KeptBelow (type_table rows.now members.now entries.now) row sizes.now alignments.now }
    requires members_len_bound { length members.now ≤ 2048 }
    ensures { result ≡ judged (type_table rows.now members.now entries.now) row }
{
    if !row_fits(rows, members, entries, row) {
        return Err(Refusal::TableNotSound.at(Place::Row(row)));
    }
    let l = row_layout(rows, members, entries, sizes, alignments, row, row);
    if l.size <= 65528 {
        Ok(l)
    } else {
        Err(Refusal::TableNotSound.at(Place::Row(row)))
    }
}

// Goes up the rows from one on, whose rows below are sound and kept in the arrays: 1 at the lowest bad row, at 256 if a list's
// length is wrong. The arrays keep the rows of a sound table, and past them what they held.
pub fn climb_from(
    rows: &[u32],
    members: &[u32],
    entries: &[u64],
    first: u32,
    sizes: &mut [u32; 256],
    alignments: &mut [u32; 256],
) -> Result<(), Fault>
    requires { Climbing (type_table rows.now members.now entries.now) first sizes.old alignments.old }
    ensures { Climbed (type_table rows.now members.now entries.now) result sizes.old alignments.old sizes.new alignments.new }
{
    if !lists_whole(rows, members, entries) {
        return Err(Refusal::TableNotSound.at(Place::Row(256)));
    }
    let count = (rows.len() / 4) as u32;
    for row in first..count {
        let l = judge(rows, members, entries, sizes, alignments, row)?;
        let at = row as usize;
        sizes[at] = l.size as u32;
        alignments[at] = l.alignment as u32;
    }
    Ok(())
}

// What `prepare` does, for crates that have arrays of their own: it works in these, which are zero before and after a refusal.
pub fn climb(
    rows: &[u32],
    members: &[u32],
    entries: &[u64],
    sizes: &mut [u32; 256],
    alignments: &mut [u32; 256],
) -> Result<(), Fault>
    requires { Zeroed sizes.old × Zeroed alignments.old }
    ensures verdict { answer_of result ≡ soundness (type_table rows.now members.now entries.now) }
    ensures sizes { let t = type_table rows.now members.now entries.now in
        sizes.new ≡ given_if_sound t (kept_sizes t) sizes.old }
    ensures alignments { let t = type_table rows.now members.now entries.now in
        alignments.new ≡ given_if_sound t (kept_alignments t) alignments.old }
{
    let verdict = climb_from(rows, members, entries, 0, sizes, alignments);
    if verdict.is_err() {
        *sizes = [0u32; 256];
        *alignments = [0u32; 256];
    }
    verdict
}
