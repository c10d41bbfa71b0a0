// The type table judged (1), and the sizes and alignments of its rows: document 01, "The type table" and "Sizes".
#![tactic(auto)]

mod calculator;
pub mod climb;
mod kinds;
pub mod laid;
mod lists;
mod sizes;

ghost use Rattle.std.specs.Prelude.{◌≡◌};
ghost use Rattle.rules.specs.TypeTable.{type_table};
ghost use Rattle.rules.specs.Sound.{soundness};
ghost use Rattle.rules.specs.Answers.{layout_answer, numbers_of, nothing, laid, answer_of, result_numbers};
ghost use Rattle.layout.specs.Answers.{RootIs, kept_sizes, kept_alignments, given_if_sound};

use calculator::kept_at;
use climb::climb;
use rules::{Fault, Layout, Place, Refusal};

// Goes up the rows once: 1 at the lowest bad row, at 256 if a list's length is wrong. The arrays lent get the size and the
// alignment of each row of a sound table, and zeros past them; after a refusal they are as they were.
pub fn prepare(
    rows: &[u32],
    members: &[u32],
    entries: &[u64],
    sizes: &mut [u32; 256],
    alignments: &mut [u32; 256],
) -> Result<(), Fault>
    ensures verdict { answer_of result ≡ soundness (type_table rows.now members.now entries.now) }
    ensures sizes { let t = type_table rows.now members.now entries.now in
        sizes.new ≡ given_if_sound t (kept_sizes t) sizes.old }
    ensures alignments { let t = type_table rows.now members.now entries.now in
        alignments.new ≡ given_if_sound t (kept_alignments t) alignments.old }
    ensures numbers { result_numbers 0 nothing result ≡ numbers_of 0 nothing (soundness (type_table rows.now members.now entries.now)) }
{
    let mut own_sizes = [0u32; 256];
    let mut own_alignments = [0u32; 256];
    climb(rows, members, entries, &mut own_sizes, &mut own_alignments)?;
    *sizes = own_sizes;
    *alignments = own_alignments;
    Ok(())
}

// The layout of a row; 1, then 2 for a row that does not exist.
#[tactic(auto, using(crate::proofs::Keeping::kept_layout), unfolding(rules::specs::Answers::layout_answer))]
pub fn layout_of(rows: &[u32], members: &[u32], entries: &[u64], row: u32) -> Result<Layout, Fault>
    ensures answer { answer_of result ≡ layout_answer (type_table rows.now members.now entries.now) row }
    ensures numbers { result_numbers 2 laid result ≡ numbers_of 2 laid (layout_answer (type_table rows.now members.now entries.now) row) }
{
    let mut sizes = [0u32; 256];
    let mut alignments = [0u32; 256];
    climb(rows, members, entries, &mut sizes, &mut alignments)?;
    if (row as usize) < rows.len() / 4 {
        Ok(kept_at(&sizes, &alignments, row))
    } else {
        Err(Refusal::RootNotAllowed.at(Place::Row(row)))
    }
}

// Whether a row may be a root: a struct, a table or a union.
#[tactic(auto, unfolding(rules::specs::Sound::root_allowed, rules::specs::TypeTable::type_of))]
pub fn root_allowed(rows: &[u32], root: u32) -> bool
    ensures { RootIs rows.now root result }
{
    let kind = table::kind_at(rows, root as usize);
    (root as usize) < rows.len() / 4 && matches!(kind, 7 | 9 | 10)
}
