// Checker, reader and object list: document 01, "The walk" and "Numbers and places". They share one walk.
#![tactic(auto)]

mod pass;
mod with_state;

ghost use Rattle.std.specs.Prelude.{◌≡◌, length};
ghost use Rattle.rules.specs.declared.Place.TheVariants.{Amount};
ghost use Rattle.rules.specs.Refusals.{fault, lent_after};
ghost use Rattle.rules.specs.TypeTable.{type_table};
ghost use Rattle.rules.specs.Answers as Rules;
ghost use Rattle.rules.specs.Answers.{numbers_of, nothing, counted, both_counted, answer_of, result_numbers};
ghost use Rattle.walk_leaves.specs.Doing as Doing;
ghost use Rattle.reader.specs.Answers.{one, both, length_of, lengths_of, values_in, objects_in};

use layout::laid::Laid;
use pass::{judge, pass};
use rules::{Fault, Place, Refusal};
pub use with_state::check_prepared;

// How many numbers the value list and the object list of a message have.
#[derive(Clone, Copy)]
pub struct Lengths {
    pub values: usize,
    pub objects: usize,
}

// Every refusal but 22.
pub fn check(
    rows: &[u32],
    members: &[u32],
    entries: &[u64],
    root: u32,
    message: &[u8],
    handles: u64,
) -> Result<(), Fault>
    ensures answer { answer_of result ≡ Rules.check (Doing.message (type_table rows.now members.now entries.now) message.now handles) root }
    ensures numbers { result_numbers 0 nothing result ≡ numbers_of 0 nothing (Rules.check (Doing.message (type_table rows.now members.now entries.now) message.now handles) root) }
{
    let mut sizes = [0u32; 256];
    let mut alignments = [0u32; 256];
    judge(
        rows,
        members,
        entries,
        &mut sizes,
        &mut alignments,
        root,
        message,
        handles,
    )?;
    Ok(())
}

// The value list. The walk that stores comes after the one that judges, so that a refusal changes nothing; nothing changes
// past the list.
pub fn read_values(
    rows: &[u32],
    members: &[u32],
    entries: &[u64],
    root: u32,
    message: &[u8],
    handles: u64,
    values: &mut [u64],
) -> Result<usize, Fault>
    ensures answer { answer_of result ≡ length_of (Rules.read_values (Doing.message (type_table rows.now members.now entries.now) message.now handles) root (length values.old)) }
    ensures list { values.new ≡ lent_after (Rules.read_values (Doing.message (type_table rows.now members.now entries.now) message.now handles) root (length values.old)) values.old }
    ensures numbers { result_numbers 1 one result ≡ numbers_of 1 counted (Rules.read_values (Doing.message (type_table rows.now members.now entries.now) message.now handles) root (length values.old)) }
{
    let mut sizes = [0u32; 256];
    let mut alignments = [0u32; 256];
    let needed = judge(
        rows,
        members,
        entries,
        &mut sizes,
        &mut alignments,
        root,
        message,
        handles,
    )?;
    if values.len() < needed.values {
        return Err(Refusal::RoomTooSmall.at(Place::Amount(needed.values)));
    }
    let mut no_objects = [0u32; 0];
    let laid = Laid {
        rows,
        members,
        entries,
        sizes: &sizes,
        alignments: &alignments,
    };
    let _ = pass(&laid, root, message, handles, values, &mut no_objects);
    Ok(needed.values)
}

// The object list, in the same way.
pub fn read_objects(
    rows: &[u32],
    members: &[u32],
    entries: &[u64],
    root: u32,
    message: &[u8],
    handles: u64,
    objects: &mut [u32],
) -> Result<usize, Fault>
    ensures answer { answer_of result ≡ length_of (Rules.read_objects (Doing.message (type_table rows.now members.now entries.now) message.now handles) root (length objects.old)) }
    ensures list { objects.new ≡ lent_after (Rules.read_objects (Doing.message (type_table rows.now members.now entries.now) message.now handles) root (length objects.old)) objects.old }
    ensures numbers { result_numbers 1 one result ≡ numbers_of 1 counted (Rules.read_objects (Doing.message (type_table rows.now members.now entries.now) message.now handles) root (length objects.old)) }
{
    let mut sizes = [0u32; 256];
    let mut alignments = [0u32; 256];
    let needed = judge(
        rows,
        members,
        entries,
        &mut sizes,
        &mut alignments,
        root,
        message,
        handles,
    )?;
    if objects.len() < needed.objects {
        return Err(Refusal::RoomTooSmall.at(Place::Amount(needed.objects)));
    }
    let mut no_values = [0u64; 0];
    let laid = Laid {
        rows,
        members,
        entries,
        sizes: &sizes,
        alignments: &alignments,
    };
    let _ = pass(&laid, root, message, handles, &mut no_values, objects);
    Ok(needed.objects)
}

// Both lists. 22 of the objects comes before that of the values.
pub fn read(
    rows: &[u32],
    members: &[u32],
    entries: &[u64],
    root: u32,
    message: &[u8],
    handles: u64,
    values: &mut [u64],
    objects: &mut [u32],
) -> Result<Lengths, Fault>
    ensures answer { answer_of result ≡ lengths_of (Rules.read (Doing.message (type_table rows.now members.now entries.now) message.now handles) root (length values.old) (length objects.old)) }
    ensures values { values.new ≡ lent_after (values_in (Rules.read (Doing.message (type_table rows.now members.now entries.now) message.now handles) root (length values.old) (length objects.old))) values.old }
    ensures objects { objects.new ≡ lent_after (objects_in (Rules.read (Doing.message (type_table rows.now members.now entries.now) message.now handles) root (length values.old) (length objects.old))) objects.old }
    ensures numbers { result_numbers 2 both result ≡ numbers_of 2 both_counted (Rules.read (Doing.message (type_table rows.now members.now entries.now) message.now handles) root (length values.old) (length objects.old)) }
{
    let mut sizes = [0u32; 256];
    let mut alignments = [0u32; 256];
    let lengths = judge(
        rows,
        members,
        entries,
        &mut sizes,
        &mut alignments,
        root,
        message,
        handles,
    )?;
    if objects.len() < lengths.objects {
        return Err(Refusal::RoomTooSmall.at(Place::Amount(lengths.objects)));
    }
    if values.len() < lengths.values {
        return Err(Refusal::RoomTooSmall.at(Place::Amount(lengths.values)));
    }
    let laid = Laid {
        rows,
        members,
        entries,
        sizes: &sizes,
        alignments: &alignments,
    };
    let _ = pass(&laid, root, message, handles, values, objects);
    Ok(lengths)
}
