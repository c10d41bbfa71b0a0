// Demand 3's round trip as a function: a message is checked and read, and what was read is written and compared. Its promise
// says that the message comes back each time. What the three demands say of all public functions: specs/Demand1.antt and
// specs/Demands.antt.
#![tactic(auto)]

ghost use Rattle.std.specs.Prelude.{◌≡◌, ◌++◌, ◌≤◌, length, drop, Ok};
ghost use Rattle.rules.specs.declared.Place.TheVariants.{Amount};
ghost use Rattle.rules.specs.Refusals.{fault, accepted, refused, lent_after};
ghost use Rattle.rules.specs.TypeTable.{type_table};
ghost use Rattle.rules.specs.Answers as Rules;
ghost use Rattle.rules.specs.Answers.{output_after};
ghost use Rattle.rules.specs.Demands.{IsWrittenTo};
ghost use Rattle.walk_leaves.specs.Doing as Doing;
ghost use Rattle.demands.specs.declared.Trip.TheVariants.{Same};
ghost use Rattle.demands.specs.Trips.{trip_of, trip, trip_values, output_too_small};

use rules::{Fault, Place, Refusal};

// What came back: the same bytes and handle count, or others.
#[derive(Clone, Copy)]
pub enum Trip {
    Same,
    Different,
}

// The room that is missing where the output is too small: for the values, if that is too small as well. A reader that is lent
// no room tells how many there are.
fn needed(
    rows: &[u32],
    members: &[u32],
    entries: &[u64],
    root: u32,
    message: &[u8],
    handles: u64,
    room: usize,
) -> usize
    requires { Rules.check (Doing.message (type_table rows.now members.now entries.now) message.now handles) root ≡ accepted tt }
    ensures { refused (fault 22 (Amount result)) ≡ output_too_small (Doing.message (type_table rows.now members.now entries.now) message.now handles) root room }
{
    let mut no_values = [0u64; 0];
    if let Err(f) = reader::read_values(
        rows,
        members,
        entries,
        root,
        message,
        handles,
        &mut no_values,
    ) {
        let count = rules::place_number(f) as usize;
        if room < count {
            return count;
        }
    }
    message.len()
}

// The values of a message, written and compared with it, where there is room for it.
fn back(
    rows: &[u32],
    members: &[u32],
    entries: &[u64],
    root: u32,
    message: &[u8],
    handles: u64,
    values: &[u64],
    out: &mut [u8],
) -> Result<Trip, Fault>
    requires { IsWrittenTo (type_table rows.now members.now entries.now) root values.now message.now handles × (length message.now ≤ length out.old) }
    ensures answer { result ≡ Ok Same }
    ensures output { out.new ≡ message.now ++ drop (length message.now) out.old }
{
    let sizes = writer::write(rows, members, entries, root, values, out)?;
    let same = &out[..sizes.bytes] == message;
    if same & (sizes.handles as u64 == handles) {
        Ok(Trip::Same)
    } else {
        Ok(Trip::Different)
    }
}

// There and back again, through lists that are lent for the values and for the message written. Whether the message will fit is
// known before anything is read into the first, so that a refusal changes neither.
pub fn round_trip(
    rows: &[u32],
    members: &[u32],
    entries: &[u64],
    root: u32,
    message: &[u8],
    handles: u64,
    values: &mut [u64],
    out: &mut [u8],
) -> Result<Trip, Fault>
    ensures answer { result ≡ trip_of (trip (Doing.message (type_table rows.now members.now entries.now) message.now handles) root (length values.old) (length out.old)) }
    ensures values { values.new ≡ lent_after (trip_values (Doing.message (type_table rows.now members.now entries.now) message.now handles) root (length values.old) (length out.old)) values.old }
    ensures output { out.new ≡ output_after (trip (Doing.message (type_table rows.now members.now entries.now) message.now handles) root (length values.old) (length out.old)) out.old }
{
    reader::check(rows, members, entries, root, message, handles)?;
    if out.len() < message.len() {
        let count = needed(rows, members, entries, root, message, handles, values.len());
        return Err(Refusal::RoomTooSmall.at(Place::Amount(count)));
    }
    let count = reader::read_values(rows, members, entries, root, message, handles, values)?;
    back(
        rows,
        members,
        entries,
        root,
        message,
        handles,
        &values[..count],
        out,
    )
}
