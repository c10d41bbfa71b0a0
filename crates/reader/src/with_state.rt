// A check with a prepared state (W-207).
ghost use Rattle.std.specs.Prelude.{◌≡◌};
ghost use Rattle.rules.specs.TypeTable.{type_table};
ghost use Rattle.rules.specs.Answers.{numbers_of, nothing, answer_of, result_numbers};
ghost use Rattle.prepared.specs.States.{check_prepared};
ghost use Rattle.walk_leaves.specs.Doing as Doing;

use crate::pass::{before, pass};
use layout::laid::Laid;
use prepared::State;
use rules::Fault;

// Every refusal but 22: 1 of the lists, 34 where the state is not theirs, and then those of `check`. The walk goes by the
// state's stores.
pub fn check_prepared(
    state: State,
    rows: &[u32],
    members: &[u32],
    entries: &[u64],
    root: u32,
    message: &[u8],
    handles: u64,
) -> Result<(), Fault>
    ensures answer { answer_of result ≡ check_prepared state (Doing.message (type_table rows.now members.now entries.now) message.now handles) root }
    ensures numbers { result_numbers 0 nothing result ≡ numbers_of 0 nothing (check_prepared state (Doing.message (type_table rows.now members.now entries.now) message.now handles) root) }
{
    let agreed = state.agreement(rows, members, entries);
    before(agreed, rows, root, message.len(), handles)?;
    let laid = Laid {
        rows,
        members,
        entries,
        sizes: &state.sizes,
        alignments: &state.alignments,
    };
    let mut no_values = [0u64; 0];
    let mut no_objects = [0u32; 0];
    pass(
        &laid,
        root,
        message,
        handles,
        &mut no_values,
        &mut no_objects,
    )?;
    Ok(())
}
