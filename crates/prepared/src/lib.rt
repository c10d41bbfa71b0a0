// A prepared state beside the lists of a type table (W-207): the sizes and alignments of the rows in use, kept from one
// operation to the next.
#![tactic(auto)]

ghost use Rattle.std.specs.Prelude.{◌≡◌};
ghost use Rattle.std.specs.Result.{result_unwrap_or};
ghost use Rattle.rules.specs.Refusals.{state_disagrees, fault, accepted, require};
ghost use Rattle.rules.specs.TypeTable.{type_table};
ghost use Rattle.rules.specs.Answers.{numbers_of, nothing, answer_of, result_numbers};
ghost use Rattle.rules.specs.declared.Place.TheVariants.{Amount};
ghost use Rattle.prepared.specs.States.{start, counts_in, prepared_of, same_state, agreement};
ghost use Rattle.prepared.specs.Operations.{cut_to, appended, counts_within, went_back, state_after, cut_state, no_numbers};

use layout::climb::{climb, climb_from};
use rules::{Fault, Place, Refusal};

// How many rows, members and entries lists hold, are in use, or are gone back to.
#[derive(Clone, Copy, PartialEq, Eq)]
pub struct Counts {
    pub rows: usize,
    pub members: usize,
    pub entries: usize,
}

impl Counts {
    // Of whole lists.
    fn of(rows: &[u32], members: &[u32], entries: &[u64]) -> Counts
        ensures { result ≡ counts_in (type_table rows.now members.now entries.now) }
    {
        Counts {
            rows: rows.len() / 4,
            members: members.len() / 2,
            entries: entries.len(),
        }
    }

    // None of them is above those of `most`.
    fn within(self, most: Counts) -> bool
        ensures { result ≡ counts_within self most }
    {
        self.rows <= most.rows && self.members <= most.members && self.entries <= most.entries
    }
}

// "Two stores of 256 numbers", the size and the alignment of each row in use and zero for the others; and how many rows,
// members and entries are in use. The counts come first, so that `==` looks at them first.
#[derive(Clone, Copy, PartialEq, Eq)]
pub struct State {
    pub counts: Counts,
    pub sizes: [u32; 256],
    pub alignments: [u32; 256],
}

// Prepares lists cut to counts: each ends there, or where it ends by itself.
fn prepare_cut(to: Counts, rows: &[u32], members: &[u32], entries: &[u64]) -> Result<State, Fault>
    ensures { answer_of result ≡ prepared_of (cut_to to (type_table rows.now members.now entries.now)) }
{
    let rows_end = to.rows.saturating_mul(4).min(rows.len());
    let members_end = to.members.saturating_mul(2).min(members.len());
    let entries_end = to.entries.min(entries.len());
    State::prepare(
        &rows[..rows_end],
        &members[..members_end],
        &entries[..entries_end],
    )
}

// An operation gives the new state. On a refusal the caller's own is as it was: what it has afterwards, `unwrap_or(self)`, is `state_after`.
impl State {
    // "All zero at the start."
    pub fn start() -> State
        ensures { result ≡ start }
    {
        State {
            counts: Counts {
                rows: 0,
                members: 0,
                entries: 0,
            },
            sizes: [0; 256],
            alignments: [0; 256],
        }
    }

    // Prepares a whole table: 1, or its state; after a refusal there is the start state.
    pub fn prepare(rows: &[u32], members: &[u32], entries: &[u64]) -> Result<State, Fault>
        ensures answer { answer_of result ≡ prepared_of (type_table rows.now members.now entries.now) }
        ensures state { result_unwrap_or result start ≡ state_after (prepared_of (type_table rows.now members.now entries.now)) start }
        ensures numbers { result_numbers 0 no_numbers result ≡ numbers_of 0 no_numbers (prepared_of (type_table rows.now members.now entries.now)) }
    {
        let mut state = State::start();
        climb(
            rows,
            members,
            entries,
            &mut state.sizes,
            &mut state.alignments,
        )?;
        state.counts = Counts::of(rows, members, entries);
        Ok(state)
    }

    // What preparing the lists cut to this state's counts gives: the start state on a refusal.
    fn cut(&self, rows: &[u32], members: &[u32], entries: &[u64]) -> State
        ensures { result ≡ cut_state self.now (type_table rows.now members.now entries.now) }
    {
        prepare_cut(self.counts, rows, members, entries).unwrap_or(State::start())
    }

    // 34, place 0, unless the states are the same.
    fn require_same(&self, other: &State) -> Result<(), Fault>
        ensures { answer_of result ≡ require (same_state self.now other.now) (fault state_disagrees (Amount 0)) (accepted (tt {0})) }
    {
        if self == other {
            Ok(())
        } else {
            Err(Refusal::StateDisagrees.at(Place::Amount(0)))
        }
    }

    // Appends what the lists hold past this state's counts: 1 of the whole lists, then 34. The rows in use are laid out once,
    // to hold this state against them, and the climb goes on from there: each row is worked out once.
    pub fn append(self, rows: &[u32], members: &[u32], entries: &[u64]) -> Result<State, Fault>
        ensures answer { answer_of result ≡ appended self (type_table rows.now members.now entries.now) }
        ensures state { result_unwrap_or result self ≡ state_after (appended self (type_table rows.now members.now entries.now)) self }
        ensures numbers { result_numbers 0 no_numbers result ≡ numbers_of 0 no_numbers (appended self (type_table rows.now members.now entries.now)) }
    {
        let used = self.cut(rows, members, entries);
        let first = used.counts.rows as u32;
        let mut state = used;
        climb_from(
            rows,
            members,
            entries,
            first,
            &mut state.sizes,
            &mut state.alignments,
        )?;
        self.require_same(&used)?;
        state.counts = Counts::of(rows, members, entries);
        Ok(state)
    }

    // Goes back to earlier counts: 1 at 256 for a count above this state's or the lists', 1 of the lists cut to the counts,
    // then 34.
    pub fn go_back(
        self,
        rows: &[u32],
        members: &[u32],
        entries: &[u64],
        to: Counts,
    ) -> Result<State, Fault>
        ensures answer { answer_of result ≡ went_back self (type_table rows.now members.now entries.now) to }
        ensures state { result_unwrap_or result self ≡ state_after (went_back self (type_table rows.now members.now entries.now) to) self }
        ensures numbers { result_numbers 0 no_numbers result ≡ numbers_of 0 no_numbers (went_back self (type_table rows.now members.now entries.now) to) }
    {
        if !to.within(self.counts) || !to.within(Counts::of(rows, members, entries)) {
            return Err(Refusal::TableNotSound.at(Place::Row(256)));
        }
        let back = prepare_cut(to, rows, members, entries)?;
        self.require_same(&self.cut(rows, members, entries))?;
        Ok(back)
    }

    // What a check asks of this state: 1 of the lists, then 34 where preparing them does not give it.
    pub fn agreement(self, rows: &[u32], members: &[u32], entries: &[u64]) -> Result<(), Fault>
        ensures answer { answer_of result ≡ agreement self (type_table rows.now members.now entries.now) }
        ensures numbers { result_numbers 0 nothing result ≡ numbers_of 0 nothing (agreement self (type_table rows.now members.now entries.now)) }
    {
        self.require_same(&State::prepare(rows, members, entries)?)
    }
}
