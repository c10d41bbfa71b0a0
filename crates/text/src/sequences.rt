// A text by its sequences: past those that are allowed, and to the first one that is not.
ghost use Rattle.std.specs.Prelude.{◌≡◌, ◌≤◌, length, map};
ghost use Rattle.text.specs.Answers.{text_of};
ghost use Rattle.text.specs.Sequences.{text_from, Passes};

use crate::ascii::past_more;
use crate::items::Item;
use crate::states::State;

// The text's end, if the machine is between sequences there; else where the last eight start that it began between sequences. Not a loop
// over chunks: more ASCII may be passed in between.
pub fn past_sequences<T: Item>(text: &[T], from: usize) -> usize
    requires { from ≤ length text.now }
    ensures { Passes (map T.number text.now) from result }
{
    let mut state = State::between();
    let mut at = from;
    let mut begun = from;
    while let Some(eight) = text[at..].get(..8) {
        begun = state.begun_at(at, begun);
        if state.is_between() && T::are_ascii(eight) {
            at = past_more(text, at + 8);
            continue;
        }
        state = state.after_all(eight);
        if state.is_refused() {
            return begun;
        }
        at += 8;
    }
    state.after_all(&text[at..]).begun_at(text.len(), begun)
}

// Item by item, with the place where each sequence starts.
pub fn find_broken<T: Item>(text: &[T], from: usize) -> Result<(), usize>
    requires { from ≤ length text.now }
    ensures { text_of result ≡ text_from (map T.number text.now) from }
{
    let mut state = State::between();
    let mut start = from;
    for at in from..text.len() {
        start = state.begun_at(at, start);
        state = state.after(text[at]);
        if state.is_refused() {
            return Err(start);
        }
    }
    if state.is_between() {
        return Ok(());
    }
    Err(start)
}
