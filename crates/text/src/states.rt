// The machine that goes over text: what is due next is a state, and the class of a byte leads from one to the next.
ghost use Rattle.std.specs.Prelude.{◌≡◌, ◌%◌, ◌<◌, eqb, get_or, map, if◌then◌else◌};
ghost use Rattle.text.specs.Classes.{class_of};
ghost use Rattle.text.specs.Machine.{steps, StepsTo, StepsOver};

use crate::items::Item;
use crate::tables::{CLASSES, STEPS};

// Six times the states that are asked for: between sequences, and never again.
const BETWEEN: u64 = 0;

const REFUSED: u64 = 48;

// The class of a byte: the table is the one that `ClassesRight` is about.
fn class_of(byte: u8) -> u8
    ensures { result ≡ class_of byte }
{
    CLASSES[byte as usize]
}

// For each state, six times the state after a byte of a class.
fn steps_of(class: u8) -> u64
    requires { class < 13 }
    ensures { result ≡ get_or steps class 0 }
{
    STEPS[class as usize]
}

// The word's lowest six bits are six times the state.
#[derive(Clone, Copy)]
pub struct State {
    word: u64,
}

impl State {
    pub fn between() -> State
        ensures { result.word % 64 ≡ 0 }
    {
        State { word: BETWEEN }
    }

    // Two tests by their names are plainer than one that is told which state to look for.
    pub fn is_between(self) -> bool
        ensures { result ≡ eqb (self.word % 64) 0 }
    {
        self.word % 64 == BETWEEN
    }

    pub fn is_refused(self) -> bool
        ensures { result ≡ eqb (self.word % 64) 48 }
    {
        self.word % 64 == REFUSED
    }

    // Where the sequence began that the machine is in: between sequences, the next one begins here.
    pub fn begun_at(self, at: usize, begun: usize) -> usize
        ensures { result ≡ (if eqb (self.word % 64) 0 then at else begun) }
    {
        if self.is_between() { at } else { begun }
    }

    // One item on: the word of its byte's class, shifted by six times the state.
    pub fn after<T: Item>(self, item: T) -> State
        ensures { StepsTo self.word (T.number item) result.word }
    {
        let class = class_of(item.byte());
        State {
            word: steps_of(class) >> (self.word % 64),
        }
    }

    // Many items on. There is no branch for each.
    pub fn after_all<T: Item>(self, items: &[T]) -> State
        ensures { StepsOver self.word (map T.number items.now) result.word }
    {
        let mut state = self;
        for &item in items {
            state = state.after(item);
        }
        state
    }
}
