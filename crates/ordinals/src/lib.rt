// What an ordinal stands for in a table or a union.
#![tactic(auto)]

ghost use Rattle.std.specs.Prelude.{◌≡◌};
ghost use Rattle.ordinals.specs.Ordinals.{ordinal_is, halved};

// The row of the member that has an ordinal, or `None` where the type does not know it. Searched by halves, so that a long
// table costs no more than a short one: the first `count` members from `first` on have rising ordinals in a sound type table.
// The search is written out: `halved` says what it finds in any list, and the library's search says that only of one that rises.
#[tactic(auto, using(crate::proofs::Halving::searched_whole, crate::proofs::Halving::searched_none, crate::proofs::Halving::searched_here, crate::proofs::Halving::searched_up, crate::proofs::Halving::searched_down))]
pub fn ordinal_of(members: &[u32], first: usize, count: usize, ordinal: u64) -> Option<usize>
    ensures { ordinal_is result ≡ halved members.now ordinal first count }
{
    if 1024 < first || 1024 < count {
        return None;
    }
    let mut low = first;
    let mut high = first + count;
    while low < high {
        let middle = (low + high) / 2;
        let here = table::ordinal_at(members, middle) as u64;
        if here == ordinal {
            return Some(table::row_of(members, middle) as usize);
        }
        if here < ordinal {
            low = middle + 1;
        } else {
            high = middle;
        }
    }
    None
}
