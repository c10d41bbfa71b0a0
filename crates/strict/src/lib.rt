// Strict enums and strict bits (W-206): which values their entries allow.
#![tactic(auto)]

ghost use Rattle.std.specs.Prelude.{◌≡◌, ◌+◌, ◌≤◌, length};
ghost use Rattle.rules.specs.Records.{among_entries, within_mask};
ghost use Rattle.strict.specs.Strict.{Rising, Searchable, shift_away, allowed};

// A shift that leaves nothing of a number below 2^32 where the value is below the entry, and all of it elsewhere.
fn shift_away(value: u64, entry: u64) -> u32
    ensures { result ≡ shift_away value entry }
{
    if value < entry { 32 } else { 0 }
}

// Whether a value is among entries that rise, searched by halves. Where a turn stays in the lower half, a half of at most 512 is
// shifted away: a choice would be compiled to a branch, and the library's search, which makes one, takes twice as long where values
// come in no order.
#[tactic(auto, using(crate::proofs::Searching::among_empty, crate::proofs::Searching::narrowed_whole, crate::proofs::Searching::away_small, crate::proofs::Searching::narrowed_next, crate::proofs::Searching::narrowed_one))]
fn among(entries: &[u64], value: u64) -> bool
    requires { Rising entries.now 0 (length entries.now) × (length entries.now ≤ 1024) }
    ensures { result ≡ among_entries entries.now 0 (length entries.now) value }
{
    if entries.is_empty() {
        return false;
    }
    let mut low = 0;
    let mut left = entries.len();
    while 1 < left {
        let half = left / 2;
        let middle = low + half;
        left -= half;
        low += half >> shift_away(value, entries[middle]);
    }
    entries[low] == value
}

// Whether a value has no bit outside a mask.
fn within_mask(mask: u64, value: u64) -> bool
    ensures { result ≡ within_mask mask value }
{
    value & mask == value
}

// Whether a strict enum (kind 11) or strict bits (kind 12) allow a value: the entries are `count` from `first` on, or `first` is
// the mask.
#[tactic(auto, using(crate::proofs::Searching::among_part))]
pub fn allows(entries: &[u64], kind: u32, first: usize, count: usize, value: u64) -> bool
    requires { Searchable entries.now kind first count }
    ensures { result ≡ allowed entries.now kind first count value }
{
    if kind == 11 {
        return among(&entries[first..first + count], value);
    }
    within_mask(words::item_at(entries, first), value)
}
