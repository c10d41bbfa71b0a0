// Whether a row has its line of the table of kinds (1): document 01, "The type table".
ghost use Rattle.std.specs.Prelude.{◌&&◌, ◌≡◌, ◌+◌, ◌/◌, ◌<◌, length, MatchOption};
ghost use Rattle.rules.specs.TypeTable.{TypeTable, type_table, type_of};
ghost use Rattle.rules.specs.Sound.{members_exist, struct_members, rising_members, entries_exist, rising_entries, width_allowed, row_fits};
ghost use Rattle.layout.specs.Kept.{Members};

// The `count` members from `first` on, each an ordinal and a row, if they exist.
fn members_from(members: &[u32], first: u32, count: u32) -> Option<&[[u32; 2]]>
    ensures { MatchOption result (length members.now / 2 < first + count) (λ some. Members members.now first count some.now) }
{
    let (members, _) = members.as_chunks::<2>();
    let first = first as usize;
    members.get(first..first + count as usize)
}

// A struct's members exist, "struct ordinals are 1, 2, 3 and on", and its members' rows have smaller numbers than its own.
fn struct_members(members: &[u32], row: u32, first: u32, count: u32) -> bool
    ensures { (t : TypeTable) → t.members ≡ members.now →
        result ≡ (members_exist t first count && struct_members t row first count 1) }
{
    let Some(own) = members_from(members, first, count) else {
        return false;
    };
    for (i, &[ordinal, inner]) in own.iter().enumerate() {
        if ordinal as usize != i + 1 || row <= inner {
            return false;
        }
    }
    true
}

// The members of a table or union exist, their "ordinals start at 1 or more and rise strictly", and their rows exist.
fn rising_members(rows: &[u32], members: &[u32], first: u32, count: u32) -> bool
    ensures { (t : TypeTable) → t.rows ≡ rows.now → t.members ≡ members.now →
        result ≡ (members_exist t first count && rising_members t first count 0) }
{
    let Some(own) = members_from(members, first, count) else {
        return false;
    };
    let row_count = rows.len() / 4;
    let mut before = 0;
    for &[ordinal, inner] in own {
        if ordinal <= before || row_count <= inner as usize {
            return false;
        }
        before = ordinal;
    }
    true
}

// "bytes: 1, 2, 4, 8".
fn width_allowed(width: u32) -> bool
    ensures { result ≡ width_allowed width }
{
    matches!(width, 1 | 2 | 4 | 8)
}

// W-206: the entries of a strict enum, or the mask of strict bits, "exist and lie within its width, and an enum's rise
// strictly".
fn entries_fit(entries: &[u64], width: u32, first: u32, count: u32) -> bool
    ensures { (t : TypeTable) → t.entries ≡ entries.now →
        result ≡ (width_allowed width && (entries_exist t first count && rising_entries t width first count 0)) }
{
    if !width_allowed(width) {
        return false;
    }
    let first = first as usize;
    let Some(own) = entries.get(first..first + count as usize) else {
        return false;
    };
    let Some(last) = own.last() else {
        return true;
    };
    *last <= u64::MAX >> (64 - 8 * width) && own.is_sorted_by(|a, b| a < b)
}

// The row's line of the table of kinds, with the cells that must be 0; no other kind has one.
#[tactic(auto, unfolding(rules::specs::Sound::row_fits, rules::specs::TypeTable::type_of))]
pub(crate) fn row_fits(rows: &[u32], members: &[u32], entries: &[u64], row: u32) -> bool
    ensures { let t = type_table rows.now members.now entries.now in
        result ≡ row_fits t row (type_of t row) }
{
    let kind = table::kind_at(rows, row as usize);
    let a = table::a_at(rows, row as usize);
    let b = table::b_at(rows, row as usize);
    let c = table::c_at(rows, row as usize);
    let row_count = rows.len() / 4;
    match kind {
        1 => (a == 0) & (b == 0) & (c == 0),
        2 => width_allowed(a) & (b == 0) & (c == 0),
        3 => (a <= 1) & (b == 0) & (c == 0),
        4 => (a < row) & (1 <= b) & (b <= 65528) & (c == 0),
        5 => ((a as usize) < row_count) & (c <= 1),
        6 => (a == 0) & (c <= 1),
        7 => (c == 0) & struct_members(members, row, a, b),
        8 => ((a as usize) < row_count)
            & (table::kind_at(rows, a as usize) == 7)
            & (b == 0)
            & (c == 0),
        9 => (c == 0) & rising_members(rows, members, a, b),
        10 => (1 <= b) & (c <= 3) & rising_members(rows, members, a, b),
        11 => (1 <= c) & entries_fit(entries, a, b, c),
        12 => (c == 1) & entries_fit(entries, a, b, 1),
        _ => false,
    }
}
