// Whether the lists of a type table are whole.
ghost use Rattle.std.specs.Prelude.{◌≡◌};
ghost use Rattle.rules.specs.TypeTable.{type_table};
ghost use Rattle.rules.specs.Sound.{lists_whole};

// "lists whole": 1 to 256 rows of four numbers, 0 to 1,024 members of two, and of entries "at most 1,024" (W-206).
pub(crate) fn lists_whole(rows: &[u32], members: &[u32], entries: &[u64]) -> bool
    ensures { result ≡ lists_whole (type_table rows.now members.now entries.now) }
{
    let n = rows.len();
    let m = members.len();
    (n % 4 == 0) & (4 <= n) & (n <= 1024) & (m % 2 == 0) & (m <= 2048) & (entries.len() <= 1024)
}
