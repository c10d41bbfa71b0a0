// What walk and writer have at hand.

// A type table, and the sizes and the alignments of its rows.
#[derive(Clone, Copy)]
pub struct Laid<'a> {
    pub rows: &'a [u32],
    pub members: &'a [u32],
    pub entries: &'a [u64],
    pub sizes: &'a [u32; 256],
    pub alignments: &'a [u32; 256],
}
