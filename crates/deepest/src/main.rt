// Reads the deepest message that the rules accept: 33 objects, each boxed in the one before it and each 255 structs deep in
// line. It shows that this takes little stack.
#![tactic(auto)]

use std::io;

fn main(rt: HostRuntime) -> io::Result<()> {
    // The type table's rows: a box of the last row, and structs, each with the row before it as its one member;
    let mut rows = [[8u32, 255, 0, 0]; 256];
    for row in 1..256u32 {
        rows[row as usize] = [7, row - 1, 1, 0];
    }
    // and its members.
    let mut members = [[1u32, 0]; 255];
    for row in 0..255u32 {
        members[row as usize] = [1, row];
    }
    // Every box is present but the last one.
    let mut message = [255u8; 264];
    message[256..].fill(0);
    let mut values = [0u64; 64];
    let mut objects = [0u32; 256];
    let read = reader::read(
        rows.as_flattened(),
        members.as_flattened(),
        &[],
        255,
        &message,
        0,
        &mut values,
        &mut objects,
    );
    match read {
        Ok(n) => println!(rt; "values={}\nobject numbers={}", n.values, n.objects),
        Err(f) => println!(rt; "refused with {}", f.number),
    }
}
