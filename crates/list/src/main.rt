// The listing program: reads a message from standard input and writes its listing.
#![tactic(auto)]

ghost use Rattle.std.specs.Prelude.{◌≡◌, length};

use std::io;

// One byte more than a message may have: one that is too long is seen to be.
const MESSAGE_ROOM: usize = 8193;

// No listing is longer: listing::listing promises it.
const TEXT_ROOM: usize = 524288;

fn main(rt: HostRuntime) -> io::Result<()> {
    let mut message: [u8; MESSAGE_ROOM] = room();
    let mut text: [u8; TEXT_ROOM] = room();
    let count = console::read_full(&mut rt.stdin(), &mut message)?;
    let length = listing::listing(&message[..count], &mut text);
    rt.write_all(&text[..length])
}

// The contract gives the length alone, so that no proof goes into a long list.
fn room<const N: usize>() -> [u8; N]
    ensures { N ≡ length result }
{
    [0; N]
}
