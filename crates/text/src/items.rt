// What a text is made of.
ghost use Rattle.std.specs.Prelude.{◌≡◌, true, ℕ, length, map};
ghost use Rattle.text.specs.Classes.{Alike};
ghost use Rattle.text.specs.Sequences.{AreAscii};

use words::Word;

// A byte; or a number, which is judged as a byte.
pub trait Item: Copy {
    ghost number: { Self → ℕ };

    fn byte(self) -> u8
        ensures { Alike (number self) result };

    // Are eight of them ASCII? There is no branch for each.
    fn are_ascii(eight: &[Self]) -> bool
        requires { length eight.now ≡ 8 }
        ensures { result ≡ true → AreAscii (map number eight.now) };

    // Does it pay to try a whole block of them after each eight of ASCII among other text? Either way the answer is the same.
    fn by_blocks() -> bool;
}

impl Item for u8 {
    ghost number = { λ byte. byte };

    fn byte(self) -> u8 {
        self
    }

    // None has its highest bit.
    fn are_ascii(eight: &[u8]) -> bool {
        u64::load(eight, 0) & 0x8080808080808080 == 0
    }

    fn by_blocks() -> bool {
        true
    }
}

impl Item for u64 {
    ghost number = { λ number. number };

    // A number above all bytes is judged as the last one, which no range holds either.
    fn byte(self) -> u8 {
        u8::try_from(self).unwrap_or(u8::MAX)
    }

    fn are_ascii(eight: &[u64]) -> bool {
        words::bits_of(eight) < 0x80
    }

    // A block of numbers costs as much as its eights, and most runs are shorter.
    fn by_blocks() -> bool {
        false
    }
}
