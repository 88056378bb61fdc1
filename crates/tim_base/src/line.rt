ghost use Rattle.std.specs.Prelude.{◌≡◌, ℕ, ◌+◌, ◌≤◌, ◌++◌, [], List, length, decimal};
ghost use Rattle.std.specs.Fmt.{signed_decimal};

use arrayvec::ArrayVec;
use itoa::Buffer;
use std::marker::Model;

/// For how many bytes a line has room.
const ROOM: usize = 160;

/// A line of up to 160 bytes. No call on it takes memory.
#[derive(Drop)]
pub struct Line {
    bytes: ArrayVec<u8, ROOM>,
}

impl Model for Line {
    ghost use Rattle.std.specs.Prelude.{List, ℕ};

    ghost Value = { List ℕ };

    ghost view = { λ l. l.bytes.items };
}

impl Line {
    /// A line with no bytes.
    pub fn new() -> Line
        ensures { result ≡ [] }
    {
        Line {
            bytes: ArrayVec::new(),
        }
    }

    /// Takes all bytes away.
    pub fn clear(&mut self)
        ensures { self.new ≡ [] }
    {
        self.bytes.clear();
    }

    /// Appends bytes.
    #[inline(always)]
    pub fn put_text(&mut self, text: &[u8])
        requires { length self.old + length text.now ≤ 160 }
        ensures { self.new ≡ self.old ++ text.now }
    {
        self.bytes.try_extend_from_slice(text).unwrap();
    }

    /// Appends a number in decimal digits, after `-` where it is below 0.
    pub fn put_signed(&mut self, n: i64)
        requires { length self.old + length (signed_decimal n) ≤ 160 }
        ensures { self.new ≡ self.old ++ signed_decimal n }
    {
        let mut buffer = Buffer::new();
        self.put_text(buffer.format(n).as_bytes());
    }

    /// Appends a number in decimal digits.
    pub fn put_unsigned(&mut self, n: u64)
        requires { length self.old + length (decimal n) ≤ 160 }
        ensures { self.new ≡ self.old ++ decimal n }
    {
        let mut buffer = Buffer::new();
        self.put_text(buffer.format(n).as_bytes());
    }

    /// The bytes of the line, at most 160.
    #[inline(always)]
    pub fn bytes(&self) -> &[u8]
        ensures { result.now ≡ self.now }
    {
        self.bytes.as_slice()
    }
}
