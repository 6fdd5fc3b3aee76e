// Numbers in the bytes of a record, one after another, least byte first. Bytes past the end count as 0.
ghost use Rattle.std.specs.Prelude.{◌≡◌, ℕ, ◌*◌, ◌<◌, ◌≤◌, IsTrue, drop, length, slice_index_or};
ghost use Rattle.std.specs.Int.{w8, w16, w32, w64, from_le_bytes};
ghost use Rattle.lending.specs.Reading.{next_bytes, half_at, IsNext};

use std::marker::Model;

// The last bytes of a record, and 0 for each past its end. It is apart so that what reads many numbers does not take it in.
#[cold]
#[inline(never)]
fn padded<const N: usize>(bytes: &[u8]) -> [u8; N]
    requires { length bytes.now ≤ N }
    ensures { result ≡ next_bytes N bytes.now }
{
    let mut padded = [0; N];
    padded[..bytes.len()].copy_from_slice(bytes);
    padded
}

// A record that is read: the bytes that are left of it.
#[derive(Drop)]
pub struct Reader<'a> {
    rest: &'a [u8],
}

impl<'a> Model for Reader<'a> {
    ghost use Rattle.std.specs.Prelude.{ℕ, List};

    ghost Value = { List ℕ };

    ghost view = { λ r. r.rest.now };
}

impl<'a> Reader<'a> {
    // At the head of a record.
    pub fn new(bytes: &'a [u8]) -> Reader<'a>
        ensures { result ≡ bytes.now }
    {
        Reader { rest: bytes }
    }

    // The next bytes.
    fn bytes<const N: usize>(&mut self) -> [u8; N]
        ensures next { result ≡ next_bytes N self.old }
        ensures rest { self.new ≡ drop N self.old }
    {
        if let Some((next, rest)) = self.rest.split_first_chunk() {
            self.rest = rest;
            return *next;
        }
        if self.rest.is_empty() {
            return [0; N];
        }
        let bytes = padded(self.rest);
        self.rest = &[];
        bytes
    }

    // The next 8 bits.
    pub fn octet(&mut self) -> u8
        ensures value { result ≡ from_le_bytes w8 (next_bytes 1 self.old) }
        ensures rest { self.new ≡ drop 1 self.old }
    {
        u8::from_le_bytes(self.bytes())
    }

    // The next 16 bits.
    pub fn half(&mut self) -> u16
        ensures value { result ≡ from_le_bytes w16 (next_bytes 2 self.old) }
        ensures rest { self.new ≡ drop 2 self.old }
    {
        u16::from_le_bytes(self.bytes())
    }

    // The next 32 bits.
    pub fn word(&mut self) -> u32
        ensures value { result ≡ from_le_bytes w32 (next_bytes 4 self.old) }
        ensures rest { self.new ≡ drop 4 self.old }
    {
        u32::from_le_bytes(self.bytes())
    }

    // The next 32 bits, as a length or an index.
    pub fn size(&mut self) -> usize
        ensures value { result ≡ from_le_bytes w32 (next_bytes 4 self.old) }
        ensures rest { self.new ≡ drop 4 self.old }
    {
        self.word() as usize
    }

    // The next 64 bits.
    pub fn long(&mut self) -> u64
        ensures value { result ≡ from_le_bytes w64 (next_bytes 8 self.old) }
        ensures rest { self.new ≡ drop 8 self.old }
    {
        u64::from_le_bytes(self.bytes())
    }

    // Passes over bytes.
    pub fn skip(&mut self, count: usize)
        ensures { self.new ≡ drop count self.old }
    {
        self.rest = self.rest.get(count..).unwrap_or(&[]);
    }

    // Fills words with the next 16 bits each.
    pub fn fill<T: From<u16> + Drop>(&mut self, words: &mut [T])
        ensures words { (k : ℕ) (d : T) → k < length words.old → T.from_gives (half_at self.old k) (slice_index_or words.new k d) }
        ensures rest { self.new ≡ drop (2 * length words.old) self.old }
    {
        let there = self.rest.len().div_ceil(2).min(words.len());
        let (first, past) = words.split_at_mut(there);
        for word in first {
            *word = T::from(self.half());
        }
        for past_word in past {
            *past_word = T::from(0);
        }
    }

    // Whether words are the next 16 bits each.
    pub fn gives(&mut self, words: &[u32]) -> bool
        ensures same { IsTrue result → IsNext self.old words.now }
        ensures rest { IsTrue result → self.new ≡ drop (2 * length words.now) self.old }
    {
        for word in words {
            if *word != u32::from(self.half()) {
                return false;
            }
        }
        true
    }
}
