// Numbers as bytes, and bytes put into a lent buffer.
#![tactic(auto)]

ghost use Rattle.std.specs.Prelude.{◌≡◌, [], ◌∷◌, ◌+◌, ◌≤◌, length, take};
ghost use Rattle.wire.specs.Numbers.{number_at, bytes_of, complement as complement'};
ghost use Rattle.wire.specs.Pages.{put, HasRoom};

// The number in the four bytes of s from place i on, the most significant first. With the place, as the definition of a record's
// fields reads by place.
pub fn number_at(s: &[u8], i: usize) -> u32
    requires { i + 4 ≤ length s.now }
    ensures { result ≡ number_at s.now i }
{
    u32::from_be_bytes([s[i], s[i + 1], s[i + 2], s[i + 3]])
}

// A signed number in two's complement, by the flat form's name. `arith::as_signed` is the way back.
pub fn complement(e: i32) -> u32
    ensures { result ≡ complement' e }
{
    e.cast_unsigned()
}

// A lent buffer, and how much of it is put. What is put next goes behind that. That there is room is a clause: it is a fact of the
// page and of what is put on it.
#[derive(Drop)]
pub struct Page<'a> {
    pub out: &'a mut [u8],
    pub end: usize,
}

impl Page<'_> {
    // The bytes that are put.
    pub fn bytes(&self) -> &[u8]
        requires { self.now.end ≤ length self.now.out.now }
        ensures { result.now ≡ take self.now.end self.now.out.now }
    {
        &self.out[..self.end]
    }

    #[tactic(auto, using(crate::proofs::Over::over_one))]
    pub fn put_byte(&mut self, x: u8)
        requires { HasRoom self.old (x ∷ []) }
        ensures { self.new ≡ put self.old (x ∷ []) }
    {
        self.out[self.end] = x;
        self.end += 1;
    }

    // The bytes of a word.
    pub fn put_word(&mut self, word: &[u8])
        requires { HasRoom self.old word.now }
        ensures { self.new ≡ put self.old word.now }
    {
        let end = self.end + word.len();
        self.out[self.end..end].copy_from_slice(word);
        self.end = end;
    }

    // The four bytes of a number.
    pub fn put_number(&mut self, x: u32)
        requires { HasRoom self.old (bytes_of x) }
        ensures { self.new ≡ put self.old (bytes_of x) }
    {
        self.put_word(&x.to_be_bytes());
    }
}
