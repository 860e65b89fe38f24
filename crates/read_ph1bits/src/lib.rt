// The host's reader: it borrows the stream and steps through it, thin over the core by value.
#![tactic(auto)]

ghost use Rattle.std.specs.Prelude.{not, ◌≡◌, eqb};
ghost use Rattle.rules.specs.Reader.{fresh, read};
ghost use Rattle.read_ph1bits.specs.Host.{stepped, moved};

use rules::Bits;

#[derive(Drop)]
pub struct Ph1Bits<'a> {
    pub data: &'a [u8],
    pub state: Bits,
}

impl<'a> Ph1Bits<'a> {
    // A reader of `data` at a byte position.
    pub fn new(data: &'a [u8], pos: u64) -> Ph1Bits<'a>
        ensures { (result.data ≡ «data».entry) × (result.state ≡ fresh pos) }
    {
        let state = Bits::new(pos);
        Ph1Bits { data, state }
    }

    // Reads n bits, at most 32.
    pub fn get(&mut self, n: u32) -> u32
        ensures { (result ≡ (read self.old.data.now self.old.state n).value) × (self.new ≡ stepped self.old n) }
    {
        let g = read_bits::get(self.data, self.state, n);
        self.state = g.bits;
        g.value
    }

    // The byte position of the next word.
    pub fn pos(&self) -> u64
        ensures { result ≡ self.now.state.pos }
    {
        self.state.pos
    }

    // Drops the buffered bits and goes to `pos`; the count of missing words stays.
    pub fn reset_at(&mut self, pos: u64)
        ensures { self.new ≡ moved self.old pos }
    {
        let s = read_bits::reset_at(self.state, pos);
        self.state = s;
    }

    // How many words were missing, at most 2^64 - 1.
    pub fn filler(&self) -> u64
        ensures { result ≡ self.now.state.filler }
    {
        self.state.filler
    }

    // Whether a word was missing.
    pub fn overrun(&self) -> bool
        ensures { result ≡ not (eqb self.now.state.filler 0) }
    {
        self.state.filler != 0
    }
}
