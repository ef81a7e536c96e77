// A lent buffer that is filled from its start: the events of a script, the lines of a listing.

ghost use Rattle.std.specs.Prelude.{◌≡◌, ◌≤◌, [], ◌∷◌, length};

// A lent buffer, and how many of its bytes are written.
#[derive(Drop)]
pub struct Output<'a> {
    bytes: &'a mut [u8],
    written: usize,
    ghost within: { written ≤ length bytes.now },
}

impl<'a> Output<'a> {
    ghost use Rattle.cells.specs.Output.{Puts, so_far, rest, room};

    // A buffer with nothing written.
    pub fn new(bytes: &'a mut [u8]) -> Output<'a>
        ensures same { result.bytes.ghost_name ≡ bytes.entry.ghost_name }
        ensures written { so_far result ≡ [] }
        ensures behind { rest result ≡ bytes.old }
    {
        Output { bytes, written: 0 }
    }

    // How many bytes are written.
    pub fn len(&self) -> usize
        ensures { result ≡ length (so_far self.now) }
    {
        self.written
    }

    // Puts a byte behind those that are written.
    pub fn push(&mut self, byte: u8)
        requires { 1 ≤ room self.old }
        ensures { Puts self.old (byte ∷ []) self.new }
    {
        self.bytes[self.written] = byte;
        self.written += 1;
    }

    // Puts bytes behind those that are written.
    #[tactic(auto, using(std::proofs::lemmas::Slice::overwrites))]
    pub fn put(&mut self, bytes: &[u8])
        requires { length bytes.now ≤ room self.old }
        ensures { Puts self.old bytes.now self.new }
    {
        let end = self.written + bytes.len();
        self.bytes[self.written..end].copy_from_slice(bytes);
        self.written = end;
    }
}
