// Memory parts: what can be read, and above it what can be written. The ghost members say what a part
// means; the laws are owed by each implementation, and code above a part knows nothing more of it.
ghost use Rattle.std.specs.Prelude.{◌≡◌, ℕ, ◌≤◌, List, length};
ghost use Rattle.memory.specs.Part.{Shape, IsShape, IsWidth};
ghost use Rattle.memory.specs.Calls.{read_answer, question_answer, put_answer, clear_answer, after_put, after_clear};

use crate::refusal::PartRefusal;

// The most bytes that a part can have.
pub const MAX_LENGTH: usize = 1_048_576;

// The most units that a part can have.
pub const MAX_UNITS: usize = 32;

pub trait ReadablePart {
    // how many bytes one address stands for: 1 or 2
    const BYTES_PER_ADDRESS: usize;

    // the same, for clauses
    ghost BYTES_PER_ADDRESS: { ℕ };

    // the bytes, from offset 0 on
    ghost contents: { Self → List ℕ };

    // BYTES_PER_ADDRESS, for callers who want a function
    fn address_width() -> usize
        ensures { result ≡ BYTES_PER_ADDRESS }
    {
        Self::BYTES_PER_ADDRESS
    }

    fn len(&self) -> usize
        ensures { result ≡ length (contents self.now) };

    fn read(&self, offset: usize) -> Result<u8, PartRefusal>
        ensures { result ≡ read_answer (contents self.now) offset };

    ghost widths: { IsWidth BYTES_PER_ADDRESS };

    ghost limited: { (x : Self) → length (contents x) ≤ 1048576 };
}

pub trait WritablePart: ReadablePart {
    // How the part takes changes. One record of it and `contents` would need a law more, to tie the two.
    ghost shape: { Self → Shape };

    fn units(&self) -> usize
        ensures { result ≡ (shape self.now).units };

    // Whether the part takes a value at an offset over the byte that is there.
    fn question(&self, offset: usize, value: u8) -> Result<bool, PartRefusal>
        ensures { result ≡ question_answer (shape self.now) (Self.contents self.now) offset value };

    fn put(&mut self, offset: usize, value: u8) -> Result<(), PartRefusal>
        ensures answer { result ≡ put_answer (shape self.old) (Self.contents self.old) offset value }
        ensures after { Self.contents self.new ≡ after_put (shape self.old) (Self.contents self.old) offset value }
        ensures same { shape self.new ≡ shape self.old };

    fn clear(&mut self, unit: usize) -> Result<(), PartRefusal>
        ensures answer { result ≡ clear_answer (shape self.old) unit }
        ensures after { Self.contents self.new ≡ after_clear (shape self.old) (Self.contents self.old) unit }
        ensures same { shape self.new ≡ shape self.old };

    ghost shaped: { (x : Self) → IsShape (length (Self.contents x)) (shape x) };
}
