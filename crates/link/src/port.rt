// Anything through which a frame is sent and may be answered: a wire to a board, or an adapter of which nothing is known.
ghost use Rattle.std.specs.Prelude.{◌≡◌, ◌+◌, ◌%◌, ◌^◌, ℕ, List, Option};

pub trait Port {
    // what one exchange may make of the port: with this frame, and this reply or none
    ghost exchanged: { Self → List ℕ → Option (List ℕ) → Self → Type 0 };

    // how many exchanges were made through it, modulo 2^64
    ghost exchanges: { Self → ℕ };

    // Sends a frame, and gives the reply if one comes.
    fn exchange(&mut self, frame: &[u8; 8]) -> Option<[u8; 8]>
        ensures { exchanged self.old frame.now result self.new };

    // How many exchanges were made, modulo 2^64.
    fn exchanges(&self) -> u64
        ensures { result ≡ exchanges self.now };

    // each exchange counts
    ghost counted: { (p q : Self) (f : List ℕ) (r : Option (List ℕ)) → exchanged p f r q → exchanges q ≡ (exchanges p + 1) % 2 ^ 64 };
}
