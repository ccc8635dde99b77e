// A board, as far as frames and ticks reach it.
ghost use Rattle.std.specs.Prelude.{◌≡◌, is_some, length, unwrap_or};
ghost use Rattle.bootloader.specs.Board.{Board, stepped, ticked};
ghost use Rattle.bootloader.specs.Laws.{FrameLaws, TickLaws};

pub trait Device {
    // the board as a value
    ghost board: { Self → Board };

    // Takes a frame with its identifier, and answers whether it left a reply in its place.
    fn frame(&mut self, id: u32, bytes: &[u8], reply: &mut [u8]) -> bool
        ensures answer { result ≡ is_some (stepped (board self.old) (length reply.old) id bytes.now).reply }
        ensures reply { reply.new ≡ unwrap_or (stepped (board self.old) (length reply.old) id bytes.now).reply reply.old }
        ensures after { board self.new ≡ (stepped (board self.old) (length reply.old) id bytes.now).board }
        ensures law { FrameLaws (board self.old) (length reply.old) id bytes.now };

    // Lets a millisecond pass.
    fn tick(&mut self)
        ensures after { board self.new ≡ ticked (board self.old) }
        ensures law { TickLaws (board self.old) };
}
