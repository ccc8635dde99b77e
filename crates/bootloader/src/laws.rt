// The laws of boards, for whoever builds on them.
ghost use Rattle.bootloader.specs.BoardLaws.{BoardLaws};

// A law, for the proofs of those who build on boards: it does nothing when called.
pub fn board_laws()
    ensures law { BoardLaws }
{}
