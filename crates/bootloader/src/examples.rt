// Frames written out, with what the definitions make of them.
ghost use Rattle.bootloader.specs.Examples.{SessionExamples, FrameExamples, MemoryExamples, CodeExamples};

// Does nothing: its contract is that the worked examples hold.
pub fn examples_hold()
    ensures session { SessionExamples }
    ensures frames { FrameExamples }
    ensures memories { MemoryExamples }
    ensures codes { CodeExamples }
{}
