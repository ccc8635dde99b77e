// The states of a bootloader.
ghost use Rattle.std.specs.Prelude.{◌≡◌};
ghost use Rattle.bootloader.specs.Frames.{wait_ticks};

#[derive(Clone, Copy, PartialEq, Eq, Debug)]
pub enum State {
    // for a host; left counts the ticks until the wait ends
    Waiting { left: u16 },
    Connected,
    // no host is connected, and no application was started
    Idle,
    // the application runs, and the bootloader does nothing any more
    Running,
}

// How long a fresh bootloader waits for a host.
#[derive(Clone, Copy, PartialEq, Eq, Debug)]
pub enum Wait {
    TwoSeconds,
    SixteenSeconds,
}

impl Wait {
    // The same in ticks, of which one is a millisecond.
    pub fn ticks(self) -> u16
        ensures { result ≡ wait_ticks self }
    {
        match self {
            Wait::TwoSeconds => 2_000,
            Wait::SixteenSeconds => 16_000,
        }
    }
}
