// A link that keeps what is exchanged over another link.
ghost use Rattle.std.specs.Prelude.{◌≡◌, [], false};
ghost use Rattle.link.specs.Trace.{Keeps};

use crate::link::Link;
use crate::port::Port;
use std::alloc::Global;

// A frame with its reply, if one came.
#[derive(Clone, Copy, PartialEq, Eq, Debug)]
pub struct TracedFrame {
    pub frame: [u8; 8],
    pub reply: Option<[u8; 8]>,
}

/// The exchanges in order, from the first one on.
#[derive(Drop)]
pub struct Trace {
    pub frames: Vec<TracedFrame>,
    /// whether memory ran out; the exchanges from then on are missing
    pub is_cut: bool,
}

/// Exchanges over it are those over the link below it. A trace for which there is no memory is cut; the exchanges go on.
#[derive(Drop)]
pub struct Traced<L> {
    link: L,
    trace: Trace,
}

impl Trace {
    fn new(alloc: Global) -> Self
        ensures frames { result.frames.items ≡ [] }
        ensures whole { result.is_cut ≡ false }
    {
        Trace {
            frames: Vec::new(alloc),
            is_cut: false,
        }
    }

    fn keep(&mut self, frame: &[u8; 8], reply: Option<[u8; 8]>)
        ensures { Keeps self.old frame.now reply self.new }
    {
        let traced = TracedFrame {
            frame: *frame,
            reply,
        };
        if self.is_cut || self.frames.push(traced).is_err() {
            self.is_cut = true;
        }
    }
}

impl<L: Link> Traced<L> {
    /// Nothing is kept yet of this link.
    pub fn new(alloc: Global, link: L) -> Self
        ensures link { result.link ≡ link }
        ensures frames { result.trace.frames.items ≡ [] }
        ensures whole { result.trace.is_cut ≡ false }
    {
        Traced {
            link,
            trace: Trace::new(alloc),
        }
    }

    /// The link is handed back, with what was kept.
    pub fn into_parts(self) -> (L, Trace)
        ensures link { result.0 ≡ self.link }
        ensures trace { result.1 ≡ self.trace }
    {
        let Traced { link, trace } = self;
        (link, trace)
    }
}

impl<L: Link> Port for Traced<L> {
    ghost exchanged = { λ p f r q. L.exchanged p.link f r q.link × Keeps p.trace f r q.trace };

    ghost exchanges = { λ p. L.exchanges p.link };

    ghost counted = { λ p q f r h. L.counted p.link q.link f r h.0 };

    fn exchange(&mut self, frame: &[u8; 8]) -> Option<[u8; 8]> {
        let reply = self.link.exchange(frame);
        self.trace.keep(frame, reply);
        reply
    }

    fn exchanges(&self) -> u64 {
        self.link.exchanges()
    }
}

impl<L: Link> Link for Traced<L> {
    ghost board = { λ p. L.board p.link };

    ghost lossless = { λ p. L.lossless p.link };

    ghost linked = { λ p q f r h. L.linked p.link q.link f r h.0 };
}
