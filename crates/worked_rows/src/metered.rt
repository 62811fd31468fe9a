//! A source, a sink or a shelf that is watched, and slowed.

use sp_outside::{Failed, MemoryShelf, MemorySink, MemorySource, Shelf, Sink, Source};

/// One in memory that moves at most so many bytes a call.
#[derive(Drop)]
pub struct Metered<T> {
    pub inner: T,
    pub most: usize,
    pub seen: Seen,
}

/// What was seen of it.
#[derive(Drop)]
pub struct Seen {
    /// How many bytes were moved.
    pub moved: usize,
    /// Whether a call failed.
    pub failed: bool,
}

impl<T> Metered<T> {
    pub fn new(inner: T, most: usize) -> Metered<T> {
        Metered {
            inner,
            most,
            seen: Seen {
                moved: 0,
                failed: false,
            },
        }
    }
}

impl Seen {
    fn note(&mut self, moved: Result<usize, Failed>) {
        match moved {
            Ok(count) => self.moved = self.moved.saturating_add(count),
            Err(_) => self.failed = true,
        }
    }
}

impl Source for Metered<MemorySource> {
    ghost use Rattle.std.specs.Prelude.{None};
    ghost use Rattle.sp_outside.specs.Memory.{source_plan};

    ghost left = { λ _. None };

    ghost faults = { λ s. (source_plan s.inner).faults };

    ghost reads = { λ s. (source_plan s.inner).calls };

    fn read(&mut self, buf: &mut [u8]) -> Result<usize, Failed> {
        let room = buf.len().min(self.most);
        let moved = self.inner.read(&mut buf[..room]);
        self.seen.note(moved);
        moved
    }
}

impl Sink for Metered<MemorySink> {
    ghost use Rattle.std.specs.Prelude.{None};
    ghost use Rattle.sp_outside.specs.Memory.{sink_plan};

    ghost written = { λ _. None };

    ghost faults = { λ s. (sink_plan s.inner).faults };

    fn write(&mut self, piece: &[u8]) -> Result<usize, Failed> {
        let length = piece.len().min(self.most.max(1));
        let moved = self.inner.write(&piece[..length]);
        self.seen.note(moved);
        moved
    }
}

impl Shelf for Metered<MemoryShelf> {
    ghost use Rattle.std.specs.Prelude.{None};
    ghost use Rattle.sp_outside.specs.Memory.{shelf_plan};

    ghost holds = { λ _. None };

    ghost faults = { λ s. (shelf_plan s.inner).faults };

    fn read_part(
        &mut self,
        name: &str,
        from: u64,
        buf: &mut [u8],
    ) -> Result<Option<usize>, Failed> {
        let part = self.inner.read_part(name, from, buf);
        self.seen.failed = self.seen.failed || part.is_err();
        part
    }
}
