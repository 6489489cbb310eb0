//! How many values are tried at once.
ghost use Rattle.std.specs.Prelude.{◌≡◌, ◌/◌};

/// The most values that are tried at once.
pub const ROOM: usize = 65536;

// What the next number of values goes by.
#[derive(Clone, Copy)]
enum Phase {
    // As many as went since the last value that is needed.
    Expected,
    // Twice as many as went.
    Growing,
    // Half as many: a value that is needed is near.
    Narrowing,
}

/// How many values are tried at once. It grows while they can go, and shrinks near a value that is needed. The first
/// guess after such a value is the distance to the one before it.
#[derive(Clone, Copy)]
pub struct Pace {
    pub size: usize,
    gap: usize,
    phase: Phase,
}

impl Pace {
    /// One value at first.
    pub fn new() -> Pace {
        Pace {
            size: 1,
            gap: 0,
            phase: Phase::Growing,
        }
    }

    /// All values that were tried at once can go.
    pub fn pass(&mut self) {
        self.gap = self.gap.saturating_add(self.size);
        self.size = match self.phase {
            Phase::Expected => 1,
            Phase::Growing => self.size.saturating_mul(2).min(ROOM),
            Phase::Narrowing => (self.size / 2).max(1),
        };
        if let Phase::Expected = self.phase {
            self.phase = Phase::Growing;
        }
    }

    /// Not all values that were tried at once can go.
    pub fn fail(&mut self)
        ensures { self.new.size ≡ self.old.size / 2 }
    {
        self.size = self.size / 2;
        self.phase = Phase::Narrowing;
    }

    /// A value that was tried by itself is needed.
    pub fn meet_needed(&mut self) {
        self.size = self.gap.max(1).min(ROOM);
        self.gap = 0;
        self.phase = Phase::Expected;
    }
}
