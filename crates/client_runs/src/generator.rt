//! The generator of numbers that draws which call comes next.
ghost use Rattle.std.specs.Prelude.{◌≡◌, ◌<◌, ◌/◌, ◌%◌, ◌^◌};
ghost use Rattle.client_runs.specs.Choice.{turned};

/// A linear congruential generator modulo 2^64.
#[derive(Clone, Copy)]
pub struct Generator {
    pub x: u64,
}

impl Generator {
    /// Turns it once.
    pub fn turn(&mut self)
        ensures { self.new.x ≡ turned self.old.x }
    {
        self.x = self
            .x
            .wrapping_mul(6364136223846793005)
            .wrapping_add(1442695040888963407);
    }

    /// Which of so many items it draws where it stands now.
    pub fn item(self, count: usize) -> usize
        requires { 0 < count }
        ensures { result ≡ (self.x / 2 ^ 33) % count }
    {
        ((self.x >> 33) % count as u64) as usize
    }
}
