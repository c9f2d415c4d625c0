// An application: a state that orders change, and that a mark stands for.
ghost use Rattle.std.specs.Prelude.{◌≡◌, ℕ};

// Clients are numbered from 0 up to this.
pub const LAST_CLIENT: u8 = 31;

// A code is a byte: an enum here would ask more of whoever writes an application.
pub trait Application {
    // the state after an order of (client, timestamp, payload)
    ghost next: { Self → ℕ → ℕ → ℕ → Self };

    // the code that this order is answered with
    ghost code: { Self → ℕ → ℕ → ℕ → ℕ };

    // the number that stands for the state in a checkpoint
    ghost marked: { Self → ℕ };

    fn apply(&mut self, client: u8, timestamp: u32, payload: u64) -> u8
        ensures after { self.new ≡ next self.old client timestamp payload }
        ensures value { result ≡ code self.old client timestamp payload };

    fn mark(&self) -> u64
        ensures { result ≡ marked self.now };
}
