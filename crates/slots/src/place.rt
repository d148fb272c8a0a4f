// Where an entry is placed.
ghost use Rattle.std.specs.Prelude.{◌≡◌, ℕ};

use board::Seat;

// Where an entry is placed: on which resource of the lane, and from which cycle on.
pub trait Place: Copy {
    ghost on: { Self → ℕ };

    ghost from: { Self → ℕ };

    fn resource(self) -> u32
        ensures { result ≡ on self };

    fn start(self) -> u32
        ensures { result ≡ from self };
}

// A seat is on its core.
impl Place for Seat {
    ghost on = { λ x. x.core };

    ghost from = { λ x. x.start };

    fn resource(self) -> u32 {
        self.core
    }

    fn start(self) -> u32 {
        self.start
    }
}

// The bus, as a resource.
const BUS: u32 = 0;

// A transfer's place is its start, on the bus.
impl Place for u32 {
    ghost on = { λ a. 0 };

    ghost from = { λ a. a };

    fn resource(self) -> u32 {
        BUS
    }

    fn start(self) -> Self {
        self
    }
}
