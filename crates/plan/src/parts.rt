// What a plan says.
ghost use Rattle.std.specs.Prelude.{◌≡◌, ◌&&◌, length, nat_lt};
ghost use Rattle.plan.specs.Views.{view};

use crate::model::Plan;
use board::{Channel, Task};

impl Plan {
    pub fn cores(&self) -> u32
        ensures { result ≡ (view self.now).cores }
    {
        self.cores
    }

    pub fn slot_time(&self) -> u32
        ensures { result ≡ (view self.now).slot_time }
    {
        self.slot_time
    }

    pub fn slot_load(&self) -> u32
        ensures { result ≡ (view self.now).slot_load }
    {
        self.slot_load
    }

    pub fn scratchpad(&self) -> u32
        ensures { result ≡ (view self.now).scratchpad }
    {
        self.scratchpad
    }

    // Whether the board has this core and this region on it.
    pub fn has_region(&self, core: u32, region: u32) -> bool
        ensures { result ≡ (nat_lt core (view self.now).cores && nat_lt region (length (view self.now).regions)) }
    {
        core < self.cores && (region as usize) < self.regions.len()
    }

    // The sizes of the regions, alike on every core.
    pub fn regions(&self) -> &[u32]
        ensures { result.now ≡ (view self.now).regions }
    {
        self.regions.as_slice()
    }

    pub fn tasks(&self) -> &[Task]
        ensures { result.now ≡ (view self.now).tasks }
    {
        self.tasks.as_slice()
    }

    pub fn channels(&self) -> &[Channel]
        ensures { result.now ≡ (view self.now).channels }
    {
        self.channels.as_slice()
    }
}
