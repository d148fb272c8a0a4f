// What follows from a plan's numbers: lengths and needs.
ghost use Rattle.std.specs.Prelude.{◌≡◌, ◌≤◌, length, sum_by};
ghost use Rattle.board.specs.Plans.{cycles, RoundsUp, exec_length, transfer_length, bytes_for, need, if_task, if_channel};
ghost use Rattle.board.specs.Ranges.{Throughout};
ghost use Rattle.plan.specs.Views.{view};

use crate::model::Plan;
use board::Channel;

impl Plan {
    // The cycles that these bytes take on the bus: divided by the slot load, rounded up, times the slot time.
    pub fn cycles(&self, bytes: u32) -> u64
        ensures value { result ≡ cycles (view self.now) bytes }
        ensures law { RoundsUp }
    {
        u64::from(bytes.div_ceil(self.slot_load)) * u64::from(self.slot_time)
    }

    // The length of a task's exec, or none where the plan lacks the task.
    pub fn exec_length(&self, task: usize) -> Option<u32>
        ensures { result ≡ if_task (view self.now) task (exec_length (view self.now) task) }
    {
        let found = self.tasks.get(task)?;
        Some(found.limit)
    }

    // The length of a channel's write and of its read, or none where the plan lacks the channel.
    pub fn transfer_length(&self, channel: usize) -> Option<u32>
        ensures { result ≡ if_channel (view self.now) channel (transfer_length (view self.now) channel) }
    {
        let found = self.channels.get(channel)?;
        Some(self.cycles(found.bytes) as u32)
    }

    // What a task needs of its region: its local bytes and those of all its channels, in and out.
    // None where the plan lacks the task.
    pub fn need(&self, task: usize) -> Option<u32>
        ensures { result ≡ if_task (view self.now) task (need (view self.now) task) }
    {
        let found = self.tasks.get(task)?;
        Some(found.local + bytes_for(task, self.channels.as_slice()))
    }
}

// The bytes of all channels of a task.
fn bytes_for(task: usize, channels: &[Channel]) -> u32
    requires few { length channels.now ≤ 256 }
    requires small { Throughout (λ c. c.bytes ≤ 4096) channels.now }
    ensures value { result ≡ sum_by (bytes_for task) channels.now }
    ensures bound { result ≤ 1048576 }
{
    let mut total = 0;
    for channel in channels {
        total += share(task, channel);
    }
    total
}

// What one channel puts into a task's region.
fn share(task: usize, channel: &Channel) -> u32
    ensures value { result ≡ bytes_for task channel.now }
    ensures bound { result ≤ channel.now.bytes }
{
    if channel.from == task || channel.to == task {
        channel.bytes
    } else {
        0
    }
}
