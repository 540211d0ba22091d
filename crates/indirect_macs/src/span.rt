// Which nodes a run touches.
ghost use Rattle.std.specs.Prelude.{◌≡◌, ◌<◌, ◌≤◌, ◌^◌};
ghost use Rattle.indirect_macs.specs.Runs.{count_at, first_at, first_block, last_at, last_block, levels_for};
ghost use Rattle.indirect_macs.specs.RunFields.{run_of};

use crate::run::Run;
use crate::walk::place_of;

/// The least number of levels of at least 1 with room for so many blocks.
pub fn levels_for(blocks: u32) -> u8
    ensures value { result ≡ levels_for blocks }
    ensures above { 1 ≤ result }
    ensures bound { result ≤ 5 }
{
    if blocks <= 32 {
        1
    } else if blocks <= 1024 {
        2
    } else if blocks <= 32_768 {
        3
    } else if blocks <= 1_048_576 {
        4
    } else {
        5
    }
}

// The first and the last touched block: those of the run, and of an empty one the last block that
// stays.
fn first_block(run: &Run) -> u32
    ensures value { result ≡ first_block (run_of run.now) }
    ensures bound { result < 2 ^ 23 }
{
    if run.refs.is_empty() {
        run.blocks.saturating_sub(1)
    } else {
        run.from
    }
}

fn last_block(run: &Run) -> u32
    ensures value { result ≡ last_block (run_of run.now) }
    ensures bound { result < 2 ^ 23 }
{
    if run.refs.is_empty() {
        run.blocks.saturating_sub(1)
    } else {
        run.from + (run.refs.len() as u32 - 1)
    }
}

/// The first touched node of a level.
#[tactic(auto, unfolding(crate::specs::Runs::first_at))]
pub fn first_at(run: &Run, level: u8) -> u32
    requires { level ≤ 5 }
    ensures { result ≡ first_at (run_of run.now) level }
{
    place_of(level, first_block(run))
}

/// The last one.
#[tactic(auto, unfolding(crate::specs::Runs::last_at))]
pub fn last_at(run: &Run, level: u8) -> u32
    requires { level ≤ 5 }
    ensures { result ≡ last_at (run_of run.now) level }
{
    place_of(level, last_block(run))
}
