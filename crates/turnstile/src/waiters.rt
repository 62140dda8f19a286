//! How the passes that wait for their turn spend the time, and how the next of them is woken.
ghost use Rattle.std.specs.Prelude.{◌≡◌, ◌≤◌, ◌<◌, vec_len};

use std::alloc::{AllocError, Global};
use std::sync::Wait;
use std::thread::Parker;
use std::{hint, thread};

/// A waiter with more turns than this before its own sleeps at once.
const NEAR: u64 = 8;

/// How often a nearer one looks again at once.
const QUICK_LOOKS: u32 = 64;

/// How often it looks, the later times with a yield, before it sleeps as well.
const LOOKS: u32 = 80;

/// The parkers on which waiters sleep. Each ticket has the one of its number, counted round. There are as many as passes,
/// rounded up to a power of two, so that counting round agrees with tickets that are counted modulo 2^64: no two tickets
/// that are out share a parker.
#[derive(Drop)]
pub(crate) struct Waiters {
    parkers: Vec<Parker>,
    ghost some: { 0 < vec_len parkers },
}

impl Waiters {
    /// A parker for each of so many passes, at least. The answer `Err` is for want of memory alone.
    pub(crate) fn for_passes(alloc: Global, passes: u32) -> Result<Waiters, AllocError>
        requires { (1 ≤ passes) × (passes ≤ 256) }
    {
        let count = u64::from(passes).next_power_of_two() as usize;
        let mut parkers = Vec::new(alloc);
        parkers.resize_with(count, Parker::new)?;
        Ok(Waiters { parkers })
    }

    /// Spends the time between two looks of a waiter with this ticket, which looked so often and last found `serving`.
    pub(crate) fn pause<R: Wait>(&self, rt: &R, looks: u32, ticket: u64, serving: u64) {
        if looks >= LOOKS || ticket.wrapping_sub(serving) > NEAR {
            self.parker(ticket).park(rt);
        } else if looks < QUICK_LOOKS {
            hint::spin_loop();
        } else {
            thread::yield_now();
        }
    }

    /// Wakes the waiter with this ticket, or spares it its next sleep.
    pub(crate) fn wake(&self, ticket: u64) {
        self.parker(ticket).unpark();
    }

    fn parker(&self, ticket: u64) -> &Parker {
        let parkers = self.parkers.as_slice();
        &parkers[(ticket % parkers.len() as u64) as usize]
    }
}
