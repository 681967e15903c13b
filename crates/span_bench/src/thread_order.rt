//! What a line of three words asks for: rounds in threads that share a receiver.
ghost use Rattle.std.specs.Io.{StartsWith};
ghost use Rattle.std.specs.Prelude.{◌≡◌, IfSome};
ghost use Rattle.span_bench.specs.ThreadOrder.{all_requests};
ghost use Rattle.span_bench.specs.ThreadWorkload.{name_of};

use crate::thread_workload::ThreadWorkload;

/// Some rounds of a workload, in each of so many threads.
#[derive(Clone, Copy, Debug, PartialEq, Eq)]
pub struct ThreadOrder {
    /// The workload.
    pub workload: ThreadWorkload,
    /// How many threads.
    pub threads: u32,
    /// How many rounds each thread does.
    pub rounds: u32,
}

impl ThreadOrder {
    /// What a line asks for, if it is a workload's name, 1, 2 or 4 threads and a number of rounds,
    /// with one space between.
    pub fn of(line: &str) -> Option<ThreadOrder>
        ensures { IfSome result (λ order. StartsWith line.now (name_of order.workload)) }
    {
        let (name, numbers) = line.split_once(' ')?;
        let (threads, rounds) = numbers.split_once(' ')?;
        let order = ThreadOrder {
            workload: ThreadWorkload::of(name)?,
            threads: threads.parse::<u32>().ok()?,
            rounds: rounds.parse::<u32>().ok()?,
        };
        match order.threads {
            1 | 2 | 4 => Some(order),
            _ => None,
        }
    }

    /// How many requests all threads make, if a journal has room for as many.
    pub fn requests(self) -> Option<u64>
        ensures { IfSome result (λ n. n ≡ all_requests self) }
    {
        u64::from(self.threads)
            .checked_mul(u64::from(self.rounds))?
            .checked_mul(self.workload.requests())
    }
}
