//! What the threads of a desk do.

ghost use Rattle.std.specs.Prelude.{◌≡◌, ◌+◌, ◌<◌, ◌≤◌, false, length};
ghost use Rattle.std.specs.Bool.{Decides};
ghost use Rattle.worker_jobs.specs.Wanted.{all_units};

use h264_types::pictures::AuId;
use worker_jobs::Wanted;

/// Threads that sleep, and how many of them were told to wake up and haven't yet. One that awakes
/// without that counts as told, so that nobody who was told is counted when all are awake.
#[derive(Clone, Copy, Debug, Drop)]
pub(crate) struct Sleepers {
    asleep: usize,
    woken: usize,
    ghost woken_ones: { woken ≤ asleep },
}

impl Sleepers {
    ghost use Rattle.decode_pool.specs.Threads.{WakesAll, WakesOne};

    /// None sleeps.
    pub(crate) fn none() -> Sleepers
        ensures asleep { result.asleep ≡ 0 }
        ensures woken { result.woken ≡ 0 }
    {
        Sleepers {
            asleep: 0,
            woken: 0,
        }
    }

    /// One falls asleep.
    pub(crate) fn fall_asleep(&mut self)
        ensures asleep { self.old.asleep < 18446744073709551615
            → self.new.asleep ≡ self.old.asleep + 1 }
        ensures woken { self.new.woken ≡ self.old.woken }
    {
        self.asleep = self.asleep.saturating_add(1);
    }

    /// One is awake.
    pub(crate) fn awake(&mut self)
        ensures asleep { 0 < self.old.asleep → self.new.asleep + 1 ≡ self.old.asleep }
        ensures woken { 0 < self.old.woken → self.new.woken + 1 ≡ self.old.woken }
        ensures none { self.old.woken ≡ 0 → self.new.woken ≡ 0 }
    {
        self.asleep = self.asleep.saturating_sub(1);
        self.woken = self.woken.saturating_sub(1);
    }

    /// Whether one sleeps whom nobody told to wake up. It counts as told then.
    pub(crate) fn wake_one(&mut self) -> bool
        ensures { WakesOne self.old result self.new }
    {
        let sleeps = self.woken < self.asleep;
        if sleeps {
            self.woken += 1;
        }
        sleeps
    }

    /// Whether some sleep whom nobody told to wake up. All count as told then.
    pub(crate) fn wake_all(&mut self) -> bool
        ensures { WakesAll self.old result self.new }
    {
        let sleep = self.woken < self.asleep;
        self.woken = self.asleep;
        sleep
    }
}

/// Whom a change of a desk wakes, once its lock is let go.
#[derive(Clone, Copy, Debug, PartialEq, Eq)]
pub(crate) struct Wakes {
    /// Workers that sleep: one where a job may be due, all where the desk is closed.
    pub(crate) workers: bool,
    /// All seats that wait.
    pub(crate) seats: bool,
    /// All who wait for news.
    pub(crate) watchers: bool,
}

/// What the threads of a desk do: whether the desk is closed, how many workers have ended, how many
/// have jobs or results in hand, who sleeps, and what seats want first.
#[derive(Debug, Drop)]
pub(crate) struct DeskStatus {
    pub(crate) closed: bool,
    pub(crate) ended: usize,
    pub(crate) at_work: usize,
    /// The workers that sleep until a job is due.
    pub(crate) workers: Sleepers,
    /// The seats that sleep until units aren't pending any more.
    pub(crate) seats: Sleepers,
    pub(crate) wanted: Wanted,
    /// How often the session may have got another picture to show, by an edit or a result.
    pub(crate) news: u64,
    /// Those who sleep until that happens.
    pub(crate) watchers: Sleepers,
}

impl DeskStatus {
    ghost use Rattle.worker_jobs.specs.Wanted.{IsOneLess};
    ghost use Rattle.decode_pool.specs.Threads.{Closes, Tells, WakesAll, WakesForNews};

    /// The desk is open, no worker has come yet, and the whole stream is wanted.
    pub(crate) fn new() -> DeskStatus
        ensures open { result.closed ≡ false }
        ensures ended { result.ended ≡ 0 }
        ensures at_work { result.at_work ≡ 0 }
        ensures wanted { result.wanted ≡ all_units }
    {
        DeskStatus {
            closed: false,
            ended: 0,
            at_work: 0,
            workers: Sleepers::none(),
            seats: Sleepers::none(),
            wanted: Wanted::new(),
            news: 0,
            watchers: Sleepers::none(),
        }
    }

    /// The session may have another picture to show. Whether some sleep whom that is to wake.
    pub(crate) fn wake_for_news(&mut self) -> bool
        ensures { WakesForNews self.old result self.new }
    {
        self.news = self.news.wrapping_add(1);
        self.watchers.wake_all()
    }

    /// The stream, what is wanted or the number of the workers that have ended may have changed:
    /// whom that is to wake.
    pub(crate) fn wake(&mut self) -> Wakes
        ensures { Tells self.old result self.new }
    {
        Wakes {
            workers: self.workers.wake_one(),
            seats: self.seats.wake_all(),
            watchers: self.wake_for_news(),
        }
    }

    /// The desk is closed: whom that is to wake.
    pub(crate) fn close(&mut self) -> Wakes
        ensures { Closes self.old result self.new }
    {
        self.closed = true;
        Wakes {
            workers: self.workers.wake_all(),
            seats: false,
            watchers: self.watchers.wake_all(),
        }
    }

    /// A thread waits no more for the unit of the id. Whether seats sleep which that is to wake, as
    /// there was no room for one of them.
    pub(crate) fn wait_no_more(&mut self, id: AuId) -> bool
        ensures wanted { IsOneLess self.old.wanted id self.new.wanted }
        ensures full { length self.old.wanted.waited ≡ 64
            → WakesAll self.old.seats result self.new.seats }
        ensures space { (length self.old.wanted.waited ≡ 64 → ⊥)
            → (result ≡ false) × (self.new.seats ≡ self.old.seats) }
        ensures rest { self.new ≡ record self.old {
          seats = self.new.seats;
          wanted = self.new.wanted;
        } }
    {
        let wakes = self.wanted.is_full() && self.seats.wake_all();
        self.wanted.wait_no_more(id);
        wakes
    }

    /// Whether all others of so many workers have something in hand or have ended.
    pub(crate) fn are_others_at_work(&self, workers: usize) -> bool
        ensures { workers < 18446744073709551615
            → Decides result (workers ≤ self.now.ended + self.now.at_work + 1) }
    {
        workers <= self.ended.saturating_add(self.at_work).saturating_add(1)
    }
}
