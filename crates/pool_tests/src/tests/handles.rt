//! A session over the handles of a host, which workers and an editor share: each handle that a
//! worker's decoder made comes back to the host once.

ghost use Rattle.std.specs.Prelude.{◌≡◌, ◌≤◌, IfErr, IfOk};

use super::{A, I1, P1, P1X, P2};
use bytes::Bytes;
use decode_jobs::{Decoded, Job, Undone};
use decode_pool::{Decoder, DeskOf, Made, Settled, Worked, work_with};
use h264_types::pictures::AuId;
use stand_in_session::{Config, Edit, InsertionPoint};
use std::alloc::{AllocError, Global};
use std::process::Abort;
use std::sync::Wait;
use std::sync::atomic::{AtomicU64, Ordering};
use std::test::Fail;
use std::thread;
use std::thread::Threads;
use std::time::{Clock, Duration};
use stream_session::{Dropped, Session};
use test_builders::Draws;

/// A surface of a decoder of which nothing is known, by its number: it may make any of any input.
#[derive(Clone, Copy, Debug, PartialEq, Eq, Drop)]
struct Handle {
    number: u64,
}

impl Decoded for Handle {
    ghost use Rattle.std.specs.Prelude.{true};
    ghost use Rattle.decode_jobs.specs.Made.{IsPictureOf, IsPictureOf-closed};

    ghost IsDecoded = { λ input handle. Unit {0} };

    ghost IsOf = { IsPictureOf (λ input handle. Unit {0}) };

    ghost closed = { IsPictureOf-closed (λ input handle. Unit {0}) };

    ghost GoesBack = { true };

    fn goes_back() -> bool {
        true
    }

    fn is_same(&self, other: &Handle) -> bool {
        self.number == other.number
    }
}

/// How many handles there are at most.
const MOST: usize = 20_000;

/// The handles that were made, from 0 on, and how often each came back.
#[derive(Drop)]
struct Handles {
    made: AtomicU64,
    back: Vec<AtomicU64>,
}

impl Handles {
    /// None was made.
    fn new(alloc: Global) -> Result<Handles, AllocError> {
        let mut back = Vec::with_capacity(alloc, MOST)?;
        for _ in 0..MOST {
            back.push(AtomicU64::new(0))?;
        }
        Ok(Handles {
            made: AtomicU64::new(0),
            back,
        })
    }

    /// One that wasn't made before.
    fn make(&self) -> Handle {
        Handle {
            number: self.made.fetch_add(1, Ordering::SeqCst),
        }
    }

    /// One comes back.
    fn come_back(&self, handle: Handle) {
        if let Some(times) = self.back.get(handle.number as usize) {
            times.fetch_add(1, Ordering::SeqCst);
        }
    }

    /// How many were made, where each of them came back once, and no other did.
    fn are_back_once(&self) -> Option<u64> {
        let made = self.made.load(Ordering::SeqCst);
        for (number, times) in self.back.iter().enumerate() {
            let wanted = if (number as u64) < made { 1 } else { 0 };
            if times.load(Ordering::SeqCst) != wanted {
                return None;
            }
        }
        (made <= MOST as u64).then_some(made)
    }
}

/// Makes a handle of each job, in the time that is given.
#[derive(Drop)]
struct Slow<'a, R> {
    rt: &'a R,
    handles: &'a Handles,
}

impl<'a, R: Clock> Decoder<Handle> for Slow<'a, R> {
    ghost Makes = { λ input handle. Unit {0} };

    fn decode(&mut self, _alloc: Global, job: Job<Handle>) -> Result<Made<Handle>, Undone<Handle>>
        ensures made { IfOk result (λ made. (made.job ≡ job) × Unit {0}) }
        ensures undone { IfErr result (λ undone. undone.job ≡ job) }
    {
        thread::sleep(self.rt, Duration::from_micros(50));
        Ok(Made {
            job,
            picture: self.handles.make(),
        })
    }

    fn take_back(&mut self, picture: Handle) {
        self.handles.come_back(picture);
    }
}

/// Deletes the unit of id 1 and closes the session before it makes a handle, so that this comes too
/// late.
#[derive(Drop)]
struct TooLate<'a, R> {
    rt: &'a R,
    desk: &'a DeskOf<Handle>,
    handles: &'a Handles,
}

impl<'a, R: Wait> Decoder<Handle> for TooLate<'a, R> {
    ghost Makes = { λ input handle. Unit {0} };

    fn decode(&mut self, alloc: Global, job: Job<Handle>) -> Result<Made<Handle>, Undone<Handle>>
        ensures made { IfOk result (λ made. (made.job ≡ job) × Unit {0}) }
        ensures undone { IfErr result (λ undone. undone.job ≡ job) }
    {
        if let Ok(read) = Edit::Delete(AuId::new(1)).read(alloc) {
            let _ = self.desk.edit_read(self.rt, read);
        }
        self.desk.close(self.rt);
        Ok(Made {
            job,
            picture: self.handles.make(),
        })
    }

    fn take_back(&mut self, picture: Handle) {
        self.handles.come_back(picture);
    }
}

/// One who edits a desk as it is drawn, and has handles back.
#[derive(Drop)]
struct Editor<'a> {
    alloc: Global,
    desk: &'a DeskOf<Handle>,
    handles: &'a Handles,
    draws: Draws,
    /// The last id that was given.
    last: u32,
}

impl<'a> Editor<'a> {
    /// Does so many drawn commands, and waits for the last picture.
    fn run(&mut self, rt: &impl Wait, commands: u32) -> bool {
        for _ in 0..commands {
            self.act(rt);
        }
        self.desk.settle(rt) == Settled::Done
    }

    /// Does one command: most edit, some have a handle back, and one waits for all pictures.
    fn act(&mut self, rt: &impl Wait) {
        let id = self.id();
        let Ok(text) = self.text() else {
            return;
        };
        match self.draws.below(16) {
            0 => self.edit(rt, Edit::Insert(InsertionPoint::First, text)),
            1 | 2 | 3 | 4 => self.edit(rt, Edit::Insert(InsertionPoint::After(id), text)),
            5 | 6 => self.edit(rt, Edit::Replace(id, text)),
            7 | 8 | 9 => self.edit(rt, Edit::Delete(id)),
            10 | 11 => self.drop_picture(rt, id),
            12 => self.have_back(self.desk.uncache(rt)),
            13 | 14 => self.have_back(self.desk.take_released(rt)),
            _ => {
                let _ = self.desk.settle(rt);
            }
        }
    }

    /// Makes an edit, which may be refused.
    fn edit(&mut self, rt: &impl Wait, edit: Edit) {
        let Ok(read) = edit.read(self.alloc) else {
            return;
        };
        if let Ok(receipt) = self.desk.edit_read(rt, read) {
            self.last = self.last.max(receipt.id.number());
        }
    }

    /// Has the picture of a unit back, if one is held.
    fn drop_picture(&mut self, rt: &impl Wait, id: AuId) {
        if let Dropped::Picture(handle) = self.desk.drop_picture(rt, id) {
            self.handles.come_back(handle);
        }
    }

    /// Has a handle back, if there is one.
    fn have_back(&mut self, handle: Option<Handle>) {
        if let Some(handle) = handle {
            self.handles.come_back(handle);
        }
    }

    /// An id that was given not long ago.
    fn id(&mut self) -> AuId {
        let back = self.draws.below(12) as u32;
        AuId::new(self.last.saturating_sub(back))
    }

    /// The text of a unit: one of five, with a drawn byte more of slice data.
    fn text(&mut self) -> Result<Bytes, AllocError> {
        let text = match self.draws.below(8) {
            0 | 1 | 2 => A,
            3 => I1,
            4 | 5 => P1,
            6 => P1X,
            _ => P2,
        };
        let mut bytes: Vec<u8> = text.to_vec(self.alloc)?;
        bytes.push(128 + self.draws.below(128) as u8)?;
        Bytes::copy_from_slice(self.alloc, &bytes)
    }
}

/// All handles that a session still has come back.
fn have_all_back(
    alloc: Global,
    session: &mut Session<Handle>,
    handles: &Handles,
) -> Result<(), AllocError> {
    let ids: Vec<AuId> = session.ids().iter().copied().collect(alloc)?;
    for id in &ids {
        if let Dropped::Picture(handle) = session.drop_picture(*id) {
            handles.come_back(handle);
        }
    }
    for _ in 0..session.cached_keys() {
        if let Some(handle) = session.uncache() {
            handles.come_back(handle);
        }
    }
    for _ in 0..MOST {
        let Some(handle) = session.take_released() else {
            break;
        };
        handles.come_back(handle);
    }
    Ok(())
}

/// A desk over handles, for so many workers, whose cache has room for four.
fn opened(rt: &(impl Abort + AllocGlobal), workers: usize) -> DeskOf<Handle>
    requires { (1 ≤ workers) × (workers ≤ 64) }
{
    match DeskOf::new(rt.alloc(), Config { cache: 4 }, workers) {
        Ok(desk) => desk,
        Err(_) => panic!(rt; "no session is opened"),
    }
}

/// Two workers decode while an editor does so many drawn commands; what they did.
fn work_beside<R: AllocGlobal + Threads + Wait + Clock + Sync>(
    rt: &R,
    desk: &DeskOf<Handle>,
    handles: &Handles,
    commands: u32,
) -> Option<(Worked, Worked)> {
    let alloc = rt.alloc();
    let mut editor = Editor {
        alloc,
        desk,
        handles,
        draws: Draws::new(7),
        last: 0,
    };
    thread::scope(thread::scope_env(), rt, |scope| {
        let one = scope.spawn(|| work_with(rt, alloc, desk, Slow { rt, handles }));
        let two = scope.spawn(|| work_with(rt, alloc, desk, Slow { rt, handles }));
        let is_done = editor.run(rt, commands);
        desk.close(rt);
        match (one, two) {
            (Ok(one), Ok(two)) => {
                let worked = (one.join(rt), two.join(rt));
                is_done.then_some(worked)
            }
            _ => None,
        }
    })
}

#[test]
fn each_handle_comes_back_once_from_two_workers_and_an_editor(rt: HostRuntime) -> Result<(), Fail> {
    let desk = opened(&rt, 2);
    let handles = Handles::new(rt.alloc())?;
    let worked = work_beside(&rt, &desk, &handles, 2_000);
    let mut session = desk.into_session();
    have_all_back(rt.alloc(), &mut session, &handles)?;
    let Some((one, two)) = worked else {
        panic!(rt; "a thread didn't start");
    };
    assert!(rt; one.foreign == 0 && two.foreign == 0);
    assert!(rt; one.returned == 0 && two.returned == 0);
    let made = one.jobs().wrapping_add(two.jobs());
    assert!(rt; made > 100);
    assert!(rt; handles.are_back_once() == Some(made));
    Ok(())
}

#[test]
fn a_handle_that_comes_too_late_goes_back_to_its_decoder(rt: HostRuntime) -> Result<(), Fail> {
    let desk = opened(&rt, 1);
    let handles = Handles::new(rt.alloc())?;
    let insertion = Edit::Insert(InsertionPoint::First, Bytes::from_static(A));
    let Ok(read) = insertion.read(rt.alloc()) else {
        panic!(rt; "the edit isn't read");
    };
    assert!(rt; desk.edit_read(&rt, read).is_ok());
    let decoder = TooLate {
        rt: &rt,
        desk: &desk,
        handles: &handles,
    };
    let worked = work_with(&rt, rt.alloc(), &desk, decoder);
    assert!(rt; worked.jobs() == 1 && worked.stale == 1);
    assert!(rt; handles.are_back_once() == Some(1));
    let mut session = desk.into_session();
    assert!(rt; session.take_released() == None);
    Ok(())
}
