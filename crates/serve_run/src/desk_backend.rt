//! A desk beside whose workers a server answers, and the writer that it shares with the thread that
//! tells of pictures.

ghost use Rattle.std.specs.Prelude.{◌≤◌, false, length};
ghost use Rattle.serve_calls.specs.Offering.{offering};

use crate::line_writer::LineWriter;
use decode_pool::{Desk, Seat, TooManyWanted, drop_picture};
use h264_types::pictures::AuId;
use picture_keys::HashedUnit;
use serve_answers::Answer;
use serve_calls::{Backend, EditFault, GroupFault, LendsSession};
use serve_requests::Failure;
use session_journal::Unkept;
use stand_in_session::{Config, Dropping, GroupReceipt, ReadEdit, ReadGroup, Receipt, Session};
use std::alloc::{AllocError, Global};
use std::io::Write;
use std::sync::{Mutex, Wait};
use stream_edits::snapshots::{ReadSnapshot, Snapshot};

/// What the threads of a server share.
#[derive(Drop)]
pub(crate) struct SharedDesk<W> {
    pub(crate) desk: Desk,
    /// By it units are wanted. Its book stays empty.
    pub(crate) seat: Seat,
    /// The writer of lines, which one thread has at a time.
    pub(crate) writer: Mutex<LineWriter<W>>,
}

impl<W: Write + Drop> SharedDesk<W> {
    /// A desk with an empty stream for so many workers, and a writer.
    pub(crate) fn open(
        alloc: Global,
        cache: u16,
        workers: usize,
        output: W,
    ) -> Result<SharedDesk<W>, AllocError>
        requires cache { (1 ≤ cache) × (cache ≤ 4096) }
        requires workers { (1 ≤ workers) × (workers ≤ 64) }
    {
        let (desk, mut seats) = Desk::open(alloc, Config { cache }, workers, 1)?;
        match seats.pop() {
            Some(seat) => Ok(SharedDesk {
                desk,
                seat,
                writer: Mutex::new(LineWriter::new(alloc, output)),
            }),
            None => Err(AllocError),
        }
    }
}

/// The session of a desk.
#[derive(Drop)]
pub(crate) struct DeskBackend<'a, R: Wait> {
    pub(crate) rt: &'a R,
    pub(crate) desk: &'a Desk,
    pub(crate) seat: &'a Seat,
}

impl<'a, R: Wait> LendsSession for DeskBackend<'a, R> {
    // It lies under the desk's lock, so that no clause knows which one it is.
    ghost is_session = { λ _ _. Unit {0} };

    fn look<T, F: FnOnce(&Session) -> T>(&self, ask: F) -> T {
        self.desk.look(self.rt, ask)
    }
}

impl<'a, R: Wait> Backend for DeskBackend<'a, R> {
    // The workers have the jobs.
    ghost offers = { λ _. offering false false };

    fn edit(&mut self, read: ReadEdit) -> Result<Receipt, EditFault> {
        match self.desk.edit_read(self.rt, read) {
            Ok(receipt) => Ok(receipt),
            Err(refused) => Err(EditFault::Refused(refused)),
        }
    }

    fn edit_group(&mut self, group: ReadGroup) -> Result<GroupReceipt, GroupFault> {
        match self.desk.edit_group_read(self.rt, group) {
            Ok(receipt) => Ok(receipt),
            Err(refused) => Err(GroupFault::Refused(refused)),
        }
    }

    // Nothing is recorded.
    fn begin_load(&mut self, _alloc: Global, _units: &[HashedUnit]) -> Result<(), Unkept> {
        Ok(())
    }

    fn end_load(&mut self) {}

    fn drop_picture(&mut self, id: AuId) -> Dropping {
        drop_picture(self.rt, self.desk, id)
    }

    fn clear_cache(&mut self) {
        self.desk.clear_cache(self.rt);
    }

    fn mark(&mut self) -> Result<(), AllocError> {
        self.desk.mark(self.rt)
    }

    fn fresh(&self, alloc: Global) -> Result<Session, AllocError> {
        self.desk.fresh(alloc)
    }

    fn clear_records(&mut self) -> Result<(), Unkept> {
        Ok(())
    }

    fn begun(&self, alloc: Global, snapshot: ReadSnapshot) -> Result<Session, AllocError> {
        self.desk.begun(alloc, snapshot)
    }

    fn compact(&mut self, _snapshot: &Snapshot) -> Result<(), Unkept> {
        Ok(())
    }

    fn begin_anew(&mut self, session: Session) {
        self.desk.begin_anew(self.rt, session);
        self.want(&[], true);
    }

    fn want(&mut self, ids: &[AuId], rest: bool) {
        match self.seat.want(self.rt, self.desk, ids) {
            Ok(()) => self.seat.rest(self.rt, self.desk, rest),
            Err(TooManyWanted) => unreachable!(),
        }
    }

    fn has_jobs(&self) -> bool {
        false
    }

    fn has_journal(&self) -> bool {
        false
    }

    fn take(&mut self, _alloc: Global, _id: Option<AuId>) -> Result<Answer, Failure> {
        Err(Failure::NoMethod)
    }

    fn land(&mut self, _number: u64) -> Result<Answer, Failure> {
        Err(Failure::NoMethod)
    }

    fn give_back(&mut self, _number: u64) -> Result<Answer, Failure> {
        Err(Failure::NoMethod)
    }
}
