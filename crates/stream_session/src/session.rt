//! The session: a stream under edits, and the pictures of its units.

ghost use Rattle.std.specs.Prelude.{◌≡◌, ◌<◌, ◌≤◌, ◌↔◌, ℕ, length, None, Some, true, IfOk, IfSome, IsErrOf, OnErr};
ghost use Rattle.held_pictures.specs.Bounded.{most_capacity};
ghost use Rattle.stream_edits.specs.Changes.{IsInside};
ghost use Rattle.stream_edits.specs.Groups.{most_edits};
ghost use Rattle.stream_edits.specs.Streams.{place_of};
ghost use Rattle.stream_session.specs.Grouping.{AnswersGroup};
ghost use Rattle.stream_session.specs.Machines.{empty, AnswersEdit, IsBegun, KeepsPictures};
ghost use Rattle.stream_session.specs.Taken.{input_of};
ghost use Rattle.stream_session.specs.Moves.{ComeTo, Moves};
ghost use Rattle.stream_session.specs.Jobs.{AnswersGiveBack, AnswersGiveBackOf, AnswersLand, AnswersLandOf, AnswersTake, AnswersTakeWithUnit};
ghost use Rattle.stream_session.specs.Needing.{AnswersTakeFor, IsAnyOutFor, IsPendingIn, AnswersTakeWithUnitFor};

mod asking;
mod marking;
mod releasing;

use crate::changing::{ChangeCosts, change_stream};
use crate::config::{Config, ConfigFault};
use decode_jobs::{Decoded, Finished, Job};
use h264_types::pictures::AuId;
use picture_store::{JobAt, Landing, PictureStore, Returning, TakeRefused};
use std::alloc::{AllocError, Global};
use std::marker::Model;
use stream_edits::snapshots::ReadSnapshot;
use stream_edits::{
    AcceptedEdit, AcceptedGroup, Change, Edit, EditRefused, GroupReceipt, GroupRefused,
    JournalEntry, ReadEdit, ReadGroup, Receipt, change_of, change_of_group, place_of,
};
use stream_fold::OrderedFold;

/// A stream of access units under edits, with each unit's outcome, and with pictures, which jobs
/// bring. Clauses see the accepted edits and what they leave, the keys whose pictures are held or
/// cached, the jobs that are out, and the keys that the last mark remembers.
#[derive(Debug)]
pub struct Session<P: Decoded> {
    alloc: Global,
    origin: ReadSnapshot,
    journal: Vec<JournalEntry>,
    ids_given: u32,
    ordered: OrderedFold,
    store: PictureStore<P>,
}

// By hand, so that whoever drops a session isn't proved over all that it holds.
impl<P: Decoded> Drop for Session<P> {
    fn drop(self) {
        let Session {
            alloc: _,
            origin: _,
            journal: _,
            ids_given: _,
            ordered: _,
            store: _,
        } = self;
    }
}

impl<P: Decoded> Model for Session<P> {
    ghost use Rattle.std.specs.Coded.{codes};
    ghost use Rattle.decode_jobs.specs.Trees.{tree_code};
    ghost use Rattle.picture_keys.specs.contracts.request_bodies.RequestBodies as bodies;
    ghost use Rattle.stream_session.specs.Machines.{Machine};

    ghost Value = { Machine P };

    ghost coded = { Prim.hlevel (codes, tree_code bodies.the_row.coded, P.code) };

    ghost use Rattle.stream_session.specs.Stored.{IsSound, machine_of};

    ghost view = { λ s. machine_of (record { origin = s.origin; entries = s.journal.items })
        (record { ids_given = s.ids_given; stream = s.ordered.folded.stream }) s.store };

    ghost invariant = { λ s. IsSound (record { origin = s.origin; entries = s.journal.items })
        (record { ids_given = s.ids_given; stream = s.ordered.folded.stream })
        s.store };
}

impl<P: Decoded> Session<P> {
    /// A session with an empty stream.
    pub fn new(alloc: Global, config: Config) -> Result<Session<P>, ConfigFault>
        ensures ok { IfOk result (λ session. session ≡ empty config.cache) }
        ensures cache { IsErrOf result ConfigFault.Cache
            ↔ ((1 ≤ config.cache) × (config.cache ≤ most_capacity) → ⊥) }
    {
        if !config.is_in_range() {
            return Err(ConfigFault::Cache);
        }
        Ok(Session {
            alloc,
            origin: ReadSnapshot::none(alloc),
            journal: Vec::new(alloc),
            ids_given: 0,
            ordered: OrderedFold::new(alloc)?,
            store: PictureStore::new(alloc, config.cache)?,
        })
    }

    /// A session that begins from a snapshot: it has its units under their ids, no edit is made yet,
    /// and no id of those that were given is given again. The edits that are accepted then lead from
    /// the snapshot to the stream.
    pub fn begun(
        alloc: Global,
        config: Config,
        snapshot: ReadSnapshot,
    ) -> Result<Session<P>, ConfigFault>
        ensures ok { IfOk result (IsBegun config.cache snapshot) }
        ensures cache { IsErrOf result ConfigFault.Cache
            ↔ ((1 ≤ config.cache) × (config.cache ≤ most_capacity) → ⊥) }
    {
        if !config.is_in_range() {
            return Err(ConfigFault::Cache);
        }
        let mut ordered = OrderedFold::new(alloc)?;
        let mut store = PictureStore::new(alloc, config.cache)?;
        let units = Change::new(0, 0, snapshot.shares(alloc)?);
        let _ = change_stream(alloc, &mut ordered, &mut store, units)?;
        Ok(Session {
            alloc,
            ids_given: snapshot.ids_given(),
            origin: snapshot,
            journal: Vec::new(alloc),
            ordered,
            store,
        })
    }

    /// Edits the stream. A refused edit changes nothing and spends no id.
    ///
    /// The refusal is the first in the order of `EditRefused`, but for Memory, which may stand in
    /// for a later one, as `stream_edits::change_of` says.
    ///
    /// A picture stays held where nothing that it is made of changes. One whose unit is gone or is
    /// made of something else is cached while there is room, and held again at once where a unit is
    /// made of the same once more.
    pub fn edit(&mut self, edit: Edit) -> Result<Receipt, EditRefused>
        ensures answers { AnswersEdit self.old edit result self.new }
        // Where pictures go back to the host, no picture comes or goes.
        ensures pictures { P.GoesBack ≡ true → KeepsPictures self.old self.new }
    {
        let read = edit.read(self.alloc)?;
        self.edit_read(read)
    }

    /// Edits the stream as `edit` does, by an edit whose text is read.
    pub fn edit_read(&mut self, read: ReadEdit) -> Result<Receipt, EditRefused>
        ensures answers { AnswersEdit self.old read result self.new }
        // Where pictures go back to the host, no picture comes or goes.
        ensures pictures { P.GoesBack ≡ true → KeepsPictures self.old self.new }
    {
        let (units, ids) = (self.ordered.units(), self.store.ids());
        let accepted = change_of(self.alloc, units, ids, self.ids_given, &read)?;
        let AcceptedEdit {
            change,
            id,
            ids_given,
        } = accepted;
        let hashed = read.hashed();
        let entry = JournalEntry::of_edit(read.into_edit());
        let costs = self.make(change, ids_given, entry)?;
        Ok(Receipt {
            number: self.journal.len() as u64,
            id,
            steps: costs.steps,
            hashed: hashed as u64,
            lost_pictures: costs.lost_pictures,
            changed: costs.changed,
        })
    }

    /// Makes edits together, as one step: all of them, each on the stream that those before it
    /// left, or none. An edit may name an id that one before it gave.
    ///
    /// The pictures change once, between the streams before and after the group, by the rule of an
    /// edit. A refused group changes nothing and spends no id. Memory may stand in for the refusal
    /// of an edit.
    pub fn edit_group(&mut self, edits: Vec<Edit>) -> Result<GroupReceipt, GroupRefused>
        ensures answers { AnswersGroup self.old edits.items result self.new }
        ensures few { IfOk result (λ _. length edits.items ≤ most_edits) }
        // Where pictures go back to the host, no picture comes or goes.
        ensures pictures { P.GoesBack ≡ true → KeepsPictures self.old self.new }
    {
        let group = ReadGroup::read(self.alloc, edits)?;
        self.edit_group_read(group)
    }

    /// Makes edits together as `edit_group` does, those of a group whose texts are read.
    pub fn edit_group_read(&mut self, group: ReadGroup) -> Result<GroupReceipt, GroupRefused>
        ensures answers { AnswersGroup self.old group result self.new }
        // Where pictures go back to the host, no picture comes or goes.
        ensures pictures { P.GoesBack ≡ true → KeepsPictures self.old self.new }
    {
        let (units, ids) = (self.ordered.units(), self.store.ids());
        let accepted = change_of_group(self.alloc, units, ids, self.ids_given, &group)?;
        let AcceptedGroup {
            change,
            ids,
            ids_given,
            hashed,
        } = accepted;
        let entry = JournalEntry::of_group(group.into_edits());
        let costs = self.make(change, ids_given, entry)?;
        Ok(GroupReceipt {
            number: self.journal.len() as u64,
            ids,
            steps: costs.steps,
            hashed: hashed as u64,
            lost_pictures: costs.lost_pictures,
            changed: costs.changed,
        })
    }

    /// Makes the change that edits come to, with so many ids given then.
    fn make(
        &mut self,
        change: Change,
        ids_given: u32,
        edits: JournalEntry,
    ) -> Result<ChangeCosts, AllocError>
        requires inside { IsInside change self.old.register.stream }
        requires come { ComeTo self.old.register edits change ids_given }
        ensures ok { IfOk result (λ costs. Moves self.old edits change ids_given costs.steps
            costs.lost_pictures costs.changed self.new) }
        ensures err { OnErr result (self.new ≡ self.old) }
        ensures pictures { P.GoesBack ≡ true → KeepsPictures self.old self.new }
    {
        self.journal.reserve(1)?;
        let costs = change_stream(self.alloc, &mut self.ordered, &mut self.store, change)?;
        self.journal.push_reserved(edits);
        self.ids_given = ids_given;
        Ok(costs)
    }

    /// Gives a picture to decode: the earliest one of the stream that isn't held and isn't out as a
    /// job, and whose references' pictures are all held. `None` where there is no such picture.
    ///
    /// The job isn't bound to its unit: its result is taken wherever the same picture is wanted
    /// when it lands.
    pub fn take(&mut self) -> Result<Option<Job<P>>, TakeRefused>
        ensures answers { AnswersTake P.IsOf self.old result self.new }
        // A pending unit stays so only as long as a job is out.
        ensures waits { IfOk result (λ job. job ≡ None
            → (id : ℕ) → IsPendingIn self.old id → IsAnyOutFor self.old id) }
    {
        match self.take_with_unit() {
            Ok(Some((_, job))) => Ok(Some(job)),
            Ok(None) => Ok(None),
            Err(refused) => Err(refused),
        }
    }

    /// Gives a picture to decode as `take` does, and tells the unit of the job.
    pub fn take_with_unit(&mut self) -> Result<Option<(AuId, Job<P>)>, TakeRefused>
        ensures tells { AnswersTakeWithUnit P.IsOf self.old result self.new }
        ensures waits { IfOk result (λ told. told ≡ None
            → (id : ℕ) → IsPendingIn self.old id → IsAnyOutFor self.old id) }
    {
        match self.store.take() {
            Ok(Some(JobAt { at, job })) => Ok(Some((self.store.ids()[at], job))),
            Ok(None) => Ok(None),
            Err(refused) => Err(refused),
        }
    }

    /// Gives a picture to decode for the unit that has the id: the earliest one that is due of
    /// those that it needs, down to pictures that are held. `None` where there is none, as for an
    /// id that isn't there. Whoever lands what is taken for a unit gets to its picture: while it is
    /// pending, `None` is answered only as long as a job that it waits for is out.
    pub fn take_for(&mut self, id: AuId) -> Result<Option<Job<P>>, TakeRefused>
        ensures answers { AnswersTakeFor P.IsOf self.old id result self.new }
        ensures waits { IfOk result (λ job. job ≡ None
            → IsPendingIn self.old id → IsAnyOutFor self.old id) }
    {
        match self.take_with_unit_for(id) {
            Ok(Some((_, job))) => Ok(Some(job)),
            Ok(None) => Ok(None),
            Err(refused) => Err(refused),
        }
    }

    /// Gives a picture to decode as `take_for` does, and tells the unit of the job.
    pub fn take_with_unit_for(&mut self, id: AuId) -> Result<Option<(AuId, Job<P>)>, TakeRefused>
        ensures tells { AnswersTakeWithUnitFor P.IsOf self.old id result self.new }
        ensures waits { IfOk result (λ told. told ≡ None
            → IsPendingIn self.old id → IsAnyOutFor self.old id) }
    {
        let Some(place) = self.find(id) else {
            return Ok(None);
        };
        match self.store.take_for(place) {
            Ok(Some(JobAt { at, job })) => {
                let ids = self.store.ids();
                Ok(Some((ids[at], job)))
            }
            Ok(None) => Ok(None),
            Err(refused) => Err(refused),
        }
    }

    /// Takes the result of a job, in any order and at any time. A picture that isn't taken is still
    /// the host's. It takes no memory.
    pub fn land(&mut self, finished: Finished<P>) -> Landing
        ensures { AnswersLand P.IsDecoded self.old finished result self.new }
    {
        self.store.land(finished)
    }

    /// Takes a picture of the job of this number as `land` takes a result, from whoever knows the
    /// job by its number alone. That the decoder made it of what the job was given is what whoever
    /// calls this owes. It takes no memory.
    pub fn land_number(&mut self, number: u64, picture: P) -> Landing
        requires { IfSome (input_of self.old number) (λ input. P.IsDecoded input picture) }
        ensures { AnswersLandOf self.old number picture result self.new }
    {
        self.store.land_number(number, picture)
    }

    /// Takes a job back that wasn't decoded, so that its picture is given to decode again. It takes
    /// no memory.
    pub fn give_back(&mut self, job: Job<P>) -> Returning
        ensures { AnswersGiveBack self.old job result self.new }
    {
        self.store.give_back(job)
    }

    /// Takes the job of this number back, as `give_back` does, from whoever spent it.
    pub fn give_back_number(&mut self, number: u64) -> Returning
        ensures { AnswersGiveBackOf self.old number result self.new }
    {
        self.store.give_back_number(number)
    }

    /// The place of the unit that has the id, in decoding order. The last one's is found at once.
    pub fn place(&self, id: AuId) -> Option<usize>
        ensures { result ≡ place_of self.now.register.stream id }
    {
        self.find(id)
    }

    /// The place of the unit that has the id, within the stream.
    fn find(&self, id: AuId) -> Option<usize>
        ensures value { result ≡ place_of self.now.register.stream id }
        ensures inside { IfSome result (λ place. place < length self.now.register.stream) }
    {
        place_of(self.store.ids(), id)
    }
}
