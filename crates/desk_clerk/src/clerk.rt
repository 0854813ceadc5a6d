ghost use Rattle.std.specs.Prelude.{◌≡◌, ◌≢◌, ◌≤◌, ◌++◌, ◌⊎◌, ℕ, [], Ok, Err, None, Some, All, is_ok, length, true, IfOk, IfErr, OnOk, OnErr, IsErrOf};
ghost use mathlib.Core.List.{IsPrefix};
ghost use Rattle.desk_clerk.specs.Clerk.{keeper_of, list_from, tables_of, current_tables};
ghost use Rattle.desk_clerk.specs.Published.{IsKeptUnpublished, IsTakenIn};
ghost use Rattle.desk_edge.specs.Content.{IsSame};
ghost use Rattle.desk_edge.specs.Faults.{CountsFaults};
ghost use Rattle.desk_engine.specs.Engine.{lists_of};
ghost use Rattle.desk_history.specs.History.{IsHistory, after};
ghost use Rattle.desk_history.specs.Step.{kept_number, step};
ghost use Rattle.desk_model.specs.Lists.{number_at};
ghost use Rattle.desk_model.specs.declared.rule_fault.RuleFault.{RuleFault as Fault};
ghost use Rattle.desk_records.specs.Records.{tables_content};

use crate::accepted::Accepted;
use crate::board::DeskBoard;
use crate::desk_seat::DeskNews;
use crate::open_fault::OpenFault;
use crate::open_refused::OpenRefused;
use crate::opened::Opened;
use crate::publishing::{open_press, publish_kept, take_into};
use crate::stored_desk::StoredDesk;
use crate::submit_fault::SubmitFault;
use desk_edge::Keeper;
use desk_engine::Engine;
use desk_model::Edit;
use desk_publish::{BlankBook, Naming, Publication};
use desk_text::OutOfMemory;
use std::alloc::Global;
use std::marker::Model;
use std::sync::Wait;

/// The one writer of a desk, which others may read meanwhile. An edit is kept in the store before it is published, and published before it is
/// answered.
///
/// Contracts see it as its desk with the store, and as two lists of the edits since it was opened: those that are published, and all
/// that it has accepted. The published ones are the first of all, and are all of them but for one edit at most, which the store keeps
/// and which no memory was left to publish. It isn't `Drop`, since its end may wait: end it by `close`.
pub struct Clerk<K: Keeper, J: Naming<DeskBoard>> {
    desk: StoredDesk<K>,
    publication: Publication<DeskBoard, J>,
    /// The edit that the store keeps and the publication has yet to take.
    kept: Option<Edit>,
    /// Whether nothing waits to be published.
    is_published: bool,
}

impl<K: Keeper, J: Naming<DeskBoard>> Model for Clerk<K, J> {
    ghost use Rattle.std.specs.Prelude.{◌≡◌, ◌++◌, true, None};
    ghost use mathlib.Core.List.{IsPrefix};
    ghost use Rattle.desk_clerk.specs.Clerk.{Clerked, list_from, tables_of};
    ghost use Rattle.desk_clerk.specs.Published.{waiting_edit};
    ghost use Rattle.desk_engine.specs.Engine.{lists_of};
    ghost use Rattle.desk_history.specs.History.{IsHistory, after};

    ghost Value = { Clerked K };

    ghost view = { λ c. record { desk = c.desk; published = c.publication.published; accepted = c.publication.whole ++ waiting_edit c.kept } };

    ghost invariant = { λ c. IsHistory (list_from (lists_of J.opening.engine) (c.publication.whole ++ waiting_edit c.kept))
        × (tables_of c.desk ≡ after (list_from (lists_of J.opening.engine) (c.publication.whole ++ waiting_edit c.kept)))
        × IsPrefix c.publication.published c.publication.whole
        × (c.is_published ≡ true → c.publication.published ≡ c.publication.whole ++ waiting_edit c.kept) };
}

impl<K: Keeper, J: Naming<DeskBoard>> Clerk<K, J> {
    /// Opens a desk to one writer and so many readers, 1 to 8. The list begins with no edit.
    ///
    /// The book is a new one, and the name is picked for it and for the tables of the desk. The only refusal is `OutOfMemory`: none was
    /// left for two boards, or for the seats. It hands the keeper back as it was.
    pub fn open<R: Wait>(
        rt: &R,
        alloc: Global,
        blank: BlankBook<DeskBoard>,
        desk: StoredDesk<K>,
        seats: usize,
    ) -> Result<Opened<K, J>, OpenRefused<K>>
        requires book { blank ≡ J.book }
        requires opening { lists_of J.opening.engine ≡ tables_of desk }
        requires seats { (1 ≤ seats) × (seats ≤ 8) }
        ensures desk { IfOk result (λ opened. opened.clerk.desk ≡ desk) }
        ensures list { IfOk result (λ opened. (opened.clerk.published ≡ []) × (opened.clerk.accepted ≡ [])) }
        ensures count { IfOk result (λ opened. length opened.seats.items ≡ seats) }
        ensures seats { IfOk result (λ opened. All (λ seat. seat ≡ record { list = []; is_sure = true }) opened.seats.items) }
        ensures memory { IfErr result (λ refused. refused.fault ≡ OpenFault.OutOfMemory) }
        ensures handed_back { IfErr result (λ refused. refused.keeper ≡ desk.keeper) }
        ensures kept { IfErr result (λ refused. K.Tells refused.keeper → IsSame (tables_content (tables_of desk)) (K.content refused.keeper)) }
    {
        desk.tables();
        match open_press(rt, alloc, blank, desk.engine(), seats) {
            Ok((publication, seats)) => Ok(Opened {
                clerk: Clerk {
                    desk,
                    publication,
                    kept: None,
                    is_published: true,
                },
                seats,
            }),
            Err(_) => Err(OpenRefused {
                fault: OpenFault::OutOfMemory,
                keeper: desk.close(),
            }),
        }
    }

    /// Opens a desk to one writer beside whom nobody reads. The list begins with no edit. No board is made, and no memory is taken.
    ///
    /// The book is a new one, and the name is picked for it and for the tables of the desk.
    pub fn open_alone(blank: BlankBook<DeskBoard>, desk: StoredDesk<K>) -> Clerk<K, J>
        requires book { blank ≡ J.book }
        requires opening { lists_of J.opening.engine ≡ tables_of desk }
        ensures desk { result.desk ≡ desk }
        ensures list { (result.published ≡ []) × (result.accepted ≡ []) }
    {
        // The call says that the tables are sound.
        desk.tables();
        let publication = Publication::to_nobody(blank, desk.number());
        Clerk {
            desk,
            publication,
            kept: None,
            is_published: true,
        }
    }

    /// Takes an edit: publishes what waits, judges the edit, keeps what it changes in the store, in one commit, makes it in the tables
    /// and publishes it. An edit that was accepted before is told by its kept number, and the store isn't asked; nor is it for an edit
    /// that meets a refusal. It may wait for a reader that is looking.
    ///
    /// `Rule`: the first refusal that it meets. `KeeperFault`: it is new and meets no refusal, and the keeper refused the commit.
    /// `OutOfMemory`: none was left to publish what waits, to judge the edit or to keep it, and nothing of it is kept; or it is kept,
    /// and none was left to publish it. After a refusal the list and what the store keeps are else as they were.
    pub fn submit<R: Wait>(
        &mut self,
        rt: &R,
        alloc: Global,
        edit: Edit,
    ) -> Result<Accepted, SubmitFault>
        ensures number { IfOk result (λ accepted. (step (current_tables self.old) edit).0 ≡ Ok accepted.number) }
        ensures list { IfOk result (λ accepted. accepted.whole ≡ number_at (current_tables self.new)) }
        ensures ok { OnOk result (IsTakenIn self.old.accepted (current_tables self.old) edit self.new.accepted (current_tables self.new)) }
        ensures published { OnOk result (self.new.published ≡ self.new.accepted) }

        // After a refusal the list is as it was, or has the one edit behind.
        ensures err { OnErr result (((self.new.accepted ≡ self.old.accepted) × (current_tables self.new ≡ current_tables self.old))
            ⊎ IsKeptUnpublished self.old.accepted (current_tables self.old) edit self.new.published self.new.accepted (current_tables self.new)) }
        ensures memory { OnErr result (result ≢ Err SubmitFault.OutOfMemory → (self.new.accepted ≡ self.old.accepted) × (current_tables self.new ≡ current_tables self.old)
            × (self.new.published ≡ self.new.accepted)) }
        ensures rule { (fault : Fault) (n : ℕ) → result ≡ Err (SubmitFault.Rule fault n)
            → ((step (current_tables self.old) edit).0 ≡ Err fault) × (n ≡ number_at (current_tables self.old)) }

        // An edit that is kept already doesn't touch the store.
        ensures again { (n : ℕ) → kept_number (current_tables self.old) edit ≡ Some n → keeper_of self.new ≡ keeper_of self.old }

        // Nor does an edit that a rule refuses.
        ensures refused { (fault : Fault) → (step (current_tables self.old) edit).0 ≡ Err fault → keeper_of self.new ≡ keeper_of self.old }
        ensures told { K.Tells (keeper_of self.new) → K.Tells (keeper_of self.old) }
        ensures faults { CountsFaults (IsErrOf result SubmitFault.KeeperFault) (K.faults (keeper_of self.old)) (K.faults (keeper_of self.new)) }
        ensures sure { K.NeverFails → result ≢ Err SubmitFault.KeeperFault }
        ensures asked { IsErrOf result SubmitFault.KeeperFault
            → (kept_number (current_tables self.old) edit ≡ None) × (is_ok (step (current_tables self.old) edit).0 ≡ true) }
    {
        self.catch_up(rt)?;
        let accepted = self.take_in(alloc, edit)?;
        self.catch_up(rt)?;
        Ok(accepted)
    }

    /// Judges an edit where nothing waits, keeps it in the store and makes it in the tables. It is published by `catch_up`.
    fn take_in(&mut self, alloc: Global, edit: Edit) -> Result<Accepted, SubmitFault>
        requires { self.old.published ≡ self.old.accepted }
        ensures number { IfOk result (λ accepted. (step (current_tables self.old) edit).0 ≡ Ok accepted.number) }
        ensures list { IfOk result (λ accepted. accepted.whole ≡ number_at (current_tables self.new)) }
        ensures ok { OnOk result (IsTakenIn self.old.accepted (current_tables self.old) edit self.new.accepted (current_tables self.new)) }
        ensures published { self.new.published ≡ self.old.published }
        ensures err { OnErr result ((self.new.accepted ≡ self.old.accepted) × (current_tables self.new ≡ current_tables self.old)) }
        ensures rule { (fault : Fault) (n : ℕ) → result ≡ Err (SubmitFault.Rule fault n)
            → ((step (current_tables self.old) edit).0 ≡ Err fault) × (n ≡ number_at (current_tables self.old)) }
        ensures again { (n : ℕ) → kept_number (current_tables self.old) edit ≡ Some n → keeper_of self.new ≡ keeper_of self.old }
        ensures refused { (fault : Fault) → (step (current_tables self.old) edit).0 ≡ Err fault → keeper_of self.new ≡ keeper_of self.old }
        ensures told { K.Tells (keeper_of self.new) → K.Tells (keeper_of self.old) }
        ensures faults { CountsFaults (IsErrOf result SubmitFault.KeeperFault) (K.faults (keeper_of self.old)) (K.faults (keeper_of self.new)) }
        ensures sure { K.NeverFails → result ≢ Err SubmitFault.KeeperFault }
        ensures asked { IsErrOf result SubmitFault.KeeperFault
            → (kept_number (current_tables self.old) edit ≡ None) × (is_ok (step (current_tables self.old) edit).0 ≡ true) }
    {
        let taken = take_into(alloc, &mut self.desk, &mut self.kept, edit);
        self.is_published = self.kept.is_none();
        taken
    }

    /// Publishes an edit that the store keeps and that no memory was left to publish before. It may wait for a reader that is looking.
    ///
    /// `OutOfMemory`: none was left to publish it. It still waits.
    pub fn catch_up<R: Wait>(&mut self, rt: &R) -> Result<(), OutOfMemory>
        ensures desk { self.new.desk ≡ self.old.desk }
        ensures list { self.new.accepted ≡ self.old.accepted }
        ensures published { OnOk result (self.new.published ≡ self.new.accepted) }
        ensures stays { OnErr result (self.new.published ≡ self.old.published) }
    {
        if self.is_published {
            return Ok(());
        }
        publish_kept(rt, &mut self.publication, &mut self.kept)?;
        self.is_published = true;
        Ok(())
    }

    /// The published list, for a seat to learn. It takes no memory and waits for nobody.
    pub fn news(&mut self) -> DeskNews<J>
        ensures told { result.list ≡ self.old.published }
        ensures kept { self.new ≡ self.old }
    {
        self.publication.tell()
    }

    /// The engine, whose tables are those after the whole list. It takes no memory.
    pub fn engine(&self) -> &Engine
        ensures engine { result.now ≡ self.now.desk.engine }
        ensures history { IsHistory (list_from (lists_of J.opening.engine) self.now.accepted) }
        ensures after { current_tables self.now ≡ after (list_from (lists_of J.opening.engine) self.now.accepted) }
        ensures begins { IsPrefix self.now.published self.now.accepted }
    {
        self.desk.engine()
    }

    /// The number of the whole list: how many edits were accepted, in the store's whole life. It takes no memory.
    pub fn number(&self) -> u64
        ensures { result ≡ number_at (current_tables self.now) }
    {
        self.desk.number()
    }

    /// Ends the desk and gives the keeper back. It may wait for a reader that is looking; it takes no memory and is never refused.
    pub fn close<R: Wait>(self, rt: &R) -> K
        ensures keeper { result ≡ keeper_of self }
        ensures kept { K.Tells result → IsSame (tables_content (current_tables self)) (K.content result) }
    {
        let Clerk {
            desk,
            publication,
            kept: _,
            is_published: _,
        } = self;
        publication.close(rt);
        desk.close()
    }
}
