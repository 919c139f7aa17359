//! The transactions of a transcript, and their serial run.
ghost use Rattle.std.specs.Prelude.{◌≡◌, ◌≤◌, ◌<◌, ◌+◌, ◌^◌, true, List, [], ◌∷◌, is_some, Some, None, IfOk, OnOk};
ghost use Rattle.co_base.specs.declared.mark.MarkKind.TheVariants as kind;
ghost use Rattle.co_state.specs.Table.{look, put, without};
ghost use Rattle.co_check.specs.Account.{Account, Committed, no_account, unknown, client_in, is_by, begun, told, begins, operates, operated, marked, marked_by, replied};
ghost use Rattle.co_check.specs.Checked.{IsEndedFrom};
ghost use Rattle.co_check.specs.Kept.{Keeps, IsChange, IsJudged, kept_more};
ghost use Rattle.co_check.specs.Serial.{no_records};
ghost use Rattle.co_check.specs.Starts.{laid_in};
ghost use Rattle.co_serial.specs.SerialRun.{AllRecords};

use crate::client::{Answered, Client, Committed};
use crate::copies::copy_told;
use crate::serial::{Unlike, first_unlike};
use crate::verdict::{Ending, Verdict};
use co_base::{Mark, MarkKind, Node, Op, Reply, Row, Txn};
use co_message::{Answer, Event};
use co_serial::{MemberRow, SerialMap, Site};
use co_state::{History, Table};
use std::alloc::{AllocError, Global};

/// The first transaction that was not answered as in the serial run.
#[derive(Drop)]
pub(crate) struct Difference {
    /// The transaction.
    pub(crate) txn: Txn,
    /// Its first operation that was not.
    pub(crate) at: Unlike,
}

/// What undecided transactions did, and the records of the serial run of those that are decided.
#[derive(Drop)]
pub(crate) struct Ledger {
    alloc: Global,
    clients: Table<Client>,
    transactions: u32,
    map: SerialMap,
    differs: Option<Difference>,
    kept: Option<History<Committed>>,
}

/// Nothing is known of a transaction.
fn unknown(alloc: Global) -> Client
    ensures { result ≡ unknown }
{
    Client {
        by: None,
        told: History::new(alloc),
        decided: false,
    }
}

/// A transaction was begun at the node that decides it.
fn begun_at(client: Client, by: Node) -> Client
    ensures { result ≡ record client { by = Some by } }
{
    Client {
        by: Some(by),
        told: client.told,
        decided: client.decided,
    }
}

/// An operation was answered.
fn told_to(client: Client, operation: Answered) -> Result<Client, AllocError>
    ensures { IfOk result (λ after. after ≡ record client { told = operation ∷ client.told }) }
{
    let Client { by, told, decided } = client;
    let mut told = told;
    told.push(operation)?;
    Ok(Client { by, told, decided })
}

/// It is decided, and its operations are kept no longer.
fn decided_at(alloc: Global, by: Option<Node>) -> Client
    ensures { result ≡ record { by = by; told = []; decided = true } }
{
    Client {
        by,
        told: History::new(alloc),
        decided: true,
    }
}

impl Ledger {
    /// Nothing was told. Decided transactions are kept where that is asked for.
    pub(crate) fn new(alloc: Global, keeps: bool) -> Ledger
        ensures kept { Keeps no_records result no_account }
        ensures none { result.transactions ≡ 0 }
    {
        let kept = if keeps {
            Some(History::new(alloc))
        } else {
            None
        };
        Ledger {
            alloc,
            clients: Table::new(alloc),
            transactions: 0,
            map: SerialMap::new(alloc),
            differs: None,
            kept,
        }
    }

    /// Lays in one more record with which the serial run begins.
    pub(crate) fn lay_in(&mut self, row: MemberRow) -> Result<(), AllocError>
        ensures kept { (start : AllRecords) → Keeps start self.old no_account → OnOk result (Keeps (laid_in start row) self.new no_account) }
        ensures few { OnOk result (self.new.transactions ≡ self.old.transactions) }
    {
        let MemberRow {
            member,
            row: Row { key, value },
        } = row;
        self.map.set(member, key, value)
    }

    /// Whether a transaction is decided.
    fn is_decided(&self, t: Txn) -> bool
        ensures { result ≡ (client_in (look self.now.clients t)).decided }
    {
        match self.clients.get(t) {
            Some(client) => client.decided,
            None => false,
        }
    }

    /// Whether a transaction was begun.
    fn is_begun(&self, t: Txn) -> bool
        ensures { result ≡ is_some (client_in (look self.now.clients t)).by }
    {
        match self.clients.get(t) {
            Some(client) => client.by.is_some(),
            None => false,
        }
    }

    /// Takes what is known of a transaction.
    fn take(&mut self, t: Txn) -> Client
        ensures client { result ≡ client_in (look self.old.clients t) }
        ensures rest { self.new ≡ record self.old { clients = without self.old.clients t } }
    {
        match self.clients.remove(t) {
            Some(client) => client,
            None => unknown(self.alloc),
        }
    }

    /// Lays in what is known of a transaction.
    fn lay(&mut self, t: Txn, client: Client) -> Result<(), AllocError>
        ensures { OnOk result (self.new ≡ record self.old { clients = put self.old.clients t client }) }
    {
        self.clients.insert(t, client)
    }

    /// A transaction was begun at the node that decides it. Gives whether it was not before.
    fn begin(&mut self, t: Txn, by: Node) -> Result<bool, AllocError>
        ensures kept { (start : AllRecords) (a : Account) → Keeps start self.old a → IfOk result (λ kept. IsChange start (begun a t by) kept self.new) }
        ensures few { OnOk result (self.new.transactions ≡ self.old.transactions) }
    {
        if self.is_begun(t) {
            return Ok(false);
        }
        let client = self.take(t);
        self.lay(t, begun_at(client, by))?;
        Ok(true)
    }

    /// An operation was answered with a reply. It counts where its transaction is not decided.
    fn tell(&mut self, t: Txn, operation: Answered) -> Result<(), AllocError>
        ensures kept { (start : AllRecords) (a : Account) → Keeps start self.old a → OnOk result (Keeps start self.new (told a t operation)) }
        ensures few { OnOk result (self.new.transactions ≡ self.old.transactions) }
    {
        if self.is_decided(t) {
            return Ok(());
        }
        let client = self.take(t);
        let client = told_to(client, operation)?;
        self.lay(t, client)
    }

    /// The event of this number was answered so.
    pub(crate) fn reply(
        &mut self,
        number: u32,
        event: Event,
        answer: Answer,
    ) -> Result<bool, AllocError>
        ensures kept { (start : AllRecords) (a : Account) → Keeps start self.old a → IfOk result (λ kept. IsChange start (replied a number event answer) kept self.new) }
        ensures few { OnOk result (self.new.transactions ≡ self.old.transactions) }
    {
        match answer {
            Answer::Begun => self.begins(event),
            Answer::Replied(reply) => self.operates(number, event, reply),
            _ => Ok(true),
        }
    }

    /// An event was answered with `begun`.
    fn begins(&mut self, event: Event) -> Result<bool, AllocError>
        ensures kept { (start : AllRecords) (a : Account) → Keeps start self.old a → IfOk result (λ kept. IsChange start (begins a event) kept self.new) }
        ensures few { OnOk result (self.new.transactions ≡ self.old.transactions) }
    {
        match event {
            Event::Begin { txn, coord } => self.begin(txn, Node::Coord(coord)),
            Event::Local { txn, member } => self.begin(txn, Node::Member(member)),
            _ => Ok(true),
        }
    }

    /// An event was answered with a reply.
    fn operates(&mut self, number: u32, event: Event, reply: Reply) -> Result<bool, AllocError>
        ensures kept { (start : AllRecords) (a : Account) → Keeps start self.old a → IfOk result (λ kept. IsChange start (operates a number event reply) kept self.new) }
        ensures few { OnOk result (self.new.transactions ≡ self.old.transactions) }
    {
        match event {
            Event::Read { txn, member, key } => {
                self.operated(number, txn, member, Op::Read(key), reply)
            }
            Event::Write {
                txn,
                member,
                key,
                value,
            } => self.operated(number, txn, member, Op::Write(key, value), reply),
            Event::Erase { txn, member, key } => {
                self.operated(number, txn, member, Op::Erase(key), reply)
            }
            Event::Scan { txn, member, range } => {
                self.operated(number, txn, member, Op::Scan(range), reply)
            }
            _ => Ok(true),
        }
    }

    /// An operation of a transaction was answered with a reply.
    fn operated(
        &mut self,
        number: u32,
        t: Txn,
        member: u8,
        op: Op,
        reply: Reply,
    ) -> Result<bool, AllocError>
        ensures kept { (start : AllRecords) (a : Account) → Keeps start self.old a → IfOk result (λ kept. IsChange start (operated a number t member op reply) kept self.new) }
        ensures few { OnOk result (self.new.transactions ≡ self.old.transactions) }
    {
        let site = Site { member, op };
        self.tell(
            t,
            Answered {
                number,
                site,
                reply,
            },
        )?;
        Ok(true)
    }

    /// A record became stable. Gives whether it is no second decision of a transaction.
    pub(crate) fn mark(&mut self, mark: Mark) -> Result<bool, AllocError>
        requires { self.old.transactions + 1 < 2 ^ 32 }
        ensures kept { (start : AllRecords) (a : Account) → Keeps start self.old a → IfOk result (λ kept. IsChange start (marked a mark) kept self.new) }
        ensures few { OnOk result (self.new.transactions ≤ self.old.transactions + 1) }
    {
        match mark.kind {
            MarkKind::Commit => self.commit(mark.node, Txn(mark.number)),
            _ => Ok(true),
        }
    }

    /// A commit record of a transaction became stable at a node. It is the decision where that node decides the transaction.
    fn commit(&mut self, at: Node, t: Txn) -> Result<bool, AllocError>
        requires { self.old.transactions + 1 < 2 ^ 32 }
        ensures kept { (start : AllRecords) (a : Account) → Keeps start self.old a → IfOk result (λ kept. IsChange start (marked_by kind.Commit a at t) kept self.new) }
        ensures few { OnOk result (self.new.transactions ≤ self.old.transactions + 1) }
    {
        if !self.decides(t, at) {
            return Ok(true);
        }
        if self.is_decided(t) {
            return Ok(false);
        }
        let Client {
            by,
            told,
            decided: _,
        } = self.take(t);
        self.keep(t, &told)?;
        self.run(t, told)?;
        self.transactions += 1;
        self.lay(t, decided_at(self.alloc, by))?;
        Ok(true)
    }

    /// Keeps what a decided transaction was answered, where that is asked for.
    fn keep(&mut self, t: Txn, told: &History<Answered>) -> Result<(), AllocError>
        ensures { OnOk result (self.new ≡ record self.old { kept = kept_more self.old.kept (record { txn = t; told = told.now }) }) }
    {
        let alloc = self.alloc;
        match &mut self.kept {
            Some(kept) => {
                let told = copy_told(alloc, told)?;
                kept.push(Committed { txn: t, told })
            }
            None => Ok(()),
        }
    }

    /// Whether this node decides the transaction.
    fn decides(&self, t: Txn, at: Node) -> bool
        ensures { result ≡ is_by (client_in (look self.now.clients t)).by at }
    {
        match self.clients.get(t) {
            Some(client) => client.by == Some(at),
            None => false,
        }
    }

    /// Runs a decided transaction whole behind the earlier ones, as long as none of those differs.
    fn run(&mut self, t: Txn, told: History<Answered>) -> Result<(), AllocError>
        ensures judged { (start : AllRecords) (committed : List Committed) → IsJudged start self.old.differs self.old.map committed →
            OnOk result (IsJudged start self.new.differs self.new.map (record { txn = t; told = told } ∷ committed)) }
        ensures rest { OnOk result ((self.new.clients ≡ self.old.clients) × (self.new.transactions ≡ self.old.transactions) × (self.new.kept ≡ self.old.kept)) }
    {
        if self.differs.is_some() {
            return Ok(());
        }
        match first_unlike(&mut self.map, told.into_oldest_first())? {
            None => Ok(()),
            Some(at) => {
                self.differs = Some(Difference { txn: t, at });
                Ok(())
            }
        }
    }

    /// What the committed transactions were found to be, and those of them that were kept.
    pub(crate) fn ending(self) -> Ending
        ensures { (start : AllRecords) (a : Account) → Keeps start self a → IsEndedFrom start a result }
    {
        let Ledger {
            alloc: _,
            clients: _,
            transactions,
            map,
            differs,
            kept,
        } = self;
        let verdict = match differs {
            None => Verdict::Serial { transactions, map },
            Some(Difference { txn, at }) => Verdict::Differs {
                txn,
                line: at.number,
                told: at.told,
                serial: at.serial,
            },
        };
        Ending { verdict, kept }
    }
}
