//! What a player knows of the transactions of an engine.
ghost use Rattle.std.specs.Prelude.{◌≡◌, IsTrue, IfOk, OnOk};
ghost use Rattle.co_base.specs.declared.op.Op.{Op};
ghost use Rattle.co_state.specs.declared.engine_state.EngineState.{EngineState};
ghost use Rattle.co_state.specs.Effects.{after_operation, after_cast, after_install, after_drop, restored};
ghost use Rattle.co_base.specs.declared.head.Kind.{Kind};
ghost use Rattle.co_serial.specs.Records.{Records};
ghost use Rattle.co_state.specs.Table.{holds};
ghost use Rattle.co_engine.specs.Known.{IsKnown, known_operates};
ghost use Rattle.co_engine.specs.Calls.{seen_of, votes_of};

use crate::answers::Seen;
use co_base::Txn;
use co_pairs::Prepared;
use co_state::Table;
use std::alloc::{AllocError, Global};

/// The transactions of an engine by their stages.
#[derive(Drop)]
pub struct Known {
    /// Those that have not voted.
    pub active: Table<()>,
    /// Those that voted and wait.
    pub voted: Table<()>,
    /// Those that were committed.
    pub installed: Table<()>,
}

impl Known {
    /// None but the prepared transactions, which voted.
    pub fn restored(alloc: Global, prepared: &[Prepared]) -> Result<Known, AllocError>
        ensures { IfOk result (λ known. (kind : Kind) (records : Records) → IsKnown known (restored kind records (votes_of prepared.now))) }
    {
        let mut voted = Table::new(alloc);
        let mut place = prepared.len();
        while 0 < place {
            place -= 1;
            voted.insert(prepared[place].txn, ())?;
        }
        Ok(Known {
            active: Table::new(alloc),
            voted,
            installed: Table::new(alloc),
        })
    }

    /// Whether a transaction has neither voted nor been installed.
    pub fn operates(&self, t: Txn) -> bool
        ensures { result ≡ known_operates self.now t }
    {
        !self.voted.contains(t) && !self.installed.contains(t)
    }

    /// Takes note of what an operation came to.
    pub fn note(&mut self, t: Txn, seen: &Seen) -> Result<(), AllocError>
        ensures { (b : EngineState) (op : Op) → IsKnown self.old b → seen.now ≡ seen_of b t op → OnOk result (IsKnown self.new (after_operation b t op)) }
    {
        match seen {
            Seen::Answer(_) => self.active.insert(t, ()),
            Seen::Blocked(_) => Ok(()),
        }
    }

    /// Takes note of a vote.
    pub fn cast(&mut self, t: Txn) -> Result<(), AllocError>
        ensures { (b : EngineState) → IsKnown self.old b → OnOk result (IsKnown self.new (after_cast b t 0 0)) }
    {
        let _ = self.active.remove(t);
        self.voted.insert(t, ())
    }

    /// Takes note of a commit.
    pub fn install(&mut self, t: Txn) -> Result<(), AllocError>
        ensures { (b : EngineState) → IsKnown self.old b → IsTrue (holds b.voted t) → OnOk result (IsKnown self.new (after_install b t)) }
    {
        let _ = self.voted.remove(t);
        self.installed.insert(t, ())
    }

    /// Forgets an active or voted transaction.
    pub fn drop_txn(&mut self, t: Txn)
        ensures { (b : EngineState) → IsKnown self.old b → IsKnown self.new (after_drop b t) }
    {
        let _ = self.active.remove(t);
        let _ = self.voted.remove(t);
    }
}
