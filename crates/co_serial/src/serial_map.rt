//! The records of all members, and transactions that run whole on them.
ghost use Rattle.std.specs.Prelude.{◌≡◌, ◌<◌, ℕ, [], length, take, IfOk, OnOk, OnErr, option_copied};
ghost use Rattle.std.specs.FinMap as map;
ghost use Rattle.co_serial.specs.Records.{all_rows};
ghost use Rattle.co_serial.specs.SerialRun.{with_at, reply_to, after_site, run_whole, after_whole};
ghost use Rattle.co_serial.specs.Family.{family_of};

use crate::record_map::RecordMap;
use crate::site::Site;
use co_base::{Key, Replies, Reply, Rows, Value};
use std::alloc::{AllocError, Global};
use std::marker::Model;

/// The records of all members, by the numbers of the members. A contract sees the list of the
/// records of each member, which `family_of` reads by number.
#[derive(Drop)]
pub struct SerialMap {
    alloc: Global,
    members: Vec<RecordMap>,
}

impl Model for SerialMap {
    ghost use Rattle.std.specs.Prelude.{List, ℕ};
    ghost use Rattle.std.specs.Coded.{coded_ℕ, coded_list};
    ghost use Rattle.std.specs.FinMap.{FinMap, code};
    ghost use Rattle.co_base.specs.Order.{key_cmp};

    ghost Value = { List (FinMap key_cmp (List ℕ)) };

    ghost coded = { coded_list (code (coded_list coded_ℕ) (coded_list coded_ℕ)) };

    ghost view = { λ m. m.members.items };
}

impl SerialMap {
    /// No records. Takes no memory.
    pub fn new(alloc: Global) -> SerialMap
        ensures { result ≡ [] }
    {
        SerialMap {
            alloc,
            members: Vec::new(alloc),
        }
    }

    /// The value of a record of a member, or none where there is no such record.
    pub fn get(&self, member: u8, key: &Key) -> Option<&Value>
        ensures { option_copied result ≡ map.get (family_of self.now member) key.now }
    {
        let place = usize::from(member);
        if place < self.members.len() {
            self.members[place].get(key)
        } else {
            None
        }
    }

    /// Every record of a member, in the order of the keys.
    pub fn rows(&self, member: u8) -> Result<Rows, AllocError>
        ensures { IfOk result (λ rows. rows ≡ all_rows (family_of self.now member)) }
    {
        let place = usize::from(member);
        if place < self.members.len() {
            self.members[place].rows(self.alloc)
        } else {
            Ok(Rows::new(self.alloc))
        }
    }

    /// Lays in a record at a member in place of the one of its key. Want of memory leaves the
    /// records as they were.
    pub fn set(&mut self, member: u8, key: Key, value: Value) -> Result<(), AllocError>
        ensures ok { OnOk result (family_of self.new ≡ with_at (family_of self.old) member (map.insert (family_of self.old member) key value)) }
        ensures err { OnErr result (family_of self.new ≡ family_of self.old) }
    {
        make_room(self.alloc, &mut self.members, member)?;
        let records = &mut self.members[usize::from(member)];
        records.set(key, value)
    }

    /// Does one operation and gives its reply. Want of memory leaves the records as they were.
    pub fn apply(&mut self, site: &Site) -> Result<Reply, AllocError>
        ensures reply { IfOk result (λ reply. reply ≡ reply_to (family_of self.old site.now.member) site.now.op) }
        ensures ok { OnOk result (family_of self.new ≡ after_site (family_of self.old) site.now) }
        ensures err { OnErr result (family_of self.new ≡ family_of self.old) }
    {
        make_room(self.alloc, &mut self.members, site.member)?;
        let alloc = self.alloc;
        let records = &mut self.members[usize::from(site.member)];
        records.apply(alloc, &site.op)
    }
}

/// Makes a place for the records of the member, and leaves the records as they are.
fn make_room(alloc: Global, members: &mut Vec<RecordMap>, member: u8) -> Result<(), AllocError>
    ensures same { family_of members.new.items ≡ family_of members.old.items }
    ensures room { OnOk result (member < length members.new.items) }
{
    'room: while members.len() <= usize::from(member) {
        members.push(RecordMap::new(alloc))?;
    }
    Ok(())
}

/// Runs a transaction whole: its operations in order on the map, with one reply for each. After want
/// of memory the map holds the effect of a prefix of the operations.
pub fn run_whole(alloc: Global, map: &mut SerialMap, sites: &[Site]) -> Result<Replies, AllocError>
    ensures replies { IfOk result (λ replies. replies ≡ run_whole (family_of map.old) sites.now) }
    ensures ok { OnOk result (family_of map.new ≡ after_whole (family_of map.old) sites.now) }
    ensures err { OnErr result ((done : ℕ) × (family_of map.new ≡ after_whole (family_of map.old) (take done sites.now))) }
{
    let mut replies = Replies::new(alloc);
    for site in sites {
        let reply = map.apply(site)?;
        replies.push(reply)?;
    }
    Ok(replies)
}
