//! What engines keep beyond what all of them tell.
use crate::texts::{put_number, put_text};
use co_any::AnyEngine;
use co_base::{BaseFault, Key};
use co_lock::LockEngine;
use co_mv::MvEngine;
use co_occ::OccEngine;
use co_plain_engine::PlainEngine;
use std::alloc::{AllocError, Global};

/// What an engine keeps.
pub(crate) trait Keeps {
    /// Appends what is kept of a key.
    fn put_kept(&self, alloc: Global, key: &[u8], into: &mut Vec<u8>) -> Result<(), BaseFault>;
}

/// Appends the values of the versions of a key, in the order of installation.
fn put_versions(engine: &MvEngine, key: &Key, into: &mut Vec<u8>) -> Result<(), AllocError> {
    into.extend_from_slice(b"versions")?;
    for place in 0..engine.versions(key) {
        match engine.version_at(key, place) {
            Some(value) => put_text(value.text(), into)?,
            None => into.extend_from_slice(b" erased")?,
        }
    }
    Ok(())
}

impl Keeps for MvEngine {
    /// The versions of the key.
    fn put_kept(&self, alloc: Global, key: &[u8], into: &mut Vec<u8>) -> Result<(), BaseFault> {
        let key = Key::new(alloc, key)?;
        Ok(put_versions(self, &key, into)?)
    }
}

impl Keeps for OccEngine {
    /// How many write sets of installs, of any key.
    fn put_kept(&self, _alloc: Global, _key: &[u8], into: &mut Vec<u8>) -> Result<(), BaseFault> {
        into.extend_from_slice(b"write sets")?;
        Ok(put_number(self.old_len() as u64, into)?)
    }
}

impl Keeps for PlainEngine {
    fn put_kept(&self, _alloc: Global, _key: &[u8], _into: &mut Vec<u8>) -> Result<(), BaseFault> {
        Ok(())
    }
}

impl Keeps for LockEngine {
    fn put_kept(&self, _alloc: Global, _key: &[u8], _into: &mut Vec<u8>) -> Result<(), BaseFault> {
        Ok(())
    }
}

impl Keeps for AnyEngine {
    fn put_kept(&self, _alloc: Global, _key: &[u8], _into: &mut Vec<u8>) -> Result<(), BaseFault> {
        Ok(())
    }
}
