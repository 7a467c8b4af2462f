// Files in memory, for tests and for programs that make their own.
ghost use Rattle.std.specs.Prelude.{◌≡◌, ◌≤◌, ◌<◌, ◌^◌, ◌||◌, ◌==◌, ℕ, List, [], ◌∷◌, ◌++◌, None, Some, true, false, map, string_bytes, OnOk, OnErr, IfOk, if◌then◌else◌};
ghost use Rattle.ak_outside.specs.Causes.{Rose, one_more};
ghost use Rattle.ak_outside.specs.Reads.{Asks, CountsRead, Hands, held_length};

use crate::calls::Calls;
use crate::{Files, FilesFault};
use ak_core::OutOfMemory;
use std::alloc::Global;
use std::collections::BTreeMap;

/// Files in memory. It tells all that it holds, and its reads fail where they are told to.
#[derive(Drop)]
pub struct MemFiles {
    alloc: Global,
    held: BTreeMap<String, Vec<u8>>,
    asked: Vec<String>,
    calls: Calls,
    handed: usize,
    faults: u64,
}

impl MemFiles {
    ghost use Rattle.ak_outside.specs.MemFiles.{content_of, calls_of, faults_of, handed_of, asked_of, is_failing, PutsFile, KeepsAccount};

    /// No name holds anything, and no call fails. It takes no memory.
    pub fn new(alloc: Global) -> Self
        ensures content { (name : List ℕ) → content_of result name ≡ None }
        ensures failing { (call : ℕ) → is_failing result call ≡ false }
        ensures asked { asked_of result ≡ [] }
        ensures calls { calls_of result ≡ 0 }
        ensures faults { faults_of result ≡ 0 }
        ensures handed { handed_of result ≡ 0 }
    {
        MemFiles {
            alloc,
            held: BTreeMap::new(alloc),
            asked: Vec::new(alloc),
            calls: Calls::new(alloc),
            handed: 0,
            faults: 0,
        }
    }

    /// Lets the name hold these bytes, in place of what it held.
    pub fn put(&mut self, name: &str, bytes: &[u8]) -> Result<(), OutOfMemory>
        ensures ok { OnOk result (PutsFile self.old self.new name.now bytes.now) }
        ensures err { OnErr result ((other : List ℕ) → content_of self.new other ≡ content_of self.old other) }
        ensures failing { is_failing self.new ≡ is_failing self.old }
        ensures account { KeepsAccount self.old self.new }
    {
        let Ok(key) = String::from_str(self.alloc, name) else {
            return Err(OutOfMemory);
        };
        let Ok(value) = Vec::from_slice(self.alloc, bytes) else {
            return Err(OutOfMemory);
        };
        match self.held.insert(key, value) {
            Ok(_) => Ok(()),
            Err(_) => Err(OutOfMemory),
        }
    }

    /// Makes the numbered call of `read` fail. The first call since the object was made has number 1.
    pub fn fail_at(&mut self, call: u32) -> Result<(), OutOfMemory>
        ensures ok { OnOk result ((other : ℕ) → is_failing self.new other ≡ (is_failing self.old other || call == other)) }
        ensures err { OnErr result ((other : ℕ) → is_failing self.new other ≡ is_failing self.old other) }
        ensures content { content_of self.new ≡ content_of self.old }
        ensures account { KeepsAccount self.old self.new }
    {
        self.calls.fail_at(call)
    }
}

/// Adds a name to the names asked.
fn add_name(asked: &mut Vec<String>, alloc: Global, name: &str) -> Result<(), OutOfMemory>
    ensures ok { OnOk result (map string_bytes asked.new.items ≡ map string_bytes asked.old.items ++ name.now ∷ []) }
    ensures err { OnErr result (map string_bytes asked.new.items ≡ map string_bytes asked.old.items) }
{
    let Ok(copy) = String::from_str(alloc, name) else {
        return Err(OutOfMemory);
    };
    match asked.push(copy) {
        Ok(()) => Ok(()),
        Err(_) => Err(OutOfMemory),
    }
}

impl Files for MemFiles {
    ghost use Rattle.ak_outside.specs.MemFiles.{content_of, calls_of, faults_of, handed_of, asked_of, is_failing, next_fails, Answers};

    ghost tells = { λ _. true };

    ghost content = { content_of };

    ghost asked = { asked_of };

    ghost handed = { handed_of };

    ghost faults = { faults_of };

    /// As `Files::read`. A call that was made to fail answers `Failed` and hands over nothing; its name counts as asked.
    fn read(&mut self, alloc: Global, name: &str, limit: usize) -> Result<Vec<u8>, FilesFault>
        requires { limit < 2 ^ 32 }
        ensures bytes { IfOk result (λ v. content_of self.old name.now ≡ Some v.items) }
        ensures keeps { content_of self.new ≡ content_of self.old }
        ensures asked { Asks (asked_of self.old) (asked_of self.new) name.now result }
        ensures handed { Hands limit (handed_of self.new) result }
        ensures within { handed_of self.new ≤ held_length (content_of self.old name.now) }
        ensures missing { content_of self.old name.now ≡ None → Rose (faults_of self.old) (faults_of self.new) }
        ensures count { CountsRead (faults_of self.old) (faults_of self.new) result }

        // The call is counted, which calls fail stays, and the faults grow by one at the reads that fail alone.
        ensures calls { calls_of self.new ≡ one_more (calls_of self.old) }
        ensures failing { is_failing self.new ≡ is_failing self.old }
        ensures failures { faults_of self.new ≡ (if next_fails self.old name.now then one_more (faults_of self.old) else faults_of self.old) }

        // Each answer comes only where it is right, but for want of memory.
        ensures answers { Answers (next_fails self.old name.now) (content_of self.old name.now) limit result }
        ensures none_handed { next_fails self.old name.now ≡ true → handed_of self.new ≡ 0 }
    {
        let is_made_to_fail = self.calls.next_fails();
        self.handed = 0;
        match self.held.get(name) {
            Some(bytes) if !is_made_to_fail => {
                if add_name(&mut self.asked, alloc, name).is_err() {
                    return Err(FilesFault::OutOfMemory);
                }
                if bytes.len() > limit {
                    self.handed = limit + 1;
                    return Err(FilesFault::TooLong);
                }
                match Vec::from_slice(alloc, bytes) {
                    Ok(copy) => {
                        self.handed = copy.len();
                        Ok(copy)
                    }
                    Err(_) => Err(FilesFault::OutOfMemory),
                }
            }
            _ => {
                self.faults = self.faults.saturating_add(1);
                match add_name(&mut self.asked, alloc, name) {
                    Ok(()) => Err(FilesFault::Failed),
                    Err(_) => Err(FilesFault::OutOfMemory),
                }
            }
        }
    }
}
