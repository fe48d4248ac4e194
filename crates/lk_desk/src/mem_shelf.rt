//! A shelf in memory, with all its shards at home. It tells their answers.

ghost use Rattle.std.specs.Prelude.{◌≡◌, ◌<◌, ℕ, [], IfOk, All, None, length};
ghost use Rattle.lk_desk.specs.Job.{job_of};
ghost use Rattle.lk_desk.specs.Truth.{entries_of};
ghost use Rattle.lk_desk.specs.Memory.{AllTrue};

use crate::shard::Shard;
use crate::shelf::Shelf;
use lk_env::library::Library;
use lk_store::memory::NoMemory;
use std::alloc::Global;
use std::marker::Model;
use std::mem::replace;

const SHARDS: usize = 64;

/// Shards in memory.
#[derive(Drop)]
pub struct MemShelf<'a> {
    library: &'a Library,
    shards: Vec<Shard>,
    out: Option<u32>,
    alloc: Global,
}

impl<'a> Model for MemShelf<'a> {
    ghost use Rattle.std.specs.Prelude.{◌≡◌, length, map};
    ghost use Rattle.lk_desk.specs.Job.{job_of};
    ghost use Rattle.lk_desk.specs.Memory.{AllTrue};
    ghost use Rattle.lk_desk.specs.InMemory.{InMemory};
    ghost use Rattle.lk_desk.specs.Truth.{entries_of};

    ghost Value = { InMemory };

    ghost view = { λ s. record {
      library = s.library.now;
      shards = map entries_of s.shards.items;
      out = s.out;
    } };

    ghost invariant = { λ s. (length s.shards.items ≡ 64)
        × AllTrue (job_of s.library.now) s.shards.items };
}

fn empty_shards(alloc: Global, library: &Library) -> Result<Vec<Shard>, NoMemory>
    ensures count { IfOk result (λ v. length v.items ≡ 64) }
    ensures empty { IfOk result (λ v. All (λ x. entries_of x ≡ []) v.items) }
    ensures all_true { IfOk result (λ v. AllTrue (job_of library.now) v.items) }
{
    let mut shards = Vec::new(alloc);
    for _ in 0..SHARDS {
        shards.push(Shard::new(alloc))?;
    }
    Ok(shards)
}

impl<'a> MemShelf<'a> {
    ghost use Rattle.lk_desk.specs.Memory.Told.{mem_told};

    /// A shelf for the units of a library, with no answer.
    pub fn new(alloc: Global, library: &'a Library) -> Result<MemShelf<'a>, NoMemory>
        ensures job { IfOk result (λ m. m.library ≡ library.now) }
        ensures empty { IfOk result (λ m. (k : ℕ) → k < 64 → mem_told m k ≡ []) }
        ensures home { IfOk result (λ m. m.out ≡ None) }
    {
        let shards = empty_shards(alloc, library)?;
        Ok(MemShelf {
            library,
            shards,
            out: None,
            alloc,
        })
    }
}

impl<'a> Shelf for MemShelf<'a> {
    ghost use Rattle.lk_desk.specs.Memory.Told.{mem_job, mem_place, mem_table, mem_rest, mem_outs, mem_in_hand};
    ghost use Rattle.lk_desk.specs.Memory.Told.{mem_tells, mem_told, mem_remembers, mem_takes, mem_taken};

    ghost job = { mem_job };

    ghost place = { mem_place };

    ghost table = { mem_table };

    ghost rest = { mem_rest };

    ghost outs = { mem_outs };

    ghost in_hand = { mem_in_hand };

    ghost tells = { mem_tells };

    ghost told = { mem_told };

    ghost remembers = { mem_remembers };

    ghost takes = { mem_takes };

    ghost taken = { mem_taken };

    ghost returned = { mem_taken };

    fn take(&mut self, shard: u32) -> Option<Shard> {
        let empty = Shard::new(self.alloc);
        let taken = replace(&mut self.shards[shard as usize], empty);
        self.out = Some(shard);
        Some(taken)
    }

    fn give(&mut self, shard: u32, given: Shard) {
        self.shards[shard as usize] = given;
        self.out = None;
    }
}
