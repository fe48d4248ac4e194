//! The memo.

ghost use Rattle.std.specs.Prelude.{◌≡◌, ◌≢◌, ◌⊎◌, [], None, Some, true, false, IfOk, OnOk, OnErr, Contains};
ghost use Rattle.std.specs.Map.{lookup};
ghost use Rattle.lk_ask.specs.declared.kept.Kept.{Kept as Answered};
ghost use Rattle.lk_ask.specs.declared.query.Query.{Query as Question};
ghost use Rattle.lk_memo.specs.declared.key.Key.{Key as Asked};
ghost use Rattle.lk_memo.specs.Keys.{key_of, same_key};
ghost use Rattle.lk_memo.specs.Lasting.{BeginsWith, GoesOn, Loses, Outlasts, TakesIn};
ghost use Rattle.lk_memo.specs.Entries.{Holds, first_of, outlasting_of, kept_of};

use crate::key::{Key, key_of};
use crate::lasting::Lasting;
use crate::recent::Recent;
use lk_ask::kept::Kept;
use lk_ask::query::Query;
use lk_store::memory::NoMemory;
use lru::LruCache;
use std::alloc::Global;
use std::num::NonZeroUsize;

/// An answer that costs so much or more is dear.
const DEAR: u128 = 256;

/// So many slots are for the last answers, where the memo may have twice as many entries or more.
const SLOTS: u32 = 1024;

/// So many slots are for answers over a library's own terms, where the memo may have four times as
/// many entries or more.
const LASTING: u32 = 8192;

/// So many slots are for answers over terms that units made, where the memo may have eight times as
/// many entries or more.
const STAYING: u32 = 8192;

/// The last answers that were kept or found: the very last ones, each in a slot of its own, and for
/// longer those that were dear; and over many units those over a library's own terms, and, while
/// they stand, those over terms that units made.
#[derive(Drop)]
pub struct PrivateMemo {
    pub recent: Recent,
    /// Over a library's own terms.
    pub lasting: Lasting,
    /// Over the terms that stood when the unit at work began.
    pub staying: Lasting,
    pub cache: LruCache<Key, Kept>,
}

impl PrivateMemo {
    /// An empty memo of at most so many answers, and of one at least. Where they are few there are
    /// no slots, and each answer counts as dear.
    pub fn new(alloc: Global, entries: u32) -> Result<Self, NoMemory>
        ensures private { IfOk result (λ m. (k : Asked) (v : Answered) → Holds m k v → ⊥) }
        ensures lasting { IfOk result (λ m. (k : Asked) (v : Answered)
            → Outlasts m.lasting k v → ⊥) }
        ensures staying { IfOk result (λ m. (k : Asked) (v : Answered)
            → Outlasts m.staying k v → ⊥) }
    {
        let slots = if entries / 2 >= SLOTS { SLOTS } else { 0 };
        let lasting = if entries / 4 >= LASTING { LASTING } else { 0 };
        let staying = if entries / 8 >= STAYING { STAYING } else { 0 };
        let room = match NonZeroUsize::new((entries - slots - lasting - staying) as usize) {
            Some(room) => room,
            None => NonZeroUsize::MIN,
        };
        let recent = Recent::new(alloc, slots as usize)?;
        let lasting = Lasting::new(alloc, lasting as usize)?;
        let staying = Lasting::new(alloc, staying as usize)?;
        match LruCache::sparse(alloc, room) {
            Ok(cache) => Ok(PrivateMemo {
                recent,
                lasting,
                staying,
                cache,
            }),
            Err(_) => Err(NoMemory),
        }
    }

    /// Forgets all that is kept, also what outlasts a unit. From here on what is kept over so many
    /// first terms lasts, once a unit looks.
    pub fn begin(&mut self, terms: u64)
        ensures private { (k : Asked) (v : Answered) → Holds self.new k v → ⊥ }
        ensures lasting { BeginsWith self.new.lasting terms None }
        ensures staying { BeginsWith self.new.staying terms None }
    {
        self.recent.clear();
        self.cache.clear();
        self.lasting.begin(terms);
        self.staying.begin(terms);
    }

    /// Forgets all that is kept but what outlasts a unit, for which none looks from here on. It
    /// takes a step for each dear answer.
    pub fn clear(&mut self)
        ensures private { (k : Asked) (v : Answered) → Holds self.new k v → ⊥ }
        ensures lasting { GoesOn self.old.lasting self.new.lasting self.old.lasting.terms None }
        ensures staying { GoesOn self.old.staying self.new.staying self.old.staying.terms None }
    {
        self.recent.clear();
        self.cache.clear();
        self.lasting.look_from(None);
        self.staying.look_from(None);
    }

    /// The same, and from here on this unit looks for what outlasts a unit.
    pub fn start(&mut self, unit: u32)
        ensures private { (k : Asked) (v : Answered) → Holds self.new k v → ⊥ }
        ensures lasting { GoesOn self.old.lasting self.new.lasting self.old.lasting.terms
            (Some unit) }
        ensures staying { GoesOn self.old.staying self.new.staying self.old.staying.terms
            (Some unit) }
    {
        self.clear();
        self.lasting.look_from(Some(unit));
        self.staying.look_from(Some(unit));
    }

    /// From here on what is kept over so many first terms stays, no fewer than before, as does what
    /// was kept so before.
    pub fn stay(&mut self, terms: u64)
        ensures recent { self.new.recent ≡ self.old.recent }
        ensures cache { self.new.cache ≡ self.old.cache }
        ensures lasting { self.new.lasting ≡ self.old.lasting }
        ensures staying { GoesOn self.old.staying self.new.staying terms self.old.staying.unit }
    {
        self.staying.go_on(terms);
    }

    /// Forgets what was kept over terms that units made, since they are gone. From here on what is
    /// kept over so many first terms stays.
    pub fn forget_staying(&mut self, terms: u64)
        ensures recent { self.new.recent ≡ self.old.recent }
        ensures cache { self.new.cache ≡ self.old.cache }
        ensures lasting { self.new.lasting ≡ self.old.lasting }
        ensures staying { BeginsWith self.new.staying terms self.old.staying.unit }
    {
        self.staying.forget();
        self.staying.go_on(terms);
    }

    /// What is kept of a question and outlasts its unit.
    fn find_outlasting(&self, query: Query<u64>, key: Key) -> Option<Kept>
        requires { key ≡ key_of query }
        ensures { result ≡ outlasting_of self.now query }
    {
        match self.lasting.find(query, key) {
            Some(kept) => Some(kept),
            None => self.staying.find(query, key),
        }
    }

    /// What is kept of a question. It takes no memory.
    pub fn find(&mut self, query: Query<u64>) -> Option<Kept>
        ensures kept { result ≡ kept_of self.old query }
        ensures holds { (k : Asked) (v : Answered) → Holds self.new k v → Holds self.old k v }
        ensures lasting { self.new.lasting ≡ self.old.lasting }
        ensures staying { self.new.staying ≡ self.old.staying }
    {
        let key = key_of(query);
        match self.recent.find(key) {
            Some(kept) => Some(kept),
            None => match self.find_outlasting(query, key) {
                Some(kept) => Some(kept),
                None => self.cache.get(&key).copied(),
            },
        }
    }

    /// Keeps an answer among the dear ones, if it is one of them.
    fn keep_dear(&mut self, key: Key, kept: Kept) -> Result<(), NoMemory>
        ensures recent { self.new.recent ≡ self.old.recent }
        ensures lasting { self.new.lasting ≡ self.old.lasting }
        ensures staying { self.new.staying ≡ self.old.staying }
        ensures entries { (e : _) → Contains self.new.cache.entries e
            → Contains self.old.cache.entries e ⊎ (e ≡ (key, kept)) }
        ensures kept { OnOk result (self.old.recent.slots ≡ []
            → lookup (same_key key) self.new.cache.entries ≡ Some kept) }
        ensures refused { OnErr result (self.new ≡ self.old) }
    {
        if kept.cost < DEAR && !self.recent.is_empty() {
            return Ok(());
        }
        match self.cache.put(key, kept) {
            Ok(_) => Ok(()),
            Err(_) => Err(NoMemory),
        }
    }

    /// The same of an answer that outlasts its unit, where there is memory. A slot may be taken by a
    /// cheap answer: were a dear one there alone, a file could have it worked out again and again.
    fn keep_dear_too(&mut self, key: Key, kept: Kept)
        ensures recent { self.new.recent ≡ self.old.recent }
        ensures lasting { self.new.lasting ≡ self.old.lasting }
        ensures staying { self.new.staying ≡ self.old.staying }
        ensures entries { (e : _) → Contains self.new.cache.entries e
            → Contains self.old.cache.entries e ⊎ (e ≡ (key, kept)) }
    {
        let _kept = self.keep_dear(key, kept);
    }

    /// Where there are no slots for the last answers, nothing outlasts its unit.
    fn end_outlasting(&mut self)
        ensures recent { self.new.recent ≡ self.old.recent }
        ensures cache { self.new.cache ≡ self.old.cache }
        ensures lasting { Loses self.old.lasting self.new.lasting }
        ensures staying { Loses self.old.staying self.new.staying }
        ensures none { self.old.recent.slots ≡ [] → (k : Asked) (v : Answered)
            → (Outlasts self.new.lasting k v → ⊥) × (Outlasts self.new.staying k v → ⊥) }
    {
        if self.recent.is_empty() {
            self.lasting.forget();
            self.staying.forget();
        }
    }

    /// Keeps an answer among those that outlast their unit, if it is one of them. Where there are no
    /// slots for the last answers, none is.
    fn keep_outlasting(&mut self, query: Query<u64>, key: Key, kept: Kept) -> bool
        requires { key ≡ key_of query }
        ensures recent { self.new.recent ≡ self.old.recent }
        ensures cache { self.new.cache ≡ self.old.cache }
        ensures lasting { TakesIn self.old.lasting self.new.lasting query kept }
        ensures staying { TakesIn self.old.staying self.new.staying query kept }
        ensures some { result ≡ true → self.old.recent.slots ≢ [] }
        ensures refused { result ≡ false → self.new ≡ self.old }
    {
        if self.recent.is_empty() {
            return false;
        }
        self.lasting.keep(query, key, kept) || self.staying.keep(query, key, kept)
    }

    /// Keeps an answer among those that outlast their unit, or else among the dear ones, if it is one
    /// of them.
    fn keep_long(&mut self, query: Query<u64>, key: Key, kept: Kept) -> Result<(), NoMemory>
        requires { key ≡ key_of query }
        ensures recent { self.new.recent ≡ self.old.recent }
        ensures entries { (e : _) → Contains self.new.cache.entries e
            → Contains self.old.cache.entries e ⊎ (e ≡ (key, kept)) }
        ensures lasting { TakesIn self.old.lasting self.new.lasting query kept }
        ensures staying { TakesIn self.old.staying self.new.staying query kept }
        ensures kept { OnOk result (self.old.recent.slots ≡ []
            → first_of (outlasting_of self.new query)
            (lookup (same_key key) self.new.cache.entries) ≡ Some kept) }
        ensures refused { OnErr result (self.new ≡ self.old) }
    {
        if self.keep_outlasting(query, key, kept) {
            self.keep_dear_too(key, kept);
            return Ok(());
        }
        self.keep_dear(key, kept)?;
        self.end_outlasting();
        Ok(())
    }

    /// Keeps an answer. Where memory is wanting the memo is as before.
    pub fn keep(&mut self, query: Query<u64>, kept: Kept) -> Result<(), NoMemory>
        ensures holds { (k : Asked) (v : Answered) → Holds self.new k v
            → Holds self.old k v ⊎ ((k ≡ key_of query) × (v ≡ kept)) }
        ensures lasting { TakesIn self.old.lasting self.new.lasting query kept }
        ensures staying { TakesIn self.old.staying self.new.staying query kept }
        ensures kept { OnOk result (kept_of self.new query ≡ Some kept) }
        ensures refused { OnErr result (self.new ≡ self.old) }
    {
        let key = key_of(query);
        self.keep_long(query, key, kept)?;
        self.recent.keep(key, kept);
        Ok(())
    }
}
