//! What is written stays what it is while the store grows. These functions do nothing: their
//! contracts are the laws.

ghost use Rattle.std.specs.Prelude.{◌≡◌, List, []};
ghost use Rattle.lk_store.specs.Contents.{Contents, Extends};
ghost use Rattle.lk_store.specs.Values.{AreApart};
ghost use Rattle.lk_trim.specs.declared.numbers.Numbers.{Numbers};
ghost use Rattle.lk_trim.specs.declared.numbers.Writer.{Writer};
ghost use Rattle.lk_trim.specs.Whole.{Kept};
ghost use Rattle.lk_trim.specs.Stored.{file_at, IsInterned, AreNumbersIn};
ghost use Rattle.lk_sections.specs.declared.trace.TraceWriter.{TraceWriter};
ghost use Rattle.lk_sections.specs.Sections.{UnitSection};
ghost use Rattle.lk_sections.specs.Stored.{HasWritten};

/// What was noted of a store is noted of one with more, in which nothing stands twice, and the text
/// means the same.
pub fn numbers_stay()
    ensures numbers { (c d : Contents) (n : Numbers) → Extends c d → IsInterned d
        → AreApart [] d.names → AreNumbersIn c n → AreNumbersIn d n }
    ensures file { (c d : Contents) (w : Writer) → Extends c d → AreNumbersIn c w.numbers
        → file_at d w ≡ file_at c w }
{}

/// So what is written of a trace is written of it over the larger store.
pub fn trace_stays()
    ensures { (c d : Contents) (ks : List Kept) (ss : List UnitSection) (t : TraceWriter)
        → Extends c d → IsInterned d → AreApart [] d.names
        → HasWritten c ks ss t → HasWritten d ks ss t }
{}
