//! The texts of the examples, and what is true of them.

ghost use Rattle.std.specs.Prelude.{◌≡◌, ◌++◌, ◌∷◌, [], codes};
ghost use Rattle.watch_word.specs.declared.layout.Layout.TheVariants.{W64};
ghost use Rattle.report_text.specs.Faults.{FalseReportAt, IsTrueTrace};
ghost use Rattle.report_text.specs.TraceText.{first, second, trace_text};
ghost use Rattle.worked_examples.specs.example_traces.Examples.{apart, hit_at, race_of, racing, taken_at, told, turns};

/// The example of version 1, as bytes.
pub fn version_1_is_spelled()
    ensures { trace_text first (racing ++ race_of 1 ∷ []) ≡ codes "KCSAN-TRACE 1\naccess 0 0 r 0x0000000000010000 4 0x0000000000000000 0 3\naccess 1 0 wc 0x0000000000010000 4 0x0000000000000000 1 2\nrace 0 0 1 0\nend\n" }
{}

/// The example of version 2, as bytes.
pub fn version_2_is_spelled()
    ensures { trace_text (second 64 W64) told ≡ codes "KCSAN-TRACE 2\nshape 64 64\naccess 0 0 r 0x0000000000010000 4 0x0000000000000000 0 3\naccess 1 0 wc 0x0000000000010000 4 0x0000000000000000 1 2\n"
        ++ codes "arm 0 0 0 17 0x0008000000010000 1 0 report\ntake 1 0 17 0 0\nrace 0 0 1 0\nend\n" }
{}

/// A loop's turns, as bytes.
pub fn turns_are_spelled()
    ensures { trace_text first turns ≡ codes "KCSAN-TRACE 1\naccess 0 0 r 0x0000000000010000 4 0x0000000000000000 0 1\naccess 0 0.1 r 0x0000000000010000 4 0x0000000000000000 2 3\n"
        ++ codes "access 0 0.2 r 0x0000000000010000 4 0x0000000000000000 4 7\naccess 1 0 wc 0x0000000000010000 4 0x0000000000000000 5 6\nrace 0 0.2 1 0\nend\n" }
{}

/// The example of version 1 is a true trace.
pub fn version_1_is_true()
    ensures { IsTrueTrace (trace_text first (racing ++ race_of 1 ∷ [])) first (racing ++ race_of 1 ∷ []) }
{}

/// The example of version 2 is a true trace.
pub fn version_2_is_true()
    ensures { IsTrueTrace (trace_text (second 64 W64) told) (second 64 W64) told }
{}

/// The trace of a loop whose third turn met a write is true.
pub fn turns_are_true()
    ensures { IsTrueTrace (trace_text first turns) first turns }
{}

/// A race line of two accesses of which one ended before the other began is false: line 4.
pub fn apart_is_false()
    ensures { FalseReportAt (trace_text first (apart ++ race_of 1 ∷ [])) 4 }
{}

/// A hit without its taking is false at the end: line 7.
pub fn hit_alone_is_false()
    ensures { FalseReportAt (trace_text (second 64 W64) (racing ++ hit_at 17 0x0008000000010000 ∷ race_of 1 ∷ [])) 7 }
{}

/// A hit with two takings is false at the end: line 9.
pub fn taken_twice_is_false()
    ensures { FalseReportAt (trace_text (second 64 W64) (racing ++ hit_at 17 0x0008000000010000 ∷ taken_at 17 ∷ taken_at 17 ∷ race_of 1 ∷ [])) 9 }
{}

/// A watchpoint at an index that its access hasn't is false: line 5.
pub fn far_index_is_false()
    ensures { FalseReportAt (trace_text (second 64 W64) (racing ++ hit_at 19 0x0008000000010000 ∷ taken_at 19 ∷ race_of 1 ∷ [])) 5 }
{}

/// A watchpoint with another word than its access's is false: line 5.
pub fn other_word_is_false()
    ensures { FalseReportAt (trace_text (second 64 W64) (racing ++ hit_at 17 0x8008000000010000 ∷ taken_at 17 ∷ race_of 1 ∷ [])) 5 }
{}
