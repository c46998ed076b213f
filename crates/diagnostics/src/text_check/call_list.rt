//! The calls that are read in the bodies of processes.

ghost use Rattle.std.specs.Prelude.{◌≡◌};
ghost use Rattle.diagnostics.specs.text_check.Calls.{calls_text};

/// The names of these calls, a line each: the words of the grammar that are called.
pub fn calls() -> &'static str
    ensures { result.now ≡ calls_text }
{
    "data_race\n\
     READ_ONCE\n\
     smp_load_acquire\n\
     atomic_read\n\
     xchg\n\
     cmpxchg\n\
     WRITE_ONCE\n\
     smp_store_release\n\
     atomic_set\n\
     atomic_add\n\
     atomic_inc\n\
     atomic_dec\n\
     smp_mb\n\
     smp_rmb\n\
     smp_wmb\n\
     smp_mb__before_atomic\n\
     smp_mb__after_atomic\n\
     smp_mb__after_spinlock\n\
     smp_mb__after_unlock_lock\n\
     spin_lock\n\
     spin_unlock\n\
     ASSERT_EXCLUSIVE_WRITER\n\
     ASSERT_EXCLUSIVE_WRITER_SCOPED\n\
     ASSERT_EXCLUSIVE_ACCESS\n\
     ASSERT_EXCLUSIVE_ACCESS_SCOPED\n\
     ASSERT_EXCLUSIVE_BITS\n\
     kcsan_disable_current\n\
     kcsan_enable_current\n\
     kcsan_nestable_atomic_begin\n\
     kcsan_nestable_atomic_end\n\
     kcsan_flat_atomic_begin\n\
     kcsan_flat_atomic_end\n\
     kcsan_atomic_next\n\
     kcsan_check_read\n\
     kcsan_check_write\n"
}
