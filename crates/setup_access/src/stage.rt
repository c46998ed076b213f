//! What a checker does next: the check of an access, and what follows on it.

ghost use Rattle.std.specs.Prelude.{◌≡◌, ◌+◌, ◌-◌, ◌≤◌, ◌↔◌, ℕ, List, [], None, drop, length};
ghost use Rattle.slot_table.specs.declared.records.Record.{Record};
ghost use Rattle.setup_access.specs.Check.{ChecksBegun, ChecksLast, Passes, Rechecks};
ghost use Rattle.setup_access.specs.Checker.{HasBegun, IsClosing, RoleLeft, StageLeft, ToRoleLeft};
ghost use Rattle.setup_access.specs.Checker.{role_due, stage_due};
ghost use Rattle.setup_access.specs.Due.{to_due};
ghost use Rattle.setup_access.specs.Kept.{setting_with};
ghost use Rattle.setup_access.specs.PassLeft.{Samples};
ghost use Rattle.setup_access.specs.Setting as spec;
ghost use Rattle.setup_access.specs.Waiting.{stage_wait, to_wait};

use crate::begun::Begun;
use crate::find::Find;
use crate::pass::{Next, Pass};
use crate::setting::Setting;
use access_types::Sites;
use skip_sampler::Sampler;
use slot_table::index_order::ProbeIndex;

/// Whose check it is.
#[derive(Clone, Copy, PartialEq, Eq)]
pub enum Role {
    /// Of the access that began.
    Access,
    /// Of the scoped assertion with this number, the oldest being 0.
    Scope(usize),
    /// Of a scoped assertion whose scope is closed.
    Closing,
}

/// What a checker does next.
#[derive(Clone, Copy, PartialEq, Eq)]
pub enum CheckStage {
    /// Nothing: the check is over.
    Rest,
    /// Draw the stamp of the access's begin.
    Begin(Begun),
    /// Check an access.
    Check {
        role: Role,
        begun: Begun,
        pass: Pass,
    },
    /// Draw the stamp of the end of this scoped assertion, whose scope closes.
    End(Begun),
}

/// The check of an access from its look-up on: it has made no step yet.
#[inline(always)]
fn check_of(role: Role, begun: Begun) -> CheckStage
    ensures { result ≡ CheckStage.Check role begun (Pass.Find (record { place = ProbeIndex.First })) }
{
    CheckStage::Check {
        role,
        begun,
        pass: Pass::Find(Find::new()),
    }
}

/// The stamp of an access's begin is drawn. A silenced access takes and sets up nothing, so no report names it.
/// But it counts as skipped: which accesses of a task are watched doesn't hang on what is silenced.
#[inline(always)]
pub(crate) fn began(
    setting: &Setting,
    sites: &Sites,
    sampler: &mut Sampler,
    begun: Begun,
) -> CheckStage
    ensures fits { stage_due result ≤ 9 }
    ensures waits { stage_wait result ≡ None }
    ensures begun { HasBegun result }
    ensures left { (scopes : List Begun) (asked : ℕ) → let s = setting_with setting.now sites.now in Samples s asked sampler.old → (asked_now : ℕ) × Samples s asked_now sampler.new
        × ((records : List Record) (passes : Passes) → ChecksBegun s scopes begun asked records passes [] ↔ StageLeft s scopes result asked_now records passes) }
{
    if !begun.silenced {
        return check_of(Role::Access, begun);
    }
    if begun.marked {
        return CheckStage::Rest;
    }
    sampler.should_watch();
    CheckStage::Rest
}

/// A scope ends: its assertion is checked a last time, unless it or its task by now is silenced. What breaks it
/// after its task's last access within the scope meets this check alone. The check has the assertion with what was
/// decided at its begin: there is one only where neither the assertion nor its task is silenced.
#[inline(always)]
pub(crate) fn closing(begun: Begun, silenced: bool) -> CheckStage
    ensures fits { stage_due result ≤ 9 }
    ensures waits { stage_wait result ≡ None }
    ensures closes { IsClosing begun result }
    ensures left { (s : spec.Setting) (scopes : List Begun) (asked : ℕ) (records : List Record) (passes : Passes) →
        ChecksLast s begun silenced asked records passes [] ↔ StageLeft s scopes result asked records passes }
{
    if begun.silenced || silenced {
        return CheckStage::End(begun);
    }
    check_of(Role::Closing, begun)
}

#[inline(always)]
pub(crate) fn after_turn(to: Next, role: Role, begun: Begun, scopes: &[Begun]) -> CheckStage
    requires { length scopes.now ≤ 8 }
    ensures fits { stage_due result ≤ to_due to + role_due role }
    ensures waits { stage_wait result ≡ to_wait to }
    ensures begun { HasBegun result }
    ensures closes { role ≡ Role.Closing → IsClosing begun result }
    ensures left { (s : spec.Setting) (asked : ℕ) (records : List Record) (passes : Passes) →
        ToRoleLeft s scopes.now to role begun asked records passes ↔ StageLeft s scopes.now result asked records passes }
{
    match to {
        Next::Going(pass) => CheckStage::Check { role, begun, pass },
        Next::Settled => after_check(role, begun, true, scopes),
        Next::Unsettled => after_check(role, begun, false, scopes),
    }
}

/// What follows on a check of an access that is over. One that found a watchpoint or stalled for its own has
/// done enough here. After another, also where no index was free or no word stands for it, the scoped
/// assertions have their turn: one after the other, whatever each finds, since each is a claim apart.
#[inline(always)]
fn after_check(role: Role, begun: Begun, is_settled: bool, scopes: &[Begun]) -> CheckStage
    requires { length scopes.now ≤ 8 }
    ensures fits { stage_due result ≤ role_due role }
    ensures waits { stage_wait result ≡ None }
    ensures begun { HasBegun result }
    ensures closes { role ≡ Role.Closing → IsClosing begun result }
    ensures left { (s : spec.Setting) (asked : ℕ) (records : List Record) (passes : Passes) →
        RoleLeft s scopes.now role is_settled asked records passes ↔ StageLeft s scopes.now result asked records passes }
{
    match role {
        Role::Access if is_settled => CheckStage::Rest,
        Role::Access => check_scoped_accesses(scopes, 0),
        // Goes on to the next one: KCSAN's kcsan_check_scoped_accesses() too avoids that its checks start others.
        Role::Scope(number) => check_scoped_accesses(scopes, number.saturating_add(1)),
        Role::Closing => CheckStage::End(begun),
    }
}

/// `kcsan_check_scoped_accesses`, from a number on: the first that isn't silenced is checked.
#[inline(always)]
fn check_scoped_accesses(scopes: &[Begun], from: usize) -> CheckStage
    requires { length scopes.now ≤ 8 }
    ensures fits { stage_due result ≤ 8 - from }
    ensures waits { stage_wait result ≡ None }
    ensures begun { HasBegun result }
    ensures left { (s : spec.Setting) (asked : ℕ) (records : List Record) (passes : Passes) →
        Rechecks s (drop from scopes.now) asked records passes [] ↔ StageLeft s scopes.now result asked records passes }
{
    for number in from..scopes.len() {
        let begun = scopes[number];
        if !begun.silenced {
            return check_of(Role::Scope(number), begun);
        }
    }
    CheckStage::Rest
}
