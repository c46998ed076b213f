//! The lines of a trace that were read: whether a next line may stand behind them, and is true.

ghost use Rattle.std.specs.Prelude.{◌≡◌, ◌++◌, ◌∷◌, ◌↔◌, ◌==◌, ◌<◌, ◌≤◌, ◌^◌, [], List, IsTrue, count_by, OnOk, length};
ghost use Rattle.access_types.specs.Arms as arms;
ghost use Rattle.access_types.specs.Stamped as stamps;
ghost use Rattle.report_text.specs.Faults.{HeadStands, MayHaveSlots};
ghost use Rattle.report_text.specs.Standing.{AccessStands, ArmStands, ContentStands, FinderStands, NamesOne, ReportStands, Stands, TakeStands, arms_of, kind_place};
ghost use Rattle.report_text.specs.TraceText as trace;
ghost use Rattle.report_text.specs.Truth.{ArmIsTrue, IsTrueEnd, IsTrueLine, OutcomeIsTrue, ReportIsTrue, TellOfTheSame};
ghost use Rattle.report_text.specs.declared.line.Line.{Line};
ghost use Rattle.report_text.specs.declared.line.Line.TheVariants as lines;
ghost use Rattle.trace_replay.specs.trace_lines.HeadReading.{head_of};
ghost use Rattle.trace_replay.specs.trace_lines.Reading.{AccessIsPlain, ArmIsPlain, IsPlain, ReportIsPlain};
ghost use Rattle.watch_word.specs.Word.{WordOf};
ghost use Rattle.trace_replay.specs.Answer.{accepted_of};
ghost use Rattle.trace_replay.specs.Story.{Knows, IsStoryOf};

use crate::accepted::Accepted;
use crate::accesses::Accesses;
use crate::armings::Armings;
use crate::told::Told;
use crate::trace_lines::{Head, Shape};
use access_types::{Arm, ArmOutcome, Report, Stamped, Take};
use report_text::Line;
use report_text::truth::{letters_agree, may_hit, may_see, may_watch, race_by_stamps};
use std::alloc::{AllocError, Global};
use watch_word::{decode_in, law_words_read_back};

/// What is kept of the lines of a trace that were read.
#[derive(Drop)]
pub struct Story {
    /// The place among the kinds of lines that was reached.
    place: u32,
    accesses: Accesses,
    /// The armings of each access, by its ticket.
    armings: Armings,
    /// What armings told of.
    by_arms: Told,
    /// What takings and reports told of.
    by_others: Told,
    arms: usize,
    takes: usize,
    reports: usize,
}

/// The place of a line among the kinds.
fn place_of(line: &Line) -> u32
    ensures { result ≡ kind_place line.now }
{
    match line {
        Line::Access(_) => 0,
        Line::Arm(_) => 1,
        Line::Take(_) => 2,
        Line::Report(_) => 3,
    }
}

impl Story {
    /// No line was read. What is kept takes its memory from this allocator. The trace has so many bytes.
    pub fn new(alloc: Global, len: u64) -> Story
        ensures { IsStoryOf [] result }
    {
        Story {
            place: 0,
            accesses: Accesses::new(alloc, len),
            armings: Armings::new(alloc),
            by_arms: Told::new(alloc),
            by_others: Told::new(alloc),
            arms: 0,
            takes: 0,
            reports: 0,
        }
    }

    /// An access among the lines has this ticket.
    fn names(&self, ticket: u32) -> bool
        ensures { (all : List Line) → Knows all self.now → IsTrue result ↔ NamesOne all ticket }
    {
        self.accesses.named(ticket).is_some()
    }

    /// The line may stand behind those that were read.
    pub fn may_follow(&self, head: Head, line: &Line) -> bool
        requires plain { IsPlain line.now }
        requires head { HeadStands (head_of head) }
        ensures { (all : List Line) → IsStoryOf all self.now → IsTrue result ↔ Stands (head_of head) all line.now }
    {
        self.place <= place_of(line) && self.content_stands(head, line)
    }

    /// What the line says may stand behind those that were read.
    fn content_stands(&self, head: Head, line: &Line) -> bool
        requires plain { IsPlain line.now }
        requires head { HeadStands (head_of head) }
        ensures { (all : List Line) → Knows all self.now → IsTrue result ↔ ContentStands (head_of head) all line.now }
    {
        match (head, line) {
            (_, Line::Access(stamped)) => self.access_stands(stamped),
            (Head::Second(shape), Line::Arm(arm)) => self.arm_stands(shape, arm),
            (Head::Second(shape), Line::Take(take)) => self.take_stands(shape, take),
            (Head::First, Line::Arm(_) | Line::Take(_)) => false,
            (_, Line::Report(report)) => self.report_stands(report),
        }
    }

    /// The access may stand behind the lines.
    fn access_stands(&self, stamped: &Stamped) -> bool
        requires { AccessIsPlain stamped.now }
        ensures { (all : List Line) → Knows all self.now → IsTrue result ↔ AccessStands all stamped.now }
    {
        stamped.begin() < stamped.end() && letters_agree(stamped) && self.accesses.is_new(stamped)
    }

    /// The arming may stand behind the lines.
    fn arm_stands(&self, shape: Shape, arm: &Arm) -> bool
        requires plain { ArmIsPlain arm.now }
        requires slots { MayHaveSlots shape.slots }
        ensures { (all : List Line) → Knows all self.now → IsTrue result ↔ ArmStands shape.slots all arm.now }
    {
        self.counts_on(arm)
            && arm.index() as u64 <= shape.slots + 1
            && self.finder_stands(arm.outcome())
    }

    /// The access of the arming stands among the lines, and the arming's number is that of its
    /// earlier ones.
    fn counts_on(&self, arm: &Arm) -> bool
        ensures { (all : List Line) → Knows all self.now → IsTrue result
            ↔ (NamesOne all arm.now.setter × (arm.now.number ≡ count_by (λ b. b.setter == arm.now.setter) (arms_of all))) }
    {
        self.names(arm.setter()) && arm.number() == self.armings.of(arm.setter())
    }

    /// The finder of a hit stands among the lines.
    fn finder_stands(&self, outcome: ArmOutcome) -> bool
        ensures { (all : List Line) → Knows all self.now → IsTrue result ↔ FinderStands all outcome }
    {
        match outcome {
            ArmOutcome::Quiet | ArmOutcome::Origin => true,
            ArmOutcome::Hit { finder, .. } => self.names(finder),
        }
    }

    /// The taking may stand behind the lines.
    fn take_stands(&self, shape: Shape, take: &Take) -> bool
        requires { MayHaveSlots shape.slots }
        ensures { (all : List Line) → Knows all self.now → IsTrue result ↔ TakeStands shape.slots all take.now }
    {
        self.names(take.finder())
            && self.names(take.setter())
            && take.index() as u64 <= shape.slots + 1
    }

    /// The report may stand behind the lines.
    fn report_stands(&self, report: &Report) -> bool
        requires { ReportIsPlain report.now }
        ensures { (all : List Line) → Knows all self.now → IsTrue result ↔ ReportStands all report.now }
    {
        match *report {
            Report::Two { setter, finder, .. } => self.names(setter) && self.names(finder),
            Report::Unknown { setter, .. } => self.names(setter),
        }
    }

    /// The line, which may stand behind those that were read, is true.
    pub fn is_true(&self, head: Head, line: &Line) -> bool
        requires stands { HeadStands (head_of head) }
        requires known { (all : List Line) × Knows all self.now }
        ensures { (all : List Line) → Knows all self.now → IsTrue result ↔ IsTrueLine (head_of head) all line.now }
    {
        match (head, line) {
            (_, Line::Access(_)) => true,
            (Head::Second(shape), Line::Arm(arm)) => self.arm_is_true(shape, arm),
            (Head::First, Line::Arm(_)) => false,
            (_, Line::Take(_)) => true,
            (_, Line::Report(report)) => self.report_is_true(report),
        }
    }

    /// The access of an arming may have made it, and what became of it may have.
    fn arm_is_true(&self, shape: Shape, arm: &Arm) -> bool
        requires slots { MayHaveSlots shape.slots }
        requires known { (all : List Line) × Knows all self.now }
        ensures { (all : List Line) → Knows all self.now → IsTrue result ↔ ArmIsTrue shape.slots shape.layout all arm.now }
    {
        let Some(setter) = self.accesses.named(arm.setter()) else {
            return false;
        };
        may_watch(
            shape.slots,
            shape.layout,
            &setter,
            arm.number(),
            arm.index() as u64,
            arm.watch_word(),
        ) && self.outcome_is_true(shape, &setter, arm)
    }

    /// What became of an arming of the setter may have.
    fn outcome_is_true(&self, shape: Shape, setter: &Stamped, arm: &Arm) -> bool
        requires slots { MayHaveSlots shape.slots }
        requires word { WordOf shape.layout setter.now.access arm.now.watch_word }
        requires known { (all : List Line) × Knows all self.now }
        ensures { (all : List Line) → Knows all self.now
            → IsTrue result ↔ OutcomeIsTrue shape.slots shape.layout all setter.now arm.now arm.now.outcome }
    {
        let ArmOutcome::Hit { finder, result } = arm.outcome() else {
            return true;
        };
        let Some(finder) = self.accesses.named(finder) else {
            return false;
        };
        law_words_read_back();
        let Some(watch) = decode_in(shape.layout, arm.watch_word()) else {
            return false;
        };
        may_hit(
            shape.slots,
            shape.layout,
            &watch,
            arm.index() as u64,
            setter,
            &finder,
            result,
        )
    }

    /// The report is true.
    fn report_is_true(&self, report: &Report) -> bool
        ensures { (all : List Line) → Knows all self.now → IsTrue result ↔ ReportIsTrue all report.now }
    {
        match *report {
            Report::Two { setter, finder, .. } => {
                match (self.accesses.named(setter), self.accesses.named(finder)) {
                    (Some(setter), Some(finder)) => race_by_stamps(&setter, &finder),
                    _ => false,
                }
            }
            Report::Unknown { setter, old, new } => match self.accesses.named(setter) {
                Some(setter) => may_see(&setter, old, new),
                None => false,
            },
        }
    }

    /// The trace may end behind the lines: in version 2 they tell of the same.
    pub fn may_end(&self, head: Head) -> bool
        ensures { (all : List Line) → Knows all self.now → IsTrue result ↔ IsTrueEnd (head_of head) all }
    {
        match head {
            Head::First => true,
            Head::Second(_) => self.by_arms.agrees_with(&self.by_others),
        }
    }

    /// Keeps the line, which may stand behind those that were read. The only error is want of memory.
    pub fn keep(&mut self, line: &Line) -> Result<(), AllocError>
        requires { (head : trace.Head) × (all : List Line) × IsStoryOf all self.old × Stands head all line.now × (length all < 2 ^ 62) }
        ensures { (head : trace.Head) (all : List Line) → IsStoryOf all self.old → Stands head all line.now
            → OnOk result (IsStoryOf (all ++ line.now ∷ []) self.new) }
    {
        self.place = place_of(line);
        match line {
            Line::Access(stamped) => self.accesses.add(stamped),
            Line::Arm(arm) => self.keep_arm(arm),
            Line::Take(take) => self.keep_take(take),
            Line::Report(report) => self.keep_report(report),
        }
    }

    /// Keeps an arming.
    fn keep_arm(&mut self, arm: &Arm) -> Result<(), AllocError>
        requires { (all : List Line) × Knows all self.old × (length all < 2 ^ 62) }
        ensures place { self.new.place ≡ self.old.place }
        ensures knows { (all : List Line) → Knows all self.old → OnOk result (Knows (all ++ lines.Arm arm.now ∷ []) self.new) }
    {
        self.arms += 1;
        self.armings.add(arm.setter())?;
        self.by_arms.arm(arm)
    }

    /// Keeps a taking.
    fn keep_take(&mut self, take: &Take) -> Result<(), AllocError>
        requires { (all : List Line) × Knows all self.old × (length all < 2 ^ 62) }
        ensures place { self.new.place ≡ self.old.place }
        ensures knows { (all : List Line) → Knows all self.old → OnOk result (Knows (all ++ lines.Take take.now ∷ []) self.new) }
    {
        self.takes += 1;
        self.by_others.take(take)
    }

    /// Keeps a report.
    fn keep_report(&mut self, report: &Report) -> Result<(), AllocError>
        requires { (all : List Line) × Knows all self.old × (length all < 2 ^ 62) }
        ensures place { self.new.place ≡ self.old.place }
        ensures knows { (all : List Line) → Knows all self.old → OnOk result (Knows (all ++ lines.Report report.now ∷ []) self.new) }
    {
        self.reports += 1;
        self.by_others.report(report)
    }

    /// How many lines of each kind were read.
    pub fn accepted(&self, head: Head) -> Accepted
        ensures { (all : List Line) → Knows all self.now → result ≡ accepted_of (head_of head) all }
    {
        let accesses = self.accesses.len();
        match head {
            Head::First => Accepted::First {
                accesses,
                reports: self.reports,
            },
            Head::Second(_) => Accepted::Second {
                accesses,
                arms: self.arms,
                takes: self.takes,
                reports: self.reports,
            },
        }
    }
}
